//! The line and the column of an offset, its line, and the word at the front of a text.

use lint_text::{Position, first_word, line_at, position_of};
use std::test::Fail;
use test_rows::{Page, RowCall, try_rows};

const TEXT: &[u8] = b"AC_INIT([a], [1])\n\n\tx=1\nend";

fn is_at(offset: usize, line: usize, column: usize) -> bool {
    position_of(TEXT, offset) == Position { line, column }
}

#[test]
fn places_of_offsets(rt: HostRuntime) {
    let starts = is_at(0, 1, 1) && is_at(17, 1, 18) && is_at(18, 2, 1) && is_at(19, 3, 1);
    let ends = is_at(20, 3, 2) && is_at(24, 4, 1) && is_at(27, 4, 4) && is_at(99, 4, 4);
    assert!(rt; starts && ends);
}

#[test]
fn lines_of_offsets(rt: HostRuntime) {
    let whole = line_at(TEXT, 17) == b"AC_INIT([a], [1])".as_slice();
    let others = line_at(TEXT, 18).is_empty() && line_at(TEXT, 21) == b"\tx=1".as_slice();
    assert!(rt; whole && others && line_at(TEXT, 99) == b"end".as_slice());
}

struct Words;

impl RowCall for Words {
    fn put(&self, page: &mut Page, given: &[u8]) {
        page.put(first_word(given));
    }
}

const WORDS: &[u8] = b"
fi => fi
fi; x=1 => fi
done^Jx => done
case^Ix => case
$a-b/c d => $a-b/c
";

#[test]
fn words_at_the_front(rt: HostRuntime) -> Result<(), Fail> {
    try_rows(rt.alloc(), &Words, WORDS)
}
