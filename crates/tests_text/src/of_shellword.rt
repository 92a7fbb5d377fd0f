//! Words, here texts, tests and patterns.

use crate::told::{Next, Told, put_made, put_next, variables};
use deftable::Vars;
use shellword::{
    Element, HereText, Joint, Pattern, Patterns, Test, Word, read_here, read_patterns, read_test,
    read_word, read_word_front,
};
use test_rows::{Page, RowCall, cut};

/// A call, by what it reads.
pub enum WordReader {
    Word,
    Front,
    Here,
    Parts,
    Empty,
    Test,
    Elements,
    Matches,
    List,
    NoList,
}

pub const READERS: [(&[u8], WordReader); 10] = [
    (b"word", WordReader::Word),
    (b"front", WordReader::Front),
    (b"here", WordReader::Here),
    (b"parts", WordReader::Parts),
    (b"empty", WordReader::Empty),
    (b"test", WordReader::Test),
    (b"elements", WordReader::Elements),
    (b"matches", WordReader::Matches),
    (b"list", WordReader::List),
    (b"no_list", WordReader::NoList),
];

impl Next<Word> for Vars {
    fn put_of(&self, page: &mut Page, word: &Word) {
        put_made(page, word.value(page.alloc(), self));
    }
}

impl Next<HereText> for Vars {
    fn put_of(&self, page: &mut Page, here: &HereText) {
        put_made(page, here.value(page.alloc(), self));
    }
}

impl Next<(Word, usize)> for Vars {
    fn put_of(&self, page: &mut Page, front: &(Word, usize)) {
        page.put_number(front.1);
        page.put(b" ");
        self.put_of(page, &front.0);
    }
}

/// Puts whether an element and its condition hold.
fn put_element(page: &mut Page, vars: &Vars, element: &Element) {
    put_made(page, element.holds(page.alloc(), vars));
    page.put(b"/");
    put_made(page, element.condition.holds(page.alloc(), vars));
}

/// Each element, with its joint before it.
impl Next<Test> for Vars {
    fn put_of(&self, page: &mut Page, test: &Test) {
        let (first, rest) = test.elements();
        put_element(page, self, first);
        for (joint, element) in rest {
            page.put(match joint {
                Joint::And => b" and ",
                Joint::Or => b" or ",
            });
            put_element(page, self, element);
        }
    }
}

/// A text that is matched.
#[derive(Drop)]
struct Matched<'a>(&'a [u8]);

/// Whether each pattern matches the text, as `y` or `n`.
impl Next<Vec<Pattern>> for Matched<'_> {
    fn put_of(&self, page: &mut Page, patterns: &Vec<Pattern>) {
        for pattern in patterns {
            page.put(if pattern.matches(self.0) { b"y" } else { b"n" });
        }
    }
}

fn put_list(page: &mut Page, text: &[u8]) {
    match read_patterns(page.alloc(), text) {
        Ok(patterns) => Patterns::from_vec(patterns).tell(page),
        Err(fault) => page.put_shown(&fault),
    }
}

/// Puts how many parts the empty word has, and its value.
fn put_empty(page: &mut Page, vars: &Vars) {
    let word = Word::empty(page.alloc());
    page.put_number(word.parts().len());
    put_made(page, word.value(page.alloc(), vars));
}

/// Puts whether a list without patterns matches the empty text, and the list.
fn put_no_list(page: &mut Page) {
    let none = Patterns::from_vec(Vec::new(page.alloc()));
    page.put_yes(none.matches(b""));
    page.put(b" ");
    none.tell(page);
}

/// Puts whether each pattern matches a text. The text is before ` in `, and the patterns after it.
fn put_matches(page: &mut Page, given: &[u8]) {
    let (text, list) = cut(given, b" in ");
    put_next(page, read_patterns(page.alloc(), list), &Matched(text));
}

impl WordReader {
    fn put_with(&self, page: &mut Page, vars: &Vars, text: &[u8]) {
        let alloc = page.alloc();
        match self {
            WordReader::Word => put_next(page, read_word(alloc, text), vars),
            WordReader::Front => put_next(page, read_word_front(alloc, text), vars),
            WordReader::Here => put_next(page, read_here(alloc, text), vars),
            WordReader::Parts => {
                put_made(page, read_word(alloc, text));
                page.put(b" here ");
                put_made(page, read_here(alloc, text));
            }
            WordReader::Empty => put_empty(page, vars),
            WordReader::Test => put_made(page, read_test(alloc, text)),
            WordReader::Elements => put_next(page, read_test(alloc, text), vars),
            WordReader::Matches => put_matches(page, text),
            WordReader::List => put_list(page, text),
            WordReader::NoList => put_no_list(page),
        }
    }
}

impl RowCall for WordReader {
    fn put(&self, page: &mut Page, text: &[u8]) {
        let vars = variables(page);
        self.put_with(page, &vars, text);
    }
}
