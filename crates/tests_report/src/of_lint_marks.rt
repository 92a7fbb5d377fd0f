//! What m4 and a shell have open at each place.

use lint_marks::{Mark, MarkKind, marks_of};
use std::test::Fail;
use test_rows::{Page, RowCall, try_rows};

/// Returns the sign of what a place is in.
fn sign_of(kind: MarkKind) -> &'static [u8] {
    match kind {
        MarkKind::Dropped => b"x",
        MarkKind::Here => b"h",
        MarkKind::Comment => b"c",
        MarkKind::Escaped => b"e",
        MarkKind::Start => b".",
        MarkKind::Word => b"w",
        MarkKind::Single => b"s",
        MarkKind::Double => b"d",
        MarkKind::Substitution => b"n",
    }
}

/// Puts the sign of each mark, and then how deep each is.
fn put_marks(page: &mut Page, marks: &[Mark]) {
    for mark in marks {
        page.put(sign_of(mark.kind));
    }
    page.put(b" ");
    for mark in marks {
        page.put_number(usize::from(mark.depth));
    }
}

struct Marks;

impl RowCall for Marks {
    fn put(&self, page: &mut Page, given: &[u8]) {
        let made = marks_of(page.alloc(), given);
        if let Some(marks) = page.given(made) {
            put_marks(page, &marks);
        }
    }
}

const ROWS: &[u8] = br##"
a 'b' "c" => .w.ssw.dd 000000000
// what m4 quotes, and its comments
[a#b]#c^Jd => ..wwwwcc. 011110000
[[#]] => ..www 01221
[ # 'x]y => ...ccccc 01111110
"# ["[ => .dcccc 000000
// what it drops
dnl 'x^Jy => .xxxxxx. 00000000
x dnl^Jy => .w.xxx. 0000000
xdnl [dnl] => .wwww..www 0000001111
// backslashes
\ "\"" => .ewded 000000
a \^J#b => .w.e.c 000000
'\'a => .ssw 0000
// here-documents
cat <<EOF^Jit's^JEOF^J'a => .www...wwwhhhhhhhhh.s 000000000000000000000
<<a <<-'b'^J1^Ja^J2^J^Ib^Jx => ...w...wsswhhhhhhhhh. 000000000000000000000
'<<a'^Jb => .ssssw. 0000000
cat <<'E F'^J'^JE F^J'a => .www...sssswhhhhhh.s 00000000000000000000
// substitutions, which nest
"$(a "b")"c => .ddnnnddndw 00000000000
x=`it 's'`# => .wwnnnnssnw 00000000000
"${a-'}'}" => .ddnnnssnd 0000000000
$((1<<2))^J'a => .wnnnnnnnw.s 000000000000
\$(a => .ew. 0000
$(#'^J)# => .wnccnw 0000000
"##;

#[test]
fn marks_of_texts(rt: HostRuntime) -> Result<(), Fail> {
    try_rows(rt.alloc(), &Marks, ROWS)
}
