//! The parts of sources.

use ac_calls::calls_of;
use ac_parts::{Kind, Part};
use parts_reader::read_parts;
use std::test::Fail;
use test_rows::{Page, RowCall, try_rows};

/// Returns the name of a kind that has others within it.
fn name_of(kind: Kind) -> &'static [u8] {
    match kind {
        Kind::List => b"List",
        Kind::Condition => b"Condition",
        Kind::Statement => b"Statement",
        Kind::If => b"If",
        Kind::Command => b"Command",
        Kind::Assignment => b"Assignment",
        Kind::Word => b"Word",
        Kind::Default => b"Default",
        Kind::Call => b"Call",
        Kind::Argument => b"Argument",
        Kind::Words => b"Words",
        Kind::Other => b"Other",
        _ => b"",
    }
}

/// Puts the parts, with a parenthesis where a part ends.
fn put_parts(page: &mut Page, text: &[u8], parts: &[Part]) {
    for i in 0..parts.len() {
        let part = parts[i];
        if part.kind.is_leaf() {
            page.put_text(text.get(part.start..part.end).unwrap_or(b"not in the text"));
        } else {
            page.put(name_of(part.kind));
            page.put(b"(");
        }
        for j in 0..i.saturating_add(1) {
            let is_leaf = parts[j].kind.is_leaf();
            if !is_leaf && j.saturating_add(parts[j].within) == i {
                page.put(b")");
            }
        }
    }
}

struct Parts;

impl RowCall for Parts {
    fn put(&self, page: &mut Page, given: &[u8]) {
        let made = calls_of(page.alloc(), given);
        let Some(calls) = page.given(made) else {
            return;
        };
        let made = read_parts(page.alloc(), given, &calls);
        if let Some(Some(parts)) = page.given(made) {
            page.put(b" ");
            put_parts(page, given, &parts);
        }
    }
}

const ROWS: &[u8] = br##"
x=1 =>  List(Statement(Command(Assignment([x][=]Word([1])))))
a b =>  List(Statement(Command(Word([a])[ ]Word([b]))))
a='b c'"d" && e || f =>  List(Statement(Command(Assignment([a][=]Word(['b c']["d"])))[ ][&&][ ]Command(Word([e]))[ ][||][ ]Command(Word([f]))))
x=${y:-z} =>  List(Statement(Command(Assignment([x][=]Word(Default([${][y][:-][z][}]))))))
a >b 2>&1 # c^Jdnl d^J =>  List(Statement(Command(Word([a])[ ][>]Word([b])[ ]Word([2])[>&]Word([1])))[ ][# c][^J][dnl d^J])
// if
if a; then b; fi =>  List(Statement(If([if]Condition([ ]Statement(Command(Word([a])))[;][ ])[then]List([ ]Statement(Command(Word([b])))[;][ ])[fi])))
if a^Jthen b^Jelif c^Jthen^Jelse d^Jfi =>  List(Statement(If([if]Condition([ ]Statement(Command(Word([a])))[^J])[then]List([ ]Statement(Command(Word([b])))[^J])[elif]Condition([ ]Statement(Command(Word([c])))[^J])[then]List([^J])[else]List([ ]Statement(Command(Word([d])))[^J])[fi])))
// calls
AC_A([b], c d) =>  List(Statement(Command(Call([AC_A][(]Argument([[]Words([b])[]])[,][ ]Argument(Words([c][ ][d]))[)]))))
AS_IF([x], [AC_A]) =>  List(Statement(Command(Call([AS_IF][(]Argument([[]Words([x])[]])[,][ ]Argument([[]List(Statement(Command(Call([AC_A]))))[]])[)]))))
x AC_A y =>  List(Statement(Command(Word([x])[ ]Call([AC_A])[ ]Word([y]))))
# AC_A =>  List([# AC_A])
// what isn't understood
for i in a; do AC_A; done =>  List(Other([for i in a; do ]Call([AC_A])[; done]))
a; b 'c =>  List(Statement(Command(Word([a])))[;][ ]Other([b 'c]))
AS_IF([x], [if AC_A; AC_B])^Ja =>  List(Statement(Command(Call([AS_IF][(]Argument([[]Words([x])[]])[,][ ]Argument([[]List(Other([if ]Call([AC_A])[; ]Call([AC_B])))[]])[)])))[^J]Statement(Command(Word([a]))))
"##;

#[test]
fn reads(rt: HostRuntime) -> Result<(), Fail> {
    try_rows(rt.alloc(), &Parts, ROWS)
}
