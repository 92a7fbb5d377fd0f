//! Crews in memory that show how far they are.

ghost use Rattle.std.specs.Prelude.{◌≡◌, []};

use conftest::Job;
use conftest_source::{
    default_includes, function_source, header_source, program_source, put_ended,
};
use crew::{Crew, MemoryCrew};
use crew_progress::{Heard, Showing, Watched};
use deftable::Bytes;
use std::alloc::{AllocError, Global};
use std::test::Fail;
use test_crews::children::{Work, job_of, put_work};
use test_crews::replies::{order_in, replies_in};
use test_crews::streams::Sheet;
use test_forms::{Snippet, TestForm, declaration_form, type_form};
use test_rows::{Page, RowCall, cut, number_of, try_rows};

/// Returns what is shown: a row says `lines`, `off`, or else the line of a terminal.
fn showing_of(shown: &[u8]) -> Showing {
    match shown {
        b"lines" => Showing::Lines,
        b"off" => Showing::Nothing,
        _ => Showing::Line,
    }
}

/// Puts the work of a crew that has done nothing, and what it shows on a sheet.
fn put_watched<C: Crew + Drop>(
    page: &mut Page,
    crew: C,
    sheet: Sheet,
    showing: Showing,
    work: &Work,
)
    requires fresh { C.account crew ≡ record { events = []; attempts = 0; failures = 0 } }
{
    let mut watched = Watched::new(crew, Heard::new(sheet), showing);
    put_work(page, &mut watched, work);
    page.put(b";");
    page.put(watched.stream().stream().kept.text());
}

/// Puts the work of a crew in memory with these replies in this order, and what it shows on a
/// sheet. If `shown` begins with `fails `, each write fails.
fn put_in_sight(page: &mut Page, shown: &[u8], replies: &[u8], order: &[u8], work: &Work) {
    let (first, second) = cut(shown, b" ");
    let sheet = Sheet {
        kept: Page::new(page.alloc()),
        fails: first == b"fails".as_slice(),
    };
    let showing = showing_of(if second.is_empty() { first } else { second });
    let replies = replies_in(page, replies);
    let order = order_in(page, order);
    match MemoryCrew::new(page.alloc(), replies, order) {
        Ok(crew) => put_watched(page, crew, sheet, showing, work),
        Err(_) => page.cut(),
    }
}

/// Returns the source of a try of this form that has a body, or no text if it has none.
fn tried(
    alloc: Global,
    form: TestForm,
    place: usize,
    includes: &[u8],
) -> Result<Bytes, AllocError> {
    let Some(found) = form.try_at(alloc, place)? else {
        return Ok(Bytes::new(alloc));
    };
    match &found.snippet {
        Snippet::Body { text } => program_source(alloc, includes, text.as_slice()),
        _ => Ok(Bytes::new(alloc)),
    }
}

/// Returns the source of a test: its kind, a blank, and what is tested. `program` has the body of
/// `main`.
fn source_of(page: &Page, test: &[u8]) -> Result<Bytes, AllocError> {
    let alloc = page.alloc();
    let (kind, name) = cut(test, b" ");
    match kind {
        b"header" => header_source(alloc, default_includes(), name),
        b"function" => function_source(alloc, name),
        b"declaration" => tried(alloc, declaration_form(alloc, name, false)?, 0, b""),
        b"type" => tried(alloc, type_form(alloc, name, false)?, 0, default_includes()),
        b"second" => tried(alloc, type_form(alloc, name, false)?, 1, b""),
        _ => program_source(alloc, b"", name),
    }
}

/// Returns the text of a conftest without definitions.
fn text_of(page: &Page, test: &[u8]) -> Result<Bytes, AllocError> {
    let source = source_of(page, test)?;
    let mut text = Vec::from_slice(page.alloc(), b"/* confdefs.h */\n")?;
    put_ended(&mut text, source.as_slice())?;
    Ok(Bytes::from_vec(text))
}

/// Returns the job of these words, and of a conftest, if there is a test.
fn test_job(page: &mut Page, words: &[u8], test: &[u8]) -> Job {
    let Job { words, file } = job_of(page, words, b"");
    if test.is_empty() {
        return Job { words, file };
    }
    let text = text_of(page, test);
    let file = page
        .given(text)
        .map(|text| (Bytes::new(page.alloc()), text));
    Job { words, file }
}

/// A crew in memory: what is shown of it, how many children it starts, the words of each, its
/// replies, its order, and the test of each.
struct Progress;

impl RowCall for Progress {
    fn put(&self, page: &mut Page, given: &[u8]) {
        let (shown, rest) = cut(given, b"|");
        let (count, rest) = cut(rest, b"|");
        let (words, rest) = cut(rest, b"|");
        let (replies, rest) = cut(rest, b"|");
        let (order, test) = cut(rest, b"|");
        let job = test_job(page, words, test);
        let work = Work {
            count: number_of(count),
            job: &job,
        };
        put_in_sight(page, shown, replies, order, &work);
    }
}

const LINES: &[u8] = b"\
on|1|cc,-c,conftest.c|0:|oldest =>  0:0:;^M^[[K^[[?7l1 started, 0 ended: cc -c conftest.c^[[?7h^M^[[K
on|3|true|0: 1:x 256:|youngest =>  2:256: 1:1:x 0:0:;\
^M^[[K^[[?7l1 started, 0 ended: true^[[?7h^M^[[K^[[?7l2 started, 0 ended: true^[[?7h^M^[[K^[[?7l3 started, 0 ended: true^[[?7h\
^M^[[K^[[?7l3 started, 1 ended: true^[[?7h^M^[[K^[[?7l3 started, 2 ended: true^[[?7h^M^[[K
// a start that is refused, and an end that is
on|3|true|0: S E|oldest =>  1:S 0:0: 2:E;\
^M^[[K^[[?7l1 started, 0 ended: true^[[?7h^M^[[K^[[?7l2 started, 0 ended: true^[[?7h^M^[[K^[[?7l2 started, 1 ended: true^[[?7h^M^[[K
on|1|true|S|oldest =>  0:S;
// Bytes that could drive a terminal, and what is no ASCII, are shown by their numbers. 79 columns
// are, and no number is cut.
on|1|sh,^[[2J,,a^Jb,\x7f \xc3\xa4~|0:|oldest =>  0:0:;^M^[[K^[[?7l1 started, 0 ended: sh \\x1b[2J  a\\x0ab \\x7f \\xc3\\xa4aaaaaaaaaaaaaaaaaaaaaaaaaaa^[[?7h^M^[[K
on|1|0123456789012345678901234567890123456789012345678901234^[b|0:|oldest =>  0:0:;^M^[[K^[[?7l1 started, 0 ended: 0123456789012345678901234567890123456789012345678901234\\x1b^[[?7h^M^[[K
on|1|01234567890123456789012345678901234567890123456789012345^[b|0:|oldest =>  0:0:;^M^[[K^[[?7l1 started, 0 ended: 01234567890123456789012345678901234567890123456789012345^[[?7h^M^[[K
// What is tested has its name, and another program the words of its command.
on|1|cc|0:|oldest|header sys/stat.h =>  0:0:;^M^[[K^[[?7l1 started, 0 ended: header sys/stat.h^[[?7h^M^[[K
on|1|cc|0:|oldest|function getline =>  0:0:;^M^[[K^[[?7l1 started, 0 ended: function getline^[[?7h^M^[[K
on|1|cc|0:|oldest|declaration strlcpy =>  0:0:;^M^[[K^[[?7l1 started, 0 ended: declaration strlcpy^[[?7h^M^[[K
on|1|cc|0:|oldest|type struct stat =>  0:0:;^M^[[K^[[?7l1 started, 0 ended: type struct stat^[[?7h^M^[[K
on|1|cc|0:|oldest|second struct stat =>  0:0:;^M^[[K^[[?7l1 started, 0 ended: type struct stat^[[?7h^M^[[K
on|1|cc|0:|oldest|program return f (); =>  0:0:;^M^[[K^[[?7l1 started, 0 ended: function f^[[?7h^M^[[K
on|1|cc|0:|oldest|program return !alloca (1); =>  0:0:;^M^[[K^[[?7l1 started, 0 ended: cc^[[?7h^M^[[K
on|1|cc|0:|oldest|header ^[[2J =>  0:0:;^M^[[K^[[?7l1 started, 0 ended: header \\x1b[2J^[[?7h^M^[[K
// A command that looks for a program says which, and in which directory.
on|1|sh,-c,test -f \"$1\" && test -x \"$1\",sh,/usr/bin/gcc|0:|oldest =>  0:0:;^M^[[K^[[?7l1 started, 0 ended: looking for gcc in /usr/bin^[[?7h^M^[[K
on|1|sh,-c,test -f \"$1\" && test -x \"$1\",sh,/a/0123456789012345678901234567890123456789/0123456789012|0:|oldest =>  0:0:;^M^[[K^[[?7l1 started, 0 ended: looking for 0123456789012 in /a/012345678901234567890123456^[[?7h^M^[[K
// Nothing is shown, and a write that fails changes nothing.
off|2|true|0: 1:|oldest =>  0:0: 1:1:;
fails line|2|true|0: 1:|oldest =>  0:0: 1:1:;
fails lines|2|true|0: 1:|oldest =>  0:0: 1:1:;
// A line for each child, with its number, what it is for if the conftest shows that, and its words.
// Nothing follows an end.
lines|1|cc,-c,conftest.c|0:|oldest|header sys/stat.h =>  0:0:;acrun: child 1, header sys/stat.h: cc -c conftest.c^J
lines|3|true|0: 1:x 256:|youngest =>  2:256: 1:1:x 0:0:;acrun: child 1: true^Jacrun: child 2: true^Jacrun: child 3: true^J
lines|1|cc|0:|oldest|declaration strlcpy =>  0:0:;acrun: child 1, declaration strlcpy: cc^J
lines|1|cc|0:|oldest|second struct stat =>  0:0:;acrun: child 1, type struct stat: cc^J
lines|1|cc|0:|oldest|program return !alloca (1); =>  0:0:;acrun: child 1: cc^J
// A command that looks for a program says which, and in which directory. No other command does.
lines|1|sh,-c,test -f \"$1\" && test -x \"$1\",sh,/usr/bin/gcc|0:|oldest =>  0:0:;acrun: child 1: looking for gcc in /usr/bin^J
lines|1|sh,-c,test -f \"$1\" && test -x \"$1\",sh,//gcc|0:|oldest =>  0:0:;acrun: child 1: looking for gcc in /^J
lines|1|sh,-c,test -f \"$1\" && test -x \"$1\",sh,/a b/^[[2J|0:|oldest =>  0:0:;acrun: child 1: looking for \\x1b[2J in /a b^J
lines|1|sh,-c,test -f \"$1\" && test -x \"$1\",sh|0:|oldest =>  0:0:;acrun: child 1: sh -c test -f \"$1\" && test -x \"$1\" sh^J
lines|1|sh,-c,test -f \"$1\" && test -x \"$1\",sh,/bin/a,b|0:|oldest =>  0:0:;acrun: child 1: sh -c test -f \"$1\" && test -x \"$1\" sh /bin/a b^J
lines|1|sh,-c,test -f \"$1\" && test -x \"$1\",bash,/bin/a|0:|oldest =>  0:0:;acrun: child 1: sh -c test -f \"$1\" && test -x \"$1\" bash /bin/a^J
lines|1|sh,-c,test -f \"$1\",sh,/bin/a|0:|oldest =>  0:0:;acrun: child 1: sh -c test -f \"$1\" sh /bin/a^J
lines|1|sh,-x,test -f \"$1\" && test -x \"$1\",sh,/bin/a|0:|oldest =>  0:0:;acrun: child 1: sh -x test -f \"$1\" && test -x \"$1\" sh /bin/a^J
lines|1|dash,-c,test -f \"$1\" && test -x \"$1\",sh,/bin/a|0:|oldest =>  0:0:;acrun: child 1: dash -c test -f \"$1\" && test -x \"$1\" sh /bin/a^J
// A start that is refused has a number, and no line.
lines|3|true|S 0: E|oldest =>  0:S 1:0: 2:E;acrun: child 2: true^Jacrun: child 3: true^J
lines|3|true|0: S E|oldest =>  1:S 0:0: 2:E;acrun: child 1: true^Jacrun: child 3: true^J
// What isn't printable ASCII is shown by its number.
lines|1|sh,^[[2J,a^Jb\x7f\xc3\xa4|0:|oldest =>  0:0:;acrun: child 1: sh \\x1b[2J a\\x0ab\\x7f\\xc3\\xa4^J
// 396 bytes are shown, and no number is cut. Three dots mark what isn't all.
lines|1|aaaaaaaaaaaaaaaaaaaaaaaaaaaaaaaaaaaaaaaaaaaaaaaaaaaaaaaaaaaaaaaaaaaaaaaaaaaaaaaaaaaaaaaaaaaaaaaaaaaaaaaaaaaaaaaaaaaaaaaaaaaaaaaaaaaaaaaaaaaaaaaaaaaaaaaaaaaaaaaaaaaaaaaaaaaaaaaaaaaaaaaaaaaaaaaaaaaaaaaaaaaaaaaaaaaaaaaaaaaaaaaaaaaaaaaaaaaaaaaaaaaaaaaaaaaaaaaaaaaaaaaaaaaaaaaaaaaaaaaaaaaaaaaaaaaaaaaaaaaaaaaaaaaaaaaaaaaaaaaaaaaaaaaaaaaaaaaaaaaaaaaaaaaaaaaaaaaaaaaaaaaaaaaaaaaaaaaaaaaa|0:|oldest =>  0:0:;acrun: child 1: aaaaaaaaaaaaaaaaaaaaaaaaaaaaaaaaaaaaaaaaaaaaaaaaaaaaaaaaaaaaaaaaaaaaaaaaaaaaaaaaaaaaaaaaaaaaaaaaaaaaaaaaaaaaaaaaaaaaaaaaaaaaaaaaaaaaaaaaaaaaaaaaaaaaaaaaaaaaaaaaaaaaaaaaaaaaaaaaaaaaaaaaaaaaaaaaaaaaaaaaaaaaaaaaaaaaaaaaaaaaaaaaaaaaaaaaaaaaaaaaaaaaaaaaaaaaaaaaaaaaaaaaaaaaaaaaaaaaaaaaaaaaaaaaaaaaaaaaaaaaaaaaaaaaaaaaaaaaaaaaaaaaaaaaaaaaaaaaaaaaaaaaaaaaaaaaaaaaaaaaaaaaaaaaaaaaaaaaaaaa^J
lines|1|aaaaaaaaaaaaaaaaaaaaaaaaaaaaaaaaaaaaaaaaaaaaaaaaaaaaaaaaaaaaaaaaaaaaaaaaaaaaaaaaaaaaaaaaaaaaaaaaaaaaaaaaaaaaaaaaaaaaaaaaaaaaaaaaaaaaaaaaaaaaaaaaaaaaaaaaaaaaaaaaaaaaaaaaaaaaaaaaaaaaaaaaaaaaaaaaaaaaaaaaaaaaaaaaaaaaaaaaaaaaaaaaaaaaaaaaaaaaaaaaaaaaaaaaaaaaaaaaaaaaaaaaaaaaaaaaaaaaaaaaaaaaaaaaaaaaaaaaaaaaaaaaaaaaaaaaaaaaaaaaaaaaaaaaaaaaaaaaaaaaaaaaaaaaaaaaaaaaaaaaaaaaaaaaaaaaaaaaaaaab|0:|oldest =>  0:0:;acrun: child 1: aaaaaaaaaaaaaaaaaaaaaaaaaaaaaaaaaaaaaaaaaaaaaaaaaaaaaaaaaaaaaaaaaaaaaaaaaaaaaaaaaaaaaaaaaaaaaaaaaaaaaaaaaaaaaaaaaaaaaaaaaaaaaaaaaaaaaaaaaaaaaaaaaaaaaaaaaaaaaaaaaaaaaaaaaaaaaaaaaaaaaaaaaaaaaaaaaaaaaaaaaaaaaaaaaaaaaaaaaaaaaaaaaaaaaaaaaaaaaaaaaaaaaaaaaaaaaaaaaaaaaaaaaaaaaaaaaaaaaaaaaaaaaaaaaaaaaaaaaaaaaaaaaaaaaaaaaaaaaaaaaaaaaaaaaaaaaaaaaaaaaaaaaaaaaaaaaaaaaaaaaaaaaaaaaaaaaaaaaaaa...^J
lines|1|aaaaaaaaaaaaaaaaaaaaaaaaaaaaaaaaaaaaaaaaaaaaaaaaaaaaaaaaaaaaaaaaaaaaaaaaaaaaaaaaaaaaaaaaaaaaaaaaaaaaaaaaaaaaaaaaaaaaaaaaaaaaaaaaaaaaaaaaaaaaaaaaaaaaaaaaaaaaaaaaaaaaaaaaaaaaaaaaaaaaaaaaaaaaaaaaaaaaaaaaaaaaaaaaaaaaaaaaaaaaaaaaaaaaaaaaaaaaaaaaaaaaaaaaaaaaaaaaaaaaaaaaaaaaaaaaaaaaaaaaaaaaaaaaaaaaaaaaaaaaaaaaaaaaaaaaaaaaaaaaaaaaaaaaaaaaaaaaaaaaaaaaaaaaaaaaaaaaaaaaaaaaaaaaaaaaaaaaaa^[,-c|0:|oldest =>  0:0:;acrun: child 1: aaaaaaaaaaaaaaaaaaaaaaaaaaaaaaaaaaaaaaaaaaaaaaaaaaaaaaaaaaaaaaaaaaaaaaaaaaaaaaaaaaaaaaaaaaaaaaaaaaaaaaaaaaaaaaaaaaaaaaaaaaaaaaaaaaaaaaaaaaaaaaaaaaaaaaaaaaaaaaaaaaaaaaaaaaaaaaaaaaaaaaaaaaaaaaaaaaaaaaaaaaaaaaaaaaaaaaaaaaaaaaaaaaaaaaaaaaaaaaaaaaaaaaaaaaaaaaaaaaaaaaaaaaaaaaaaaaaaaaaaaaaaaaaaaaaaaaaaaaaaaaaaaaaaaaaaaaaaaaaaaaaaaaaaaaaaaaaaaaaaaaaaaaaaaaaaaaaaaaaaaaaaaaaaaaaaaaaaaa...^J
";

#[test]
fn progress_of_children(rt: HostRuntime) -> Result<(), Fail> {
    try_rows(rt.alloc(), &Progress, LINES)
}
