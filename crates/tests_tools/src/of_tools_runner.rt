//! The commands of the tools, over files in a directory.

use cmd_call::{Heard, Terminal};
use deftable::Bytes;
use file_disk::Host;
use file_texts::FileOutputs;
use std::fs;
use std::io::{Read, Write};
use std::test::Fail;
use test_crews::texts::words_of;
use test_rows::{Page, RowCall, cut, try_rows_in};
use tools_runner::run;

/// The words with commas between them, the input, and the text of `configure.ac`, with semicolons
/// between them: the exit status, standard output and standard error, with `~` in place of `^`. An
/// empty text is no file.
const COMMANDS: &[u8] = b"
// each command by its name
lint;;AC_INIT([x],[1])^JAC_OUTPUT^J => 0[][]
lint,--json;;AC_INIT([x],[1])^JAC_NOPE^JAC_OUTPUT^J => 1[{\"file\":\"configure.ac\",\"line\":2,\"column\":1,\"end_line\":2,\"end_column\":8,\"severity\":\"error\",\"code\":\"parse-2\",\"message\":\"acrun does not know the macro AC_NOPE\",\"help\":\"if m4/ or aclocal.m4 defines it, write here what it does\"}^J][]
lint,-;AC_INIT([x],[1])^JAC_OUTPUT^J; => 0[][]
lint; => 2[][acrun: file configure.ac^J]
lint,--bad;;AC_INIT([x],[1])^JAC_OUTPUT^J => 2[][acrun: usage^J]
port;;AC_INIT([x],[1])^JAC_OUTPUT^J => 0[AC_INIT([x],[1])^JAC_OUTPUT^J][]
port,-;AC_INIT([x],[1])^JAC_NOPE^JAC_OUTPUT^J; => 1[AC_INIT([x],[1])^Jdnl acrun: acrun does not know the macro AC_NOPE; if m4/ or aclocal.m4 defines it, write here what it does^JAC_NOPE^JAC_OUTPUT^J][]
port; => 2[][acrun: file configure.ac^J]
port,a,b; => 2[][acrun: usage^J]
header;;AC_INIT([x],[1])^JAC_PROG_CC^JAC_CHECK_HEADERS([stdio.h])^JAC_DEFINE([X],[1],[Define to 1^J  to use X.])^JAC_DEFINE([X])^JAC_OUTPUT^J => 0[/* Generated from configure.ac by acrun header.  */^J^J/* Define to 1 if you have the <stdio.h> header file. */^J#undef HAVE_STDIO_H^J^J/* Define to the address where bug reports for this package should be sent. */^J#undef PACKAGE_BUGREPORT^J^J/* Define to the full name of this package. */^J#undef PACKAGE_NAME^J^J/* Define to the full name and version of this package. */^J#undef PACKAGE_STRING^J^J/* Define to the one symbol short name of this package. */^J#undef PACKAGE_TARNAME^J^J/* Define to the home page for this package. */^J#undef PACKAGE_URL^J^J/* Define to the version of this package. */^J#undef PACKAGE_VERSION^J^J/* Define to 1 to use X. */^J#undef X^J][]
header,-;AC_INIT([x],[1])^JAC_DEFINE([X])^JAC_OUTPUT^J; => 0[/* Generated from configure.ac by acrun header.  */^J^J/* Define to the address where bug reports for this package should be sent. */^J#undef PACKAGE_BUGREPORT^J^J/* Define to the full name of this package. */^J#undef PACKAGE_NAME^J^J/* Define to the full name and version of this package. */^J#undef PACKAGE_STRING^J^J/* Define to the one symbol short name of this package. */^J#undef PACKAGE_TARNAME^J^J/* Define to the home page for this package. */^J#undef PACKAGE_URL^J^J/* Define to the version of this package. */^J#undef PACKAGE_VERSION^J^J#undef X^J][acrun: undescribed X^J]
header,configure.ac;;AC_INIT([x],[1])^JAC_NOPE^JAC_OUTPUT^J => 2[][configure.ac:2:1: error: acrun does not know the macro AC_NOPE^J    2 | AC_NOPE^J      | ~~~~~~~^J   = help: if m4/ or aclocal.m4 defines it, write here what it does^J]
header; => 2[][acrun: file configure.ac^J]
header,--json;;AC_INIT([x],[1])^JAC_OUTPUT^J => 2[][acrun: usage^J]
header,a,b; => 2[][acrun: usage^J]
why; => 2[][acrun: usage^J]
why,a; => 2[][acrun: file config.log^J]
why,a,b,c; => 2[][acrun: usage^J]
--version; => 0[acrun 0.1.0^J][]
help,help; => 0[Usage: acrun help [COMMAND]^J^JPrints the commands, or how COMMAND is called.^J][]
help,a; => 2[][acrun: usage^J]
help,a,b; => 2[][acrun: usage^J]
// the commands of the other program, and none
configure; => 2[][acrun: usage^J]
-j2,configure; => 2[][acrun: usage^J]
status; => 2[][acrun: usage^J]
status,--recheck; => 2[][acrun: usage^J]
standin,-c,a.c; => 2[][acrun: usage^J]
;AC_INIT([x],[1])^JAC_OUTPUT^J%%^J; => 2[][acrun: usage^J]
nothing; => 2[][acrun: usage^J]
--acrun=0.1.0,lint; => 2[][acrun: usage^J]
";

/// The words with commas between them: the exit status, standard output and standard error, over a
/// log of more than a mebibyte.
const LONG: &[u8] = b"
why,a.h => 0[checking for a.h... yes^Jchild 2:^J$ cc -c conftest2.c^Jstatus 0^J][]
";

#[derive(Drop)]
struct Commands<'a>(&'a HostRuntime);

/// Returns the exit status of the commands on these streams. It promises nothing, so that its callers
/// don't see the long contract of the commands.
fn status_over<R: Read, W: Write, E: Write>(
    rt: &HostRuntime,
    words: &[Bytes],
    input: &mut R,
    output: &mut W,
    errors: &mut E,
) -> u8 {
    let mut terminal = Terminal {
        alloc: rt.alloc(),
        is_asked: false,
        env: &[],
        outputs: FileOutputs::new(rt.alloc(), Host::new(rt)),
        input,
        output: Heard::new(output),
        errors: Heard::new(errors),
    };
    run(&mut terminal, words, false)
}

/// Puts a text with `~` in place of `^`, which no row has.
fn put_shown(page: &mut Page, text: &[u8]) {
    let mut shown = Page::new(page.alloc());
    for byte in text {
        shown.put_byte(if *byte == b'^' { b'~' } else { *byte });
    }
    page.put_text(shown.text());
}

/// Puts what the commands do with these words and this input.
fn put_run(page: &mut Page, rt: &HostRuntime, words: &[u8], input: &[u8]) {
    let words = words_of(page, words);
    let mut output = Vec::new(page.alloc());
    let mut errors = Vec::new(page.alloc());
    let mut input = input;
    let status = status_over(rt, words.as_slice(), &mut input, &mut output, &mut errors);
    page.put_number(usize::from(status));
    page.put_text(output.as_slice());
    put_shown(page, errors.as_slice());
}

/// Writes a file, or removes it if it has no text.
fn put_file(page: &mut Page, rt: &HostRuntime, name: &str, text: &[u8]) {
    if text.is_empty() {
        let _ = fs::remove_file(rt, name);
    } else if fs::write(rt, name, text).is_err() {
        page.put(b"no file");
    }
}

impl RowCall for Commands<'_> {
    fn put(&self, page: &mut Page, given: &[u8]) {
        let (words, rest) = cut(given, b";");
        let (input, source) = cut(rest, b";");
        put_file(page, self.0, "configure.ac", source);
        put_run(page, self.0, words, input);
    }
}

#[derive(Drop)]
struct Long<'a>(&'a HostRuntime);

impl RowCall for Long<'_> {
    fn put(&self, page: &mut Page, given: &[u8]) {
        let mut log = Page::new(page.alloc());
        log.put(b"checking for b.h... \n$ cc -c conftest1.c\n");
        for _ in 0..524_290 {
            log.put(b"x\n");
        }
        log.put(b"status 1\nno\nchecking for a.h... \n$ cc -c conftest2.c\nstatus 0\nyes\n");
        put_file(page, self.0, "config.log", log.text());
        put_run(page, self.0, given, b"");
    }
}

#[test]
fn commands_by_their_words(rt: HostRuntime) -> Result<(), Fail> {
    try_rows_in(&rt, "commands_by_their_words", &Commands(&rt), COMMANDS)
}

#[test]
fn a_log_of_a_mebibyte_is_read_whole(rt: HostRuntime) -> Result<(), Fail> {
    try_rows_in(&rt, "a_log_of_a_mebibyte_is_read_whole", &Long(&rt), LONG)
}
