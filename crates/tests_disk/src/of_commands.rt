//! `configure`, and then `status`, over a disk in memory.

ghost use Rattle.std.specs.Prelude.{◌≡◌, [], IfSome};
ghost use Rattle.proberun.specs.Ran.{MayRun};

use crate::done::Placed;
use crate::memory::{MemoryDisk, copied};
use crate::noting::Noting;
use cmd_call::{Heard, Terminal};
use cmd_configure::run_configure;
use cmd_status::{exit_status, run_status};
use crew::{MemoryCrew, Order};
use crew_refusals::Causes;
use crew_resume::Resumes;
use deftable::Bytes;
use file_disk::Disk;
use file_texts::FileOutputs;
use std::alloc::Global;
use std::process::Abort;
use std::test::Fail;
use test_crews::replies::replies_in;
use test_rows::{Page, RowCall, cut, try_rows};
use text_cut::fields;

/// The files of a package, with bars between them: the name of each, a blank, and its text.
const PACKAGE: &[u8] = b"\
configure.ac AC_INIT([a],[1])
AC_CONFIG_FILES([src/Makefile])
AC_CONFIG_HEADERS([config.h])
AC_CHECK_HEADERS([a.h])
AC_OUTPUT
|src/Makefile.in NAME = @PACKAGE_NAME@
|config.h.in #undef HAVE_A_H
";

/// The names of all files that a run reads or writes.
const NAMES: &[u8] =
    b"configure.ac src/Makefile.in config.h.in config.cache config.status config.log src/Makefile config.h";

/// The names of the outputs.
const OUTPUTS: &[u8] = b"src/Makefile config.h";

/// Appends a file.
fn add_file<R: Abort>(rt: &R, page: &mut Page, files: &mut Vec<Placed>, name: &[u8], text: &[u8]) {
    let placed = Placed {
        name: copied(rt, page.alloc(), name),
        mode: 0o100644,
        text: copied(rt, page.alloc(), text),
    };
    if files.push(placed).is_err() {
        page.cut();
    }
}

/// Returns the files of a package.
fn package_of<R: Abort>(rt: &R, page: &mut Page, package: &[u8]) -> Vec<Placed> {
    let mut files = Vec::new(page.alloc());
    for file in package.split(|byte| *byte == b'|') {
        let (name, text) = cut(file, b" ");
        add_file(rt, page, &mut files, name, text);
    }
    files
}

/// Returns the files of these names that are on a disk.
fn files_on<R: Abort>(
    rt: &R,
    page: &mut Page,
    disk: &MemoryDisk<'_, R>,
    names: &[u8],
) -> Vec<Placed> {
    let mut files = Vec::new(page.alloc());
    for name in names.split(|byte| *byte == b' ') {
        if let Some(text) = disk.text(name) {
            add_file(rt, page, &mut files, name, text);
        }
    }
    files
}

/// Puts the exit status of a command, and what it printed.
fn put_told(page: &mut Page, status: u8, output: &[u8], errors: &[u8]) {
    page.put_shown(&status);
    page.put_text(output);
    if !errors.is_empty() {
        page.put_text(errors);
    }
}

/// Configures with both streams in vectors. Returns the exit status and the outputs.
fn configured_with<D: Disk, C: Resumes + Causes>(
    alloc: Global,
    disk: D,
    words: &[Bytes],
    env: &[(Bytes, Bytes)],
    crew: &mut C,
    output: &mut Vec<u8>,
    errors: &mut Vec<u8>,
) -> (u8, FileOutputs<D>)
    requires unchanged { IfSome (D.known disk) (λ k. k.deeds ≡ []) }
    requires may_run { MayRun (C.account crew.old) }
{
    let mut terminal = Terminal {
        alloc,
        is_asked: false,
        env,
        outputs: FileOutputs::new(alloc, disk),
        input: b"".as_slice(),
        output: Heard::new(output),
        errors: Heard::new(errors),
    };
    let status = exit_status(&run_configure(&mut terminal, 1, words, crew));
    (status, terminal.outputs)
}

/// Runs `configure` over a disk and a crew, and returns the outputs.
fn configure_over<D: Disk, C: Resumes + Causes>(
    page: &mut Page,
    disk: D,
    words: &[Bytes],
    env: &[(Bytes, Bytes)],
    crew: &mut C,
) -> FileOutputs<D>
    requires unchanged { IfSome (D.known disk) (λ k. k.deeds ≡ []) }
    requires may_run { MayRun (C.account crew.old) }
{
    let alloc = page.alloc();
    let mut output = Vec::new(alloc);
    let mut errors = Vec::new(alloc);
    let (status, outputs) = configured_with(
        alloc,
        disk,
        words,
        env,
        crew,
        &mut output,
        &mut errors,
    );
    put_told(page, status, output.as_slice(), errors.as_slice());
    outputs
}

/// Runs `status` with both streams in vectors. Returns the exit status and the outputs.
fn made_with<D: Disk>(
    alloc: Global,
    disk: D,
    tags: &[Bytes],
    output: &mut Vec<u8>,
    errors: &mut Vec<u8>,
) -> (u8, FileOutputs<D>)
    requires { IfSome (D.known disk) (λ k. k.deeds ≡ []) }
{
    let mut terminal = Terminal {
        alloc,
        is_asked: false,
        env: &[],
        outputs: FileOutputs::new(alloc, disk),
        input: b"".as_slice(),
        output: Heard::new(output),
        errors: Heard::new(errors),
    };
    let status = run_status(&mut terminal, tags);
    (status, terminal.outputs)
}

/// Runs `status` over a disk, and returns the outputs.
fn status_over<D: Disk>(page: &mut Page, disk: D, tags: &[Bytes]) -> FileOutputs<D>
    requires { IfSome (D.known disk) (λ k. k.deeds ≡ []) }
{
    let alloc = page.alloc();
    let mut output = Vec::new(alloc);
    let mut errors = Vec::new(alloc);
    let (status, outputs) = made_with(alloc, disk, tags, &mut output, &mut errors);
    put_told(page, status, output.as_slice(), errors.as_slice());
    outputs
}

/// Returns words with blanks between them.
fn words_of(page: &mut Page, text: &[u8]) -> Vec<Bytes> {
    let alloc = page.alloc();
    let mut words = Vec::new(alloc);
    if let Some(parts) = page.given(fields(alloc, text)) {
        for part in parts.as_slice() {
            if let Some(word) = page.given(Bytes::from_slice(alloc, part)) {
                if words.push(word).is_err() {
                    page.cut();
                }
            }
        }
    }
    words
}

/// Runs `configure` on a disk with these files, with replies to its children, and returns the files
/// that are on it then.
fn configured<R: Abort>(
    rt: &R,
    page: &mut Page,
    files: &[Placed],
    words: &[u8],
    replies: &[u8],
) -> Vec<Placed> {
    let words = words_of(page, words);
    let replies = replies_in(page, replies);
    let disk = MemoryDisk::new(rt, page.alloc(), files, false);
    match &mut MemoryCrew::new(page.alloc(), replies, Order::Oldest) {
        Ok(crew) => {
            let outputs = configure_over(page, disk, words.as_slice(), &[], crew);
            files_on(rt, page, outputs.disk(), NAMES)
        }
        Err(_) => {
            page.cut();
            Vec::new(page.alloc())
        }
    }
}

/// Runs `status` on a disk with these files, and returns the files that are on it then.
fn made_again<R: Abort>(rt: &R, page: &mut Page, files: &[Placed], tags: &[u8]) -> Vec<Placed> {
    let tags = words_of(page, tags);
    let disk = MemoryDisk::new(rt, page.alloc(), files, false);
    let outputs = status_over(page, disk, tags.as_slice());
    files_on(rt, page, outputs.disk(), NAMES)
}

/// Puts the texts of the outputs that are among these files.
fn put_outputs(page: &mut Page, files: &[Placed]) {
    for file in files {
        if OUTPUTS
            .split(|byte| *byte == b' ')
            .any(|name| file.name.as_slice() == name)
        {
            page.put_text(file.text.as_slice());
        }
    }
}

/// Returns whether both have the same name and the same text.
fn is_same(old: &Placed, new: &Placed) -> bool {
    old.name.as_slice() == new.name.as_slice() && old.text.as_slice() == new.text.as_slice()
}

/// Returns whether both have the same names and texts.
fn are_same(old: &[Placed], new: &[Placed]) -> bool {
    old.len() == new.len() && old.iter().zip(new).all(|(a, b)| is_same(a, b))
}

/// A row has three parts, with bars between them: the arguments of `configure`, the replies to its
/// children, and the words of `status`. It puts what `configure` prints, the outputs that it left,
/// what `status` prints, and whether each file is then as it was before `status`.
#[derive(Drop)]
struct Commands<'a, R: Abort> {
    rt: &'a R,
}

impl<R: Abort> RowCall for Commands<'_, R> {
    fn put(&self, page: &mut Page, given: &[u8]) {
        let (words, rest) = cut(given, b"|");
        let (replies, tags) = cut(rest, b"|");
        let files = package_of(self.rt, page, PACKAGE);
        let left = configured(self.rt, page, files.as_slice(), words, replies);
        put_outputs(page, left.as_slice());
        let again = made_again(self.rt, page, left.as_slice(), tags);
        page.put_yes(are_same(left.as_slice(), again.as_slice()));
    }
}

const COMMANDS: &[u8] = b"\
// What `status` makes is what `configure` made, whatever the answer was, and all other files stay.
CC=cc|0| => 0[checking for a.h... yes^Jconfig.status: creating src/Makefile^Jconfig.status: creating config.h^J][NAME = a^J][/* config.h.  Generated from config.h.in by configure.  */^J#define HAVE_A_H 1^J]0[config.status: creating src/Makefile^Jconfig.status: config.h is unchanged^J]yes
CC=cc|1| => 0[checking for a.h... no^Jconfig.status: creating src/Makefile^Jconfig.status: creating config.h^J][NAME = a^J][/* config.h.  Generated from config.h.in by configure.  */^J/* #undef HAVE_A_H */^J]0[config.status: creating src/Makefile^Jconfig.status: config.h is unchanged^J]yes
-C CC=cc|0|config.h => 0[checking for a.h... yes^Jconfig.status: creating src/Makefile^Jconfig.status: creating config.h^J][NAME = a^J][/* config.h.  Generated from config.h.in by configure.  */^J#define HAVE_A_H 1^J]0[config.status: config.h is unchanged^J]yes
CC=cc|0|src/Makefile => 0[checking for a.h... yes^Jconfig.status: creating src/Makefile^Jconfig.status: creating config.h^J][NAME = a^J][/* config.h.  Generated from config.h.in by configure.  */^J#define HAVE_A_H 1^J]0[config.status: creating src/Makefile^J]yes
// A run that is cut short leaves no record.
CC=cc|S| => 3[checking for a.h... refused^J][configure: cut short at child 1^J]2[][acrun: file config.status^J]yes
";

#[test]
fn outputs_that_are_made_again(rt: HostRuntime) -> Result<(), Fail> {
    try_rows(rt.alloc(), &Commands { rt: &rt }, COMMANDS)
}

/// Returns an environment with one variable, whose name and value have `=` between them.
fn env_of(page: &mut Page, text: &[u8]) -> Vec<(Bytes, Bytes)> {
    let alloc = page.alloc();
    let mut env = Vec::new(alloc);
    let (name, value) = cut(text, b"=");
    if let (Ok(name), Ok(value)) = (
        Bytes::from_slice(alloc, name),
        Bytes::from_slice(alloc, value),
    )
        && env.push((name, value)).is_ok()
    {
        return env;
    }
    page.cut();
    env
}

/// A row has three parts, with bars between them: a variable of the environment, the arguments of
/// `configure`, and the text of the cache. It puts what the crew is told of the run, and which
/// children it starts then.
#[derive(Drop)]
struct Told<'a, R: Abort> {
    rt: &'a R,
}

/// The package of these rows.
const SMALL: &[u8] = b"\
configure.ac AC_INIT([a],[1])
AC_CHECK_HEADERS([a.h])
AC_OUTPUT
";

impl<R: Abort> RowCall for Told<'_, R> {
    fn put(&self, page: &mut Page, given: &[u8]) {
        let (env, rest) = cut(given, b"|");
        let (words, cache) = cut(rest, b"|");
        let env = env_of(page, env);
        let words = words_of(page, words);
        let replies = replies_in(page, b"0");
        let mut files = package_of(self.rt, page, SMALL);
        if !cache.is_empty() {
            add_file(self.rt, page, &mut files, b"config.cache", cache);
        }
        let disk = MemoryDisk::new(self.rt, page.alloc(), files.as_slice(), false);
        match MemoryCrew::new(page.alloc(), replies, Order::Oldest) {
            Ok(inner) => {
                let mut crew = Noting::new(page.alloc(), inner);
                let mut printed = Page::new(page.alloc());
                configure_over(
                    &mut printed,
                    disk,
                    words.as_slice(),
                    env.as_slice(),
                    &mut crew,
                );
                page.put(crew.noted());
            }
            Err(_) => page.cut(),
        }
    }
}

const TOLD: &[u8] = b"\
// With a cache the crew is told what the run is given, once, before the first child.
A=b|-C CC=cc| => [AC_INIT([a],[1])^JAC_CHECK_HEADERS([a.h])^JAC_OUTPUT^J]-C CC=cc A=b no cache [start]
A=b|-C CC=cc -n| => [AC_INIT([a],[1])^JAC_CHECK_HEADERS([a.h])^JAC_OUTPUT^J]-C CC=cc -n A=b no cache [start]
A=b|-C CC=cc|v_cv_a=${v_cv_a=1} => [AC_INIT([a],[1])^JAC_CHECK_HEADERS([a.h])^JAC_OUTPUT^J]-C CC=cc A=b [v_cv_a=${v_cv_a=1}][start]
// Without a cache it is told nothing, and neither if the run has a fault.
A=b|CC=cc|v_cv_a=${v_cv_a=1} => [start]
A=b|-C CC=cc --unknown| =>
";

#[test]
fn crew_is_told_what_a_run_is_given(rt: HostRuntime) -> Result<(), Fail> {
    try_rows(rt.alloc(), &Told { rt: &rt }, TOLD)
}
