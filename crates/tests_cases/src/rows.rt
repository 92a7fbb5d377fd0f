//! Rows of calls: the filter and the commands over streams that fail, the stand-in for a compiler,
//! and the words and the environment that the program is given.

ghost use Rattle.std.specs.Io.{WritesAtMost};

use crate::calling::status_of_children;
use crate::stand_ins::{put_header, put_refused};
use cmd_standin::{MeetingFiles, standin};
use crew_jobs::Job;
use deftable::Bytes;
use file_disk::Host;
use runner::{ProcessTexts, environment, filter, words};
use std::env::{Env, FillError};
use std::io::Read;
use std::{fs, str};
use test_crews::children::{Work, job_of, put_real_children};
use test_crews::streams::{Sheet, pipe_of};
use test_crews::texts::{long_bytes_of, parts_of, put_cut};
use test_rows::{Page, RowCall, cut};

// ---- the filter and the stand-in, by themselves

/// Puts what the filter answers, its status or its fault, and what is written after `>`.
fn put_filtered<R: Read>(page: &mut Page, input: &mut R, fails: &[u8]) {
    let mut kept = Page::new(page.alloc());
    kept.put(b">");
    let mut output = Sheet {
        kept,
        fails: !fails.is_empty(),
    };
    match &filter(page.alloc(), input, &mut output) {
        Ok(answer) => {
            page.put_shown(&answer.status);
            page.put(answer.errors.as_slice());
        }
        Err(fault) => page.put_shown(fault),
    }
    page.put(output.kept.text());
}

/// Puts the status of the stand-in, and how many bytes it says.
fn put_standin(page: &mut Page, rt: &HostRuntime, words: &[Bytes]) {
    let mut errors = Sheet {
        kept: Page::new(page.alloc()),
        fails: false,
    };
    match standin(
        page.alloc(),
        &mut MeetingFiles::new(rt),
        &Host::new(rt),
        words,
        &mut errors,
    ) {
        Ok(status) => page.put_shown(&status),
        Err(_) => page.cut(),
    }
    page.put(b" ");
    page.put_number(errors.kept.text().len());
}

// ---- the words of the program

/// A process with these arguments, its name first. The entries of its environment are the same
/// texts without its name.
#[derive(Drop)]
struct Process<'a> {
    arguments: &'a [Bytes],
}

fn copied_to(buf: &mut [u8], text: &[u8]) -> Result<usize, FillError>
    ensures { WritesAtMost result buf.new }
{
    if text.len() > buf.len() {
        return Err(FillError::TooLong);
    }
    buf[..text.len()].copy_from_slice(text);
    Ok(text.len())
}

fn text_to(buf: &mut [u8], texts: &[Bytes], i: usize) -> Result<usize, FillError>
    ensures { WritesAtMost result buf.new }
{
    match texts.get(i) {
        Some(text) => copied_to(buf, text.as_slice()),
        None => Err(FillError::NotPresent),
    }
}

impl Env for Process<'_> {
    fn arg(&self, i: usize, buf: &mut [u8]) -> Result<usize, FillError> {
        text_to(buf, self.arguments, i)
    }

    fn var(&self, _name: &str, _buf: &mut [u8]) -> Result<usize, FillError> {
        Err(FillError::NotPresent)
    }

    fn var_at(&self, i: usize, buf: &mut [u8]) -> Result<usize, FillError> {
        text_to(buf, self.arguments, i.saturating_add(1))
    }
}

fn put_same(page: &mut Page, words: &[Bytes], arguments: &[Bytes]) {
    page.put_number(words.len());
    for (word, argument) in words.iter().zip(arguments.iter().skip(1)) {
        page.put(b" ");
        page.put_yes(word.as_slice() == argument.as_slice());
    }
}

/// Puts how many words the program finds in these arguments, and whether each is the argument.
fn put_words(page: &mut Page, arguments: &[Bytes]) {
    match &words(page.alloc(), &ProcessTexts::new(&Process { arguments })) {
        Ok(words) => put_same(page, words.as_slice(), arguments),
        Err(_) => page.cut(),
    }
}

/// Puts a name and a value, each in brackets. Of a long text only its length is put.
fn put_entry(page: &mut Page, entry: &(Bytes, Bytes)) {
    page.put(b"[");
    put_cut(page, entry.0.as_slice());
    page.put(b"][");
    put_cut(page, entry.1.as_slice());
    page.put(b"]");
}

/// Puts the names and the values that the program finds in an environment of these entries.
fn put_environment(page: &mut Page, arguments: &[Bytes]) {
    match &environment(page.alloc(), &ProcessTexts::new(&Process { arguments })) {
        Ok(entries) => {
            for entry in entries {
                put_entry(page, entry);
            }
        }
        Err(_) => page.cut(),
    }
}

/// The input if a row has none.
const DEMO: &[u8] =
    b"AC_INIT([demo],[1.0])\nAC_CONFIG_FILES([out])\nAC_OUTPUT\n%%\n@PACKAGE_STRING@ @nope@\n";

fn put_stream(page: &mut Page, word: &[u8], text: &[u8]) {
    if !text.is_empty() {
        page.put(word);
        page.put(text);
    }
}

/// Puts what the program does: `STATUS out OUTPUT err ERRORS`, without a stream on which nothing is
/// written.
fn put_program<R: Read>(
    page: &mut Page,
    rt: &HostRuntime,
    words: &[Bytes],
    input: &mut R,
    fails: &[u8],
) {
    let mut output = Sheet {
        kept: Page::new(page.alloc()),
        fails: fails == b"output".as_slice(),
    };
    let mut errors = Sheet {
        kept: Page::new(page.alloc()),
        fails: fails == b"errors".as_slice(),
    };
    let status = status_of_children(rt, words, &[], input, &mut output, &mut errors);
    page.put_shown(&status);
    put_stream(page, b" out ", output.kept.text());
    put_stream(page, b" err ", errors.kept.text());
}

/// Puts what the filter or the program does with an input.
fn put_answer<R: Read>(
    page: &mut Page,
    rt: &HostRuntime,
    words: &[Bytes],
    input: &mut R,
    fails: &[u8],
    is_filter: bool,
) {
    if is_filter {
        put_filtered(page, input, fails);
    } else {
        put_program(page, rt, words, input, fails);
    }
}

/// Puts what the filter or the program does with the input of a row: a pipe, a text, or [`DEMO`] if
/// it is empty.
fn put_answer_to(
    page: &mut Page,
    rt: &HostRuntime,
    words: &[Bytes],
    input: &[u8],
    fails: &[u8],
    is_filter: bool,
) {
    let mut text = if input.is_empty() { DEMO } else { input };
    match &mut pipe_of(input, b'\n') {
        Some(pipe) => put_answer(page, rt, words, pipe, fails, is_filter),
        None => put_answer(page, rt, words, &mut text, fails, is_filter),
    }
}

/// Puts what a command does with these words, which begin with its name.
fn put_command(
    page: &mut Page,
    rt: &HostRuntime,
    command: &[u8],
    job: &Job,
    input: &[u8],
    fails: &[u8],
) {
    let words = job.words.as_slice();
    match command {
        b"sh" => put_real_children(page, rt, &Work { count: 1, job }),
        b"words" => put_words(page, words),
        b"environment" => put_environment(page, words),
        b"compiler" => put_standin(page, rt, words),
        b"header" => put_header(page, rt, words),
        b"refused" => put_refused(page, rt, words),
        _ => put_answer_to(
            page,
            rt,
            words,
            input,
            fails,
            command == b"filter".as_slice(),
        ),
    }
}

/// Writes a file.
fn write_file(page: &mut Page, rt: &HostRuntime, name: &[u8], text: &[u8]) {
    let text = long_bytes_of(page, text);
    if fs::write(rt, str::from_utf8(name).unwrap_or(""), text.as_slice()).is_err() {
        page.put(b"not written, ");
    }
}

/// Writes files with `|` between them: a name, a blank and a text.
fn write_files(page: &mut Page, rt: &HostRuntime, files: &[u8]) {
    for file in &parts_of(page, files, b'|') {
        let (name, text) = cut(file, b" ");
        write_file(page, rt, name, text);
    }
}

/// The calls of a section.
///
/// A row has the words, with commas between them, the input, which stream fails, and the files that
/// are written first: a name, a blank and a text. What is left out at the end is empty. The words
/// are those of the program, or the first names another call: `filter` the filter by itself,
/// `compiler` the stand-in, `words` and `environment` the readers of what the program is given,
/// `sh` a child of a crew, `header` the child that tests the header, with this program as the
/// compiler, and `refused` a run with that child of which a start or an end is refused.
#[derive(Drop)]
pub struct Calls<'a> {
    pub rt: &'a HostRuntime,
}

impl RowCall for Calls<'_> {
    fn put(&self, page: &mut Page, given: &[u8]) {
        let (words, rest) = cut(given, b"|");
        let (input, rest) = cut(rest, b"|");
        let (fails, files) = cut(rest, b"|");
        write_files(page, self.rt, files);
        let job = job_of(page, words, b"");
        put_command(page, self.rt, cut(words, b",").0, &job, input, fails);
    }
}
