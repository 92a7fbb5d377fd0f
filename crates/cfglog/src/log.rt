//! The text of the log.

ghost use Rattle.std.specs.Prelude.{◌≡◌, ◌++◌, IfOk, OnOk, codes, decimal, flat_map};
ghost use Rattle.bstr.specs.Text.{lines_of};
ghost use Rattle.cfglog.specs.Texts as texts;
ghost use Rattle.crew_trait.specs.declared.reply.Reply.TheVariants.{Answer};

use bstr::ByteSlice;
use cachefile::word_text;
use conftest_source::put_ended;
use crew_jobs::Job;
use crew_trait::{Entry, Reply};
use deftable::Bytes;
use std::alloc::{AllocError, Global};

/// Appends a text, with a newline if it isn't empty and doesn't end in one.
#[tactic(auto, unfolding(crate::specs::Texts::closed))]
fn put_closed(text: &mut Vec<u8>, more: &[u8]) -> Result<(), AllocError>
    ensures { OnOk result (text.new.items ≡ text.old.items ++ texts.closed more.now) }
{
    if more.is_empty() {
        return Ok(());
    }
    put_ended(text, more)
}

/// Returns a word of a command, as a shell reads it.
#[tactic(auto, unfolding(crate::specs::Texts::written))]
fn written(alloc: Global, word: &[u8]) -> Result<Bytes, AllocError>
    ensures { IfOk result (λ w. w ≡ texts.written word.now) }
{
    if word.is_empty() {
        return Bytes::from_slice(alloc, b"''");
    }
    word_text(alloc, word)
}

/// Appends a word after a blank.
fn put_word(alloc: Global, text: &mut Vec<u8>, word: &[u8]) -> Result<(), AllocError>
    ensures { OnOk result (
        text.new.items ≡ text.old.items ++ (codes " " ++ texts.written word.now)) }
{
    let word = written(alloc, word)?;
    text.extend_from_slice(b" ")?;
    text.extend_from_slice(word.as_slice())
}

/// Appends words, each after a blank.
fn put_words(alloc: Global, text: &mut Vec<u8>, words: &[Bytes]) -> Result<(), AllocError>
    ensures { OnOk result (
        text.new.items
        ≡ text.old.items ++ flat_map (λ word. codes " " ++ texts.written word) words.now) }
{
    for word in words {
        put_word(alloc, text, word.as_slice())?;
    }
    Ok(())
}

/// Appends the line of a command.
fn put_command(alloc: Global, text: &mut Vec<u8>, words: &[Bytes]) -> Result<(), AllocError>
    ensures { OnOk result (text.new.items ≡ text.old.items ++ texts.command_line words.now) }
{
    text.extend_from_slice(b"$")?;
    put_words(alloc, text, words)?;
    text.extend_from_slice(b"\n")
}

/// Appends a line of a program.
fn put_line(text: &mut Vec<u8>, line: &[u8]) -> Result<(), AllocError>
    ensures { OnOk result (
        text.new.items ≡ text.old.items ++ (codes "| " ++ texts.closed line.now)) }
{
    text.extend_from_slice(b"| ")?;
    put_closed(text, line)
}

/// Appends the lines of a program.
fn put_lines(text: &mut Vec<u8>, program: &[u8]) -> Result<(), AllocError>
    ensures { OnOk result (
        text.new.items
        ≡ text.old.items
        ++ flat_map (λ line. codes "| " ++ texts.closed line) (lines_of program.now)) }
{
    for line in program.lines_with_terminator() {
        put_line(text, line)?;
    }
    Ok(())
}

/// Appends a program that failed.
fn put_program(text: &mut Vec<u8>, program: &[u8]) -> Result<(), AllocError>
    ensures { OnOk result (text.new.items ≡ text.old.items ++ texts.failed_program program.now) }
{
    text.extend_from_slice(b"failed program was:\n")?;
    put_lines(text, program)?;
    Ok(())
}

/// Appends the program of a child that failed, if it had one.
fn put_failure(
    text: &mut Vec<u8>,
    status: u32,
    file: &Option<(Bytes, Bytes)>,
) -> Result<(), AllocError>
    ensures { OnOk result (text.new.items ≡ text.old.items ++ texts.program_after status file.now) }
{
    match file {
        None => Ok(()),
        Some((_, program)) => {
            if status == 0 {
                return Ok(());
            }
            put_program(text, program.as_slice())
        }
    }
}

/// Appends the line of a status.
fn put_status(alloc: Global, text: &mut Vec<u8>, status: u32) -> Result<(), AllocError>
    ensures { OnOk result (
        text.new.items ≡ text.old.items ++ (codes "status " ++ (decimal status ++ codes "\n"))) }
{
    let digits = format!(in alloc; "{status}")?;
    text.extend_from_slice(b"status ")?;
    text.extend_from_slice(digits.as_bytes())?;
    text.extend_from_slice(b"\n")
}

/// Appends the lines of an answer.
fn put_answer(
    alloc: Global,
    text: &mut Vec<u8>,
    file: &Option<(Bytes, Bytes)>,
    status: u32,
    diagnostics: &[u8],
) -> Result<(), AllocError>
    ensures { OnOk result (
        text.new.items
        ≡ text.old.items ++ texts.reply_text file.now (Answer status diagnostics.now)) }
{
    put_closed(text, diagnostics)?;
    put_status(alloc, text, status)?;
    put_failure(text, status, file)
}

/// Appends the lines of a reply.
fn put_reply(
    alloc: Global,
    text: &mut Vec<u8>,
    file: &Option<(Bytes, Bytes)>,
    reply: &Reply,
) -> Result<(), AllocError>
    ensures { OnOk result (text.new.items ≡ text.old.items ++ texts.reply_text file.now reply.now) }
{
    match reply {
        Reply::Answer {
            status,
            text: diagnostics,
        } => put_answer(alloc, text, file, *status, diagnostics.as_slice()),
        Reply::StartRefused => text.extend_from_slice(b"start refused\n"),
        Reply::EndRefused => text.extend_from_slice(b"wait refused\n"),
    }
}

/// Appends the lines of a child.
fn put_child(alloc: Global, text: &mut Vec<u8>, job: &Job, reply: &Reply) -> Result<(), AllocError>
    ensures { OnOk result (
        text.new.items
        ≡ text.old.items
        ++ (texts.command_line job.now.words ++ texts.reply_text job.now.file reply.now)) }
{
    put_command(alloc, text, job.words.as_slice())?;
    put_reply(alloc, text, &job.file, reply)
}

/// Appends the lines of an entry.
fn put_entry(alloc: Global, text: &mut Vec<u8>, entry: &Entry) -> Result<(), AllocError>
    ensures { OnOk result (text.new.items ≡ text.old.items ++ texts.entry_text entry.now) }
{
    match entry {
        Entry::Said(note) => put_closed(text, note.text.as_slice()),
        Entry::Child { job, reply } => put_child(alloc, text, job, reply),
    }
}

/// Returns the text of the log: its entries in order, each in lines of its own (own).
///
/// A piece gets a newline if it has none at its end. A child has the line of its command after
/// `$ `, in which each word is quoted as a cache file has it; what it wrote to standard error; and
/// `status N`, `start refused` or `wait refused`. If the status isn't 0 and the job had a file,
/// `failed program was:` follows, and each line of the file after `| `.
pub fn log_text(alloc: Global, entries: &[Entry]) -> Result<Vec<u8>, AllocError>
    ensures { IfOk result (λ text. text.items ≡ texts.log_of entries.now) }
{
    let mut text = Vec::new(alloc);
    for entry in entries {
        put_entry(alloc, &mut text, entry)?;
    }
    Ok(text)
}
