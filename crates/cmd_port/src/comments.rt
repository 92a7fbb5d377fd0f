//! Lines of comment at errors.

ghost use Rattle.std.specs.Prelude.{◌≡◌, ◌≤◌, ◌++◌, true, map, length, slice_range, ◌⊎◌, nat_eq, IfOk, OnOk, IsTrue};
ghost use Rattle.std.specs.List.{flat_map, starts_with};
ghost use Rattle.cmd_port.specs.Ported as specs;

use crate::lines::{FRONT, Line, comment_line, lines_of};
use ac_calls::calls_of;
use lint_findings::Finding;
use lint_table::{Page, keys};
use lint_text::{before, first_line, first_word, from};
use std::alloc::{AllocError, Global};
use std::collections::BTreeSet;
use text_cut::parts;

/// Lines of comment, each after the offset of the line that it is above.
type Said = BTreeSet<Vec<u8>>;

/// What is said above a line.
#[derive(Drop)]
struct Note {
    /// The offset of the line.
    line: usize,
    words: Vec<u8>,
}

/// Returns whether the brackets of a text are closed in it.
fn is_closed(text: &[u8]) -> bool {
    let mut depth: usize = 0;
    for byte in text {
        if *byte == b']' && depth == 0 {
            return false;
        }
        depth = depth.saturating_add(usize::from(*byte == b'['));
        depth = depth.saturating_sub(usize::from(*byte == b']'));
    }
    depth == 0
}

/// Returns the text without brackets.
fn without_brackets(alloc: Global, text: &[u8]) -> Result<Vec<u8>, AllocError> {
    text.iter()
        .copied()
        .filter(|byte| *byte != b'[' && *byte != b']')
        .collect(alloc)
}

/// Returns what is said if AC_INIT is not first. A comment that has its name is before it too.
fn not_first(alloc: Global) -> Result<Vec<u8>, AllocError> {
    let mut page = Page::new(alloc);
    page.put(keys::INIT_NOT_FIRST, &[]);
    let words = page.message()?;
    words.into_vec(alloc)
}

/// Returns whether the help is of this source, or one line. Other help is an example.
fn is_own_help(error: &Finding) -> bool {
    error.code.as_slice() == b"parse-2".as_slice() || !error.help.as_slice().contains(&b'\n')
}

/// Returns what is said of an error.
fn said(alloc: Global, error: &Finding) -> Result<Vec<u8>, AllocError> {
    if error.code.as_slice() == b"parse-8".as_slice() {
        return not_first(alloc);
    }
    let mut words = Vec::from_slice(alloc, error.message.as_slice())?;
    if !error.help.is_empty() && is_own_help(error) {
        words.extend_from_slice(b"; ")?;
        words.extend_from_slice(error.help.as_slice())?;
    }
    Ok(words)
}

/// Returns what is said of an error, in lines whose brackets are closed.
fn words_of(alloc: Global, error: &Finding) -> Result<Vec<u8>, AllocError> {
    let words = said(alloc, error)?;
    if is_closed(words.as_slice()) {
        return Ok(words);
    }
    without_brackets(alloc, words.as_slice())
}

/// Appends a line of comment.
#[tactic(auto, unfolding(crate::specs::Ported::comment_line))]
fn put_line(out: &mut Vec<u8>, line: &[u8]) -> Result<(), AllocError>
    ensures { OnOk result (out.new.items ≡ out.old.items ++ specs.comment_line line.now) }
{
    out.extend_from_slice(FRONT)?;
    out.extend_from_slice(line)?;
    out.push(b'\n')?;
    Ok(())
}

/// Appends lines of comment.
fn put_lines(out: &mut Vec<u8>, lines: &[&[u8]]) -> Result<(), AllocError>
    ensures { OnOk result (
        out.new.items ≡ out.old.items ++ flat_map specs.comment_line (map (λ l. l.now) lines.now)) }
{
    for i in 0..lines.len() {
        put_line(out, lines[i])?;
    }
    Ok(())
}

/// Returns lines of comment with these words.
#[tactic(auto, unfolding(crate::specs::Ported::comment))]
fn comment_of(alloc: Global, words: &[u8]) -> Result<Vec<u8>, AllocError>
    ensures { IfOk result (λ v. v.items ≡ specs.comment words.now) }
{
    let lines = parts(alloc, words, b'\n')?;
    let mut out = Vec::new(alloc);
    put_lines(&mut out, lines.as_slice())?;
    Ok(out)
}

/// Adds a line of comment above the line at an offset. Returns whether it is new.
fn add_line(alloc: Global, line: usize, words: &[u8], said: &mut Said) -> Result<bool, AllocError> {
    let mut key = Vec::from_slice(alloc, &line.to_le_bytes())?;
    key.extend_from_slice(words)?;
    let is_new = said.insert(key)?;
    Ok(is_new)
}

/// Returns the length of the first part of a line of comment: what is before the first `; `.
fn first_part_len(words: &[u8]) -> usize {
    for at in 0..words.len() {
        if from(words, at).starts_with(b"; ") {
            return at;
        }
    }
    words.len()
}

/// Adds a line of comment above the line at an offset, and its first part, since a comment that
/// says that alone says nothing more.
fn add_both(alloc: Global, line: usize, words: &[u8], said: &mut Said) -> Result<(), AllocError> {
    add_line(alloc, line, words, said)?;
    add_line(alloc, line, before(words, first_part_len(words)), said)?;
    Ok(())
}

/// Returns the lines of comment that are there, and their first parts.
fn said_in(alloc: Global, text: &[u8], lines: &[Line]) -> Result<Said, AllocError> {
    let mut said = BTreeSet::new(alloc);
    for line in lines {
        let rest = from(text, line.start);
        if rest.starts_with(FRONT) {
            let words = first_line(from(rest, FRONT.len()));
            add_both(alloc, line.below, words, &mut said)?;
        }
    }
    Ok(said)
}

/// Adds the lines of comment of a note. Returns whether one is new.
fn add_note(alloc: Global, note: &Note, said: &mut Said) -> Result<bool, AllocError> {
    let mut is_new = false;
    for words in &parts(alloc, note.words.as_slice(), b'\n')? {
        is_new |= add_line(alloc, note.line, words, said)?;
    }
    Ok(is_new)
}

/// The words of the shell that go on with a construct or end it.
const CONTINUING: [&[u8]; 6] = [b"then", b"else", b"fi", b"do", b"done", b"esac"];

/// Returns whether an error is of text that is no statement.
fn is_of_text(error: &Finding) -> bool {
    error.code.as_slice() == b"parse-3".as_slice()
}

/// Returns whether an error is of text that goes on with a construct of the shell, or ends it.
fn is_continuing(text: &[u8], error: &Finding) -> bool {
    let word = first_word(from(text, error.start));
    is_of_text(error) && CONTINUING.iter().any(|other| *other == word)
}

/// Adds what is said of an error, but for what is there.
fn push_note(
    alloc: Global,
    lines: &[Line],
    error: &Finding,
    said: &mut Said,
    out: &mut Vec<Note>,
) -> Result<(), AllocError> {
    let note = Note {
        line: comment_line(lines, error.start),
        words: words_of(alloc, error)?,
    };
    if add_note(alloc, &note, said)? {
        out.push(note)?;
    }
    Ok(())
}

/// Returns what is said of errors, in order of the lines that it is said above, but for what is
/// there. After the first error of text nothing is said of words that go on with a construct or end
/// it: what is said above its start is about them too.
fn notes_of(
    alloc: Global,
    text: &[u8],
    lines: &[Line],
    errors: &[Finding],
) -> Result<Vec<Note>, AllocError> {
    let mut said = said_in(alloc, text, lines)?;
    let mut out = Vec::new(alloc);
    let mut has_text = false;
    for error in errors {
        if !has_text || !is_continuing(text, error) {
            push_note(alloc, lines, error, &mut said, &mut out)?;
        }
        has_text |= is_of_text(error);
    }
    out.sort_by_key(|note| note.line)?;
    Ok(out)
}

/// Returns whether a line of the text begins at the offset.
pub(crate) fn is_line_start(text: &[u8], at: usize) -> bool
    requires { at ≤ length text.now }
    ensures { result ≡ specs.is_line_start text.now at }
{
    at == 0 || text[at - 1] == b'\n'
}

/// A text that is written while another is read.
#[derive(Drop)]
struct Copy {
    out: Vec<u8>,
    /// How much was read.
    at: usize,
}

/// Copies what is before an offset.
fn copy_to(text: &[u8], at: usize, copy: &mut Copy) -> Result<(), AllocError>
    requires { (copy.old.at ≤ at) × (at ≤ length text.now) }
    ensures { OnOk result (
        (copy.new.at ≡ at)
        × (copy.new.out.items ≡ copy.old.out.items ++ slice_range text.now copy.old.at at)) }
{
    copy.out.extend_from_slice(&text[copy.at..at])?;
    copy.at = at;
    Ok(())
}

/// Writes a comment.
fn put_words(alloc: Global, words: &[u8], out: &mut Vec<u8>) -> Result<(), AllocError>
    ensures { OnOk result (out.new.items ≡ out.old.items ++ specs.comment words.now) }
{
    let lines = comment_of(alloc, words)?;
    out.extend_from_slice(lines.as_slice())
}

/// Copies what is before the line of a note, and writes the note, if a line begins there.
fn put_note(alloc: Global, text: &[u8], note: &Note, copy: &mut Copy) -> Result<(), AllocError>
    requires begun { specs.IsCommented text.now copy.old.at copy.old.out.items }
    ensures { OnOk result (specs.IsCommented text.now copy.new.at copy.new.out.items) }
{
    let line = note.line;
    if line < copy.at || text.len() < line || !is_line_start(text, line) {
        return Ok(());
    }
    copy_to(text, line, copy)?;
    put_words(alloc, note.words.as_slice(), &mut copy.out)
}

/// Copies the text up to the last note, with each note.
fn put_notes(alloc: Global, text: &[u8], notes: &[Note], copy: &mut Copy) -> Result<(), AllocError>
    requires begun { specs.IsCommented text.now copy.old.at copy.old.out.items }
    ensures { OnOk result (specs.IsCommented text.now copy.new.at copy.new.out.items) }
{
    for note in notes {
        put_note(alloc, text, note, copy)?;
    }
    Ok(())
}

/// Copies the rest of a text.
fn finish(text: &[u8], copy: &mut Copy) -> Result<(), AllocError>
    requires begun { specs.IsCommented text.now copy.old.at copy.old.out.items }
    ensures { OnOk result (specs.IsCommented text.now (length text.now) copy.new.out.items) }
{
    copy_to(text, text.len(), copy)
}

/// Returns the text with the notes.
fn with_notes(alloc: Global, text: &[u8], notes: &[Note]) -> Result<Vec<u8>, AllocError>
    ensures { IfOk result (λ v. specs.IsCommented text.now (length text.now) v.items) }
{
    let mut copy = Copy {
        out: Vec::new(alloc),
        at: 0,
    };
    put_notes(alloc, text, notes, &mut copy)?;
    finish(text, &mut copy)?;
    Ok(copy.out)
}

/// Returns whether the text begins with the other text.
pub(crate) fn begins(text: &[u8], front: &[u8]) -> bool
    ensures { result ≡ starts_with nat_eq text.now front.now }
{
    text.starts_with(front)
}

/// Returns whether the text begins with a comment about what is left.
fn is_left(text: &[u8]) -> bool
    ensures { result ≡ specs.is_left text.now }
{
    begins(text, b"dnl acrun: ") && !begins(text, b"dnl acrun: in place of ")
}

/// Returns whether a line of the text begins at the offset, and is a comment about what is left.
#[tactic(auto, using(crate::proofs::Left::left_at))]
fn is_left_at(text: &[u8], at: usize) -> bool
    requires { at ≤ length text.now }
    ensures { IsTrue result → specs.HasLeft text.now }
{
    if !is_line_start(text, at) {
        return false;
    }
    is_left(&text[at..text.len()])
}

/// Returns whether a line of the text is a comment about what is left.
fn has_left(text: &[u8]) -> bool
    ensures { IsTrue result → specs.HasLeft text.now }
{
    for at in 0..text.len() {
        if is_left_at(text, at) {
            return true;
        }
    }
    false
}

/// Returns what is said before a text of which nothing else is said.
#[tactic(auto, unfolding(crate::specs::Ported::unsaid))]
fn unsaid() -> &'static [u8]
    ensures { result.now ≡ specs.unsaid }
{
    b"acrun lint says what is left to do"
}

/// Returns the text with a comment before it that says that something is left.
fn with_front(alloc: Global, text: &[u8]) -> Result<Vec<u8>, AllocError>
    ensures { IfOk result (λ v. v.items ≡ specs.comment specs.unsaid ++ text.now) }
{
    let mut out = comment_of(alloc, unsaid())?;
    out.extend_from_slice(text)?;
    Ok(out)
}

/// Returns the text if a line of it is a comment about what is left, and otherwise the text with
/// one before it.
#[tactic(auto, using(crate::proofs::Left::front_kept, crate::proofs::Left::front_left, crate::proofs::Left::lent_left, crate::proofs::Left::stays))]
fn with_left(alloc: Global, text: Vec<u8>) -> Result<Vec<u8>, AllocError>
    ensures kept { IfOk result (λ v.
        (v.items ≡ text.items) ⊎ (v.items ≡ specs.comment specs.unsaid ++ text.items)) }
    ensures left { IfOk result (λ v. specs.HasLeft v.items) }
{
    if has_left(text.as_slice()) {
        return Ok(text);
    }
    with_front(alloc, text.as_slice())
}

/// Returns the text with a comment at each error. The errors are in order of their places.
fn commented_at(alloc: Global, text: &[u8], errors: &[Finding]) -> Result<Vec<u8>, AllocError>
    ensures { IfOk result (λ v. specs.IsCommented text.now (length text.now) v.items) }
{
    let calls = calls_of(alloc, text)?;
    let lines = lines_of(alloc, text, calls.as_slice())?;
    let notes = notes_of(alloc, text, lines.as_slice(), errors)?;
    with_notes(alloc, text, notes.as_slice())
}

/// Returns the text with a comment at each error, and so with one at least. The errors are in order
/// of their places.
pub(crate) fn commented(
    alloc: Global,
    text: &[u8],
    errors: &[Finding],
) -> Result<Vec<u8>, AllocError>
    ensures commented { IfOk result (λ v. specs.IsCommented text.now (length text.now) v.items) }
    ensures left { IfOk result (λ v. specs.HasLeft v.items) }
{
    let out = commented_at(alloc, text, errors)?;
    with_left(alloc, out)
}
