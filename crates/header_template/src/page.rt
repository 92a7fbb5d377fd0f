//! The text of a header template.

ghost use Rattle.std.specs.Prelude.{◌≡◌, ◌++◌, [], ◌∷◌, map, codes, IfOk, OnOk};
ghost use Rattle.std.specs.List.{flat_map};
ghost use Rattle.ac_calls.specs.Calls.{macro_call_of};
ghost use Rattle.ac_tree.specs.Script.{script_of};
ghost use Rattle.header_template.specs.Pages as specs;

use crate::mentions::mentions_of;
use crate::notes::notes_in;
use crate::table::{Table, is_none, table_of};
use ac_calls::CallAt;
use ac_tree::Source;
use deftable::Bytes;
use std::alloc::{AllocError, Global};
use text_cut::fields;

/// A header template.
#[derive(Drop)]
pub struct Template {
    /// Its text.
    pub page: Bytes,
    /// A line for each name in it that has no description, which says so.
    pub said: Bytes,
}

/// Returns what separates a word from what is before it, if the line has room for this many bytes
/// more.
fn gap(room: usize, word: &[u8]) -> &'static [u8]
    ensures { result.now ≡ specs.gap room word.now }
{
    if word.len() < room { b" " } else { b"\n   " }
}

/// Returns the room after the word.
fn room_after(room: usize, word: &[u8]) -> usize
    ensures { result ≡ specs.room_after room word.now }
{
    if word.len() < room {
        room - (word.len() + 1)
    } else {
        75usize.saturating_sub(word.len())
    }
}

/// Adds a word, after what separates it.
fn put_word(room: usize, word: &[u8], text: &mut Vec<u8>) -> Result<(), AllocError>
    ensures { OnOk result (
        text.new.items ≡ text.old.items ++ (specs.gap room word.now ++ word.now)) }
{
    text.extend_from_slice(gap(room, word))?;
    text.extend_from_slice(word)
}

/// Adds words, each after what separates it.
#[tactic(auto, using(crate::proofs::Wrapping::on_word))]
fn put_words(words: &[&[u8]], text: &mut Vec<u8>) -> Result<(), AllocError>
    ensures { OnOk result (
        text.new.items
        ≡ text.old.items ++ specs.wrapped 76 (map (λ word. word.now) words.now)) }
{
    let mut room: usize = 76;
    for word in words {
        put_word(room, *word, text)?;
        room = room_after(room, *word);
    }
    Ok(())
}

/// Returns the words of a description and the end of its comment.
fn words_of(alloc: Global, description: &[u8]) -> Result<Vec<&[u8]>, AllocError>
    ensures { IfOk result (λ v.
        map (λ word. word.now) v.items ≡ specs.words_of description.now) }
{
    let mut words = fields(alloc, description)?;
    words.push(b"*/".as_slice())?;
    Ok(words)
}

/// Adds a comment with a description.
fn put_comment(alloc: Global, description: &[u8], text: &mut Vec<u8>) -> Result<(), AllocError>
    ensures { OnOk result (text.new.items ≡ text.old.items ++ specs.comment description.now) }
{
    let words = words_of(alloc, description)?;
    text.extend_from_slice(b"/*")?;
    put_words(&words, text)
}

/// Adds the comment and the end of its line, if there is a description.
fn put_comment_line(alloc: Global, description: &[u8], text: &mut Vec<u8>) -> Result<(), AllocError>
    ensures { OnOk result (
        text.new.items ≡ text.old.items ++ specs.comment_line description.now) }
{
    if is_none(description) {
        return Ok(());
    }
    put_comment(alloc, description, text)?;
    text.extend_from_slice(b"\n")
}

/// Adds an empty line, the description of a name, and the name.
fn put_lines(
    alloc: Global,
    name: &[u8],
    description: &[u8],
    page: &mut Vec<u8>,
) -> Result<(), AllocError>
    ensures { OnOk result (
        page.new.items ≡ page.old.items ++ specs.lines_of (name.now, description.now)) }
{
    page.extend_from_slice(b"\n")?;
    put_comment_line(alloc, description, page)?;
    page.extend_from_slice(b"#undef ")?;
    page.extend_from_slice(name)?;
    page.extend_from_slice(b"\n")
}

/// What a line about a name without a description begins with.
const UNDESCRIBED: &[u8] = b"acrun: undescribed ";

/// Adds what such a line begins with.
#[tactic(auto, unfolding(crate::specs::Pages::undescribed))]
fn put_undescribed(said: &mut Vec<u8>) -> Result<(), AllocError>
    ensures { OnOk result (said.new.items ≡ said.old.items ++ specs.undescribed) }
{
    said.extend_from_slice(UNDESCRIBED)
}

/// Adds what is said of a name, if it has no description.
fn put_said(name: &[u8], description: &[u8], said: &mut Vec<u8>) -> Result<(), AllocError>
    ensures { OnOk result (
        said.new.items ≡ said.old.items ++ specs.said_of (name.now, description.now)) }
{
    if !is_none(description) {
        return Ok(());
    }
    put_undescribed(said)?;
    said.extend_from_slice(name)?;
    said.extend_from_slice(b"\n")
}

/// The first line.
const HEAD: &[u8] = b"/* Generated from configure.ac by acrun header.  */\n";

/// Returns the first line, alone.
#[tactic(auto, unfolding(crate::specs::Pages::head))]
fn head(alloc: Global) -> Result<Vec<u8>, AllocError>
    ensures { IfOk result (λ v. v.items ≡ specs.head) }
{
    Vec::from_slice(alloc, HEAD)
}

/// Returns the template of the names in a table.
fn written(alloc: Global, table: Table) -> Result<Template, AllocError>
    ensures page { IfOk result (λ t. t.page ≡ specs.head
        ++ flat_map specs.lines_of
        (map (λ e. (e.0.items, e.1.items)) table.entries)) }
    ensures said { IfOk result (λ t. t.said
        ≡ flat_map specs.said_of
        (map (λ e. (e.0.items, e.1.items)) table.entries)) }
{
    let mut page = head(alloc)?;
    let mut said = Vec::new(alloc);
    'entries: for (name, description) in table {
        put_lines(alloc, name.as_slice(), description.as_slice(), &mut page)?;
        put_said(name.as_slice(), description.as_slice(), &mut said)?;
    }
    Ok(Template {
        page: Bytes::from_vec(page),
        said: Bytes::from_vec(said),
    })
}

/// Returns the header template of a source that was read. The text is the source's, and the calls
/// are its own (`ac_calls::calls_of`): they have the descriptions of AC_DEFINE and
/// AC_DEFINE_UNQUOTED.
///
/// If a name is described more than once, its description is the last one, as with autoheader. The
/// first line says what made the template, and all else is what autoheader writes (own: for a
/// description whose first word has more than 75 bytes, it differs in blanks).
///
/// # Errors
///
/// Fails only if memory runs out.
#[tactic(auto, using(crate::proofs::Making::template))]
pub fn template_of(
    alloc: Global,
    text: &[u8],
    source: &Source,
    calls: &[CallAt],
) -> Result<Template, AllocError>
    // The page has each name that the statements may define once, and no other.
    ensures { IfOk result (λ t.
        specs.IsTemplate text.now (script_of source.now) (map macro_call_of calls.now) t.page
        t.said) }
{
    let found = notes_in(alloc, text, calls)?;
    let notes = table_of(alloc, found.as_slice())?;
    let mentions = mentions_of(alloc, &notes, source)?;
    let table = table_of(alloc, mentions.as_slice())?;
    let template = written(alloc, table)?;
    Ok(template)
}
