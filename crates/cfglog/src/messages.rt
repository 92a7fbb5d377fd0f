//! What is printed.

ghost use Rattle.std.specs.Prelude.{◌≡◌, ◌++◌, IfOk, OnOk};
ghost use Rattle.cfglog.specs.Texts as texts;

use deftable::{Note, Stream};
use std::alloc::{AllocError, Global};

/// Returns whether a piece for `of` is shown on `stream`.
fn is_shown(stream: Stream, quiet: bool, of: Stream) -> bool
    ensures { result ≡ texts.is_shown stream quiet of }
{
    match (stream, of) {
        (Stream::Out, Stream::Out) => !quiet,
        (Stream::Err, Stream::Err) => true,
        (Stream::Out, Stream::Err) | (Stream::Err, Stream::Out) => false,
    }
}

/// Appends the text of a piece, if it is shown.
fn put_note(text: &mut Vec<u8>, stream: Stream, quiet: bool, note: &Note) -> Result<(), AllocError>
    ensures { OnOk result (
        text.new.items ≡ text.old.items ++ texts.note_text stream quiet note.now) }
{
    if is_shown(stream, quiet, note.stream) {
        text.extend_from_slice(note.text.as_slice())?;
    }
    Ok(())
}

/// Returns the pieces for a stream, one after the other.
///
/// If `quiet` is set, nothing is for standard output, as with `--quiet` (Autoconf's manual,
/// "configure Invocation"). Standard error is as it would be without it.
pub fn messages_text(
    alloc: Global,
    notes: &[Note],
    stream: Stream,
    quiet: bool,
) -> Result<Vec<u8>, AllocError>
    ensures { IfOk result (λ text. text.items ≡ texts.messages_of stream quiet notes.now) }
{
    let mut text = Vec::new(alloc);
    for note in notes {
        put_note(&mut text, stream, quiet, note)?;
    }
    Ok(text)
}
