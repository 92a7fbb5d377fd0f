//! Removes line continuations, before statements are read.

ghost use Rattle.std.specs.Prelude.{◌≡◌, ◌++◌, ◌≤◌, length, IfOk, OnOk};
ghost use Rattle.shell_bare.specs.Continuation as places;
ghost use Rattle.shell_bare.specs.Joining as joining;
ghost use Rattle.shell_bare.specs.Text as bytes;

use std::alloc::{AllocError, Global};

/// The context of a byte of bare text.
#[derive(Clone, Copy)]
pub enum BareContext {
    /// At the start of a shell word, outside quotes.
    Start,
    /// Within a shell word, outside quotes.
    Word,
    /// In single quotes.
    Single,
    /// In double quotes.
    Double,
    /// In a comment.
    Comment,
}

/// The context of a byte, and whether the byte before it is a backslash that quotes it and that
/// isn't written yet.
#[derive(Clone, Copy)]
pub(crate) struct State {
    pub(crate) place: BareContext,
    pub(crate) escaped: bool,
}

/// Returns whether the byte, outside quotes, ends a shell word: a blank, a newline or `;` (POSIX
/// shell, 2.3).
pub fn is_part_end(byte: u8) -> bool
    ensures { result ≡ bytes.is_part_end byte }
{
    byte == b' ' || byte == b'\t' || byte == b'\n' || byte == b';'
}

/// Returns whether a backslash in this context quotes the byte after it (POSIX shell, 2.2.1).
pub fn escapes(place: BareContext) -> bool
    ensures { result ≡ places.escapes place }
{
    match place {
        BareContext::Start | BareContext::Word | BareContext::Double => true,
        BareContext::Single | BareContext::Comment => false,
    }
}

/// Returns the context after a byte outside quotes that begins no comment.
fn after_bare(byte: u8) -> BareContext
    ensures { result ≡ places.after_bare byte }
{
    if is_part_end(byte) {
        BareContext::Start
    } else if byte == b'\'' {
        BareContext::Single
    } else if byte == b'"' {
        BareContext::Double
    } else {
        BareContext::Word
    }
}

/// Returns the context after a byte that no backslash quotes.
pub fn following(place: BareContext, byte: u8) -> BareContext
    ensures { result ≡ places.following place byte }
{
    match place {
        BareContext::Start if byte == b'#' => BareContext::Comment,
        BareContext::Start | BareContext::Word => after_bare(byte),
        BareContext::Single if byte == b'\'' => BareContext::Word,
        BareContext::Double if byte == b'"' => BareContext::Word,
        BareContext::Comment if byte == b'\n' => BareContext::Start,
        place => place,
    }
}

/// Returns the context after a byte that a backslash quotes.
pub fn after_quoted(place: BareContext) -> BareContext
    ensures { result ≡ places.after_quoted place }
{
    match place {
        BareContext::Start => BareContext::Word,
        place => place,
    }
}

/// Returns the state after a byte.
fn next(state: State, byte: u8) -> State
    ensures { result ≡ joining.next state byte }
{
    let place = state.place;
    if state.escaped {
        let place = if byte == b'\n' {
            place
        } else {
            after_quoted(place)
        };
        State {
            place,
            escaped: false,
        }
    } else if byte == b'\\' && escapes(place) {
        State {
            place,
            escaped: true,
        }
    } else {
        State {
            place: following(place, byte),
            escaped: false,
        }
    }
}

/// Appends the bytes that remain of a byte, with the backslash that quotes it.
fn push_byte(out: &mut Vec<u8>, state: State, byte: u8) -> Result<(), AllocError>
    ensures { OnOk result (out.new.items ≡ out.old.items ++ joining.written state byte) }
{
    if state.escaped {
        if byte != b'\n' {
            out.push(b'\\')?;
            out.push(byte)?;
        }
    } else if !(byte == b'\\' && escapes(state.place)) {
        out.push(byte)?;
    }
    Ok(())
}

/// Appends the backslash at the end of the text, if there is one that quotes nothing.
fn push_end(out: &mut Vec<u8>, state: State) -> Result<(), AllocError>
    ensures { OnOk result (out.new.items ≡ out.old.items ++ joining.bytes_left state) }
{
    if state.escaped {
        out.push(b'\\')?;
    }
    Ok(())
}

/// Returns the text without its line continuations.
pub(crate) fn join_lines(alloc: Global, text: &[u8]) -> Result<Vec<u8>, AllocError>
    ensures value { IfOk result (λ v. v.items ≡ joining.joined text.now) }
    ensures within { IfOk result (λ v. length v.items ≤ length text.now) }
{
    let mut out = Vec::new(alloc);
    let mut state = State {
        place: BareContext::Start,
        escaped: false,
    };
    for byte in text {
        push_byte(&mut out, state, *byte)?;
        state = next(state, *byte);
    }
    push_end(&mut out, state)?;
    Ok(out)
}
