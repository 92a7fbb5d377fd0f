//! Bytes as a reader is shown them.

ghost use Rattle.std.specs.Prelude.{◌≡◌, ◌++◌, IfOk, OnOk};
ghost use Rattle.std.specs.Str.{is_utf8};
ghost use Rattle.crew_refusals.specs.Shown as specs;

use deftable::Bytes;
use std::alloc::{AllocError, Global};
use text_controls::escape;

fn is_control(byte: u8) -> bool
    ensures { result ≡ specs.is_control byte }
{
    byte < b' ' || byte == 0x7f
}

/// Appends a byte as it is shown.
#[tactic(auto, unfolding(crate::specs::Shown::shown_byte))]
fn put_byte(out: &mut Vec<u8>, is_text: bool, byte: u8) -> Result<(), AllocError>
    ensures { OnOk result (out.new.items ≡ out.old.items ++ specs.shown_byte is_text byte) }
{
    if is_control(byte) || (byte > 0x7f && !is_text) {
        out.extend_from_slice(&escape(byte))
    } else {
        out.extend_from_slice(&[byte])
    }
}

fn put(out: &mut Vec<u8>, is_text: bool, text: &[u8]) -> Result<(), AllocError>
    ensures { OnOk result (out.new.items ≡ out.old.items ++ specs.shown_with is_text text.now) }
{
    for byte in text {
        put_byte(out, is_text, *byte)?;
    }
    Ok(())
}

fn is_text(bytes: &[u8]) -> bool
    ensures { result ≡ is_utf8 bytes.now }
{
    match std::str::from_utf8(bytes) {
        Ok(_) => true,
        Err(_) => false,
    }
}

/// Appends a text as it is shown.
#[tactic(auto, unfolding(crate::specs::Shown::shown))]
pub(crate) fn put_shown(out: &mut Vec<u8>, text: &[u8]) -> Result<(), AllocError>
    ensures { OnOk result (out.new.items ≡ out.old.items ++ specs.shown text.now) }
{
    put(out, is_text(text), text)
}

/// Returns a text as it is shown: a control byte is written as `\xNN`, and so is each byte above
/// 127 if the text isn't UTF-8.
///
/// # Errors
///
/// Fails only if memory runs out.
pub fn shown(alloc: Global, text: &[u8]) -> Result<Bytes, AllocError>
    ensures { IfOk result (λ line. line ≡ specs.shown text.now) }
{
    let mut out = Vec::new(alloc);
    put_shown(&mut out, text)?;
    Ok(Bytes::from_vec(out))
}
