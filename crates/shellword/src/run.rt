//! Reads the parts of a word or of a here text.

ghost use Rattle.std.specs.Prelude.{◌≡◌, ℕ, List, ◌∷◌, ◌+◌, ◌++◌, ◌≤◌, drop, length, IfOk, IfErr, OnOk, option_to_list};
ghost use Rattle.shellword.specs.Faults.{IsWordFault};
ghost use Rattle.shellword.specs.Gives.{Gives};
ghost use Rattle.shellword.specs.Contexts.{is_over, is_quoted};
ghost use Rattle.shellword.specs.Text.{ends_word};
ghost use Rattle.shellword.specs.Scan.{scan};
ghost use Rattle.shellword.specs.declared.fault.ShellFault.TheVariants.{OutOfMemory};

use crate::fault::ShellFault;
use crate::front::{Context, read_front};
use crate::part::Part;
use std::alloc::Global;
use text_cut::is_blank;

/// Returns whether the byte ends a word outside quotes.
pub(crate) fn ends_word(byte: u8) -> bool
    ensures { result ≡ ends_word byte }
{
    is_blank(byte)
        || byte == b';'
        || byte == b'&'
        || byte == b'|'
        || byte == b'<'
        || byte == b'>'
        || byte == b'('
        || byte == b')'
}

/// Returns whether the word or here text ends before the byte.
fn ends_before(context: Context, byte: u8) -> bool
    ensures { (rest : List ℕ) → result ≡ is_over context (byte ∷ rest) }
{
    match context {
        Context::Bare => ends_word(byte),
        _ => false,
    }
}

fn is_quoted(context: Context) -> bool
    ensures { result ≡ is_quoted context }
{
    match context {
        Context::Single | Context::Double => true,
        Context::Bare | Context::Here => false,
    }
}

fn push_part(parts: &mut Vec<Part>, part: Option<Part>) -> Result<(), ShellFault>
    ensures ok { OnOk result (parts.new.items ≡ parts.old.items ++ option_to_list part) }
    ensures err { IfErr result (λ e. e ≡ OutOfMemory) }
{
    if let Some(part) = part {
        parts.push(part)?;
    }
    Ok(())
}

/// Reads the parts from `start` to the end of the word or here text. Returns them and the offset
/// after them.
pub(crate) fn read_run(
    alloc: Global,
    text: &[u8],
    start: usize,
    first: Context,
) -> Result<(Vec<Part>, usize), ShellFault>
    requires { start ≤ length text.now }
    ensures value { Gives (λ r. (r.0.items, r.1)) result
        (scan 0 first start (drop start text.now)) }
    ensures fault { IfErr result (IsWordFault (length text.now)) }
    ensures within { IfOk result (λ r. (start ≤ r.1) × (r.1 ≤ length text.now)) }
{
    let mut parts = Vec::new(alloc);
    let mut context = first;
    let mut at = start;
    while at < text.len() {
        let byte = text[at];
        if ends_before(context, byte) {
            break;
        }
        let front = read_front(alloc, at, context, byte, &text[at + 1..])?;
        push_part(&mut parts, front.part)?;
        at += front.len;
        context = front.context;
    }
    if is_quoted(context) {
        return Err(ShellFault::BadWord(at));
    }
    Ok((parts, at))
}
