//! Whether a text reads the status of a command.

ghost use Rattle.std.specs.Prelude.{◌≡◌, ◌≤◌, ◌+◌, false, length};
ghost use Rattle.port_compounds.specs.Guards as specs;

use port_parts::has_at;
use text_cut::is_blank_or_return;

/// Returns whether an option may begin with the byte, or the byte may be before one.
fn may_begin_option(byte: u8) -> bool
    ensures { result ≡ specs.may_begin_option byte }
{
    byte == b'-' || byte == b'\\' || is_blank_or_return(byte)
}

/// Returns whether a blank is at an offset, and an option may begin after it.
fn is_before_option(text: &[u8], at: usize) -> bool
    ensures { result ≡ false → (specs.IsBeforeOption text.now at) → ⊥ }
{
    let after = at.saturating_add(1);
    after < text.len() && is_blank_or_return(text[at]) && may_begin_option(text[after])
}

/// Returns whether the byte may begin the name of a variable. A digit may not: `$1set` may be `set`.
fn may_begin_name(byte: u8) -> bool
    ensures { result ≡ specs.may_begin_name byte }
{
    byte.is_ascii_alphabetic() || byte == b'_'
}

/// Returns whether no letter and no `_` is right before an offset.
fn begins_name(text: &[u8], at: usize) -> bool
    requires { at ≤ length text.now }
    ensures { result ≡ false → specs.BeginsName text.now at → ⊥ }
{
    at == 0 || !may_begin_name(text[at - 1])
}

/// Returns whether `set` is at an offset, and an option may follow it.
fn is_set_at(text: &[u8], at: usize) -> bool
    requires { at ≤ length text.now }
    ensures { result ≡ false → specs.IsSetAt text.now at → ⊥ }
{
    has_at(text, at, b"set")
        && begins_name(text, at)
        && is_before_option(text, at.saturating_add(3))
}

/// Returns whether the status of a command is read at an offset, or a shell may be asked to end at
/// one.
#[tactic(auto, unfolding(crate::specs::Guards::IsStatusAt))]
fn is_status_at(text: &[u8], at: usize) -> bool
    requires { at ≤ length text.now }
    ensures { result ≡ false → specs.IsStatusAt text.now at → ⊥ }
{
    has_at(text, at, b"$?") || is_set_at(text, at)
}

/// Returns whether a text reads the status of a command at some place, or may ask a shell to end at
/// one.
pub fn reads_status(text: &[u8]) -> bool
    ensures { result ≡ false → specs.ReadsStatus text.now → ⊥ }
{
    for i in 0..text.len() {
        if is_status_at(text, i) {
            return true;
        }
    }
    false
}
