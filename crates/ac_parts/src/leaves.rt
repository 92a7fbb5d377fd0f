//! The text that a leaf of each kind may have.

ghost use Rattle.std.specs.Prelude.{◌≡◌, true, false, length, drop, MatchOption};
ghost use Rattle.ac_parts.specs.Leaves as specs;

use crate::kind::Kind;

/// Blanks within a line, which may go on after a backslash.
pub const BLANKS: &[u8] = b" \t\r\\\n";

/// Blanks and newlines.
pub const GAPS: &[u8] = b" \t\r\n";

/// What redirections are spelled with.
pub const REDIRECTING: &[u8] = b"<>&";

/// The newline.
pub const NEWLINE: &[u8] = b"\n";

/// What has a meaning of its own in a word, or ends it.
pub const NO_PLAIN: &[u8] = b" \t\r\n;&|<>()'\"`$\\[]";

/// What no variable has.
pub const NO_DOLLAR: &[u8] = b" \t\r\n;&|<>()'\"`\\[]";

/// What no name has.
pub const NO_NAME: &[u8] = b" \t\r\n;&|<>()'\"`$\\[]{}=:-,";

/// What has a meaning in a constant or an entry, or ends it.
pub const NO_CONSTANT: &[u8] = b" \t\r\n;&|<>()'\"`$\\[]{}#~*?,";

/// No bytes.
pub const NOTHING: &[u8] = b"";

/// Returns what a leaf of a kind begins with.
fn begins_of(kind: Kind) -> &'static [u8]
    ensures { result.now ≡ specs.begins_of kind }
{
    match kind {
        Kind::Newline => b"\n",
        Kind::Semicolon => b";",
        Kind::Background => b"&",
        Kind::And => b"&&",
        Kind::Or => b"||",
        Kind::Pipe => b"|",
        Kind::IfWord => b"if",
        Kind::Then => b"then",
        Kind::Elif => b"elif",
        Kind::Else => b"else",
        Kind::Fi => b"fi",
        Kind::Equals => b"=",
        Kind::DefaultStart => b"${",
        Kind::DefaultSign => b":-",
        Kind::DefaultEnd => b"}",
        Kind::Parenthesis => b"(",
        Kind::Comma => b",",
        Kind::CallEnd => b")",
        Kind::Left => b"[",
        Kind::Right => b"]",
        Kind::Comment => b"#",
        Kind::Dropped => b"dnl",
        Kind::Single => b"'",
        Kind::Double => b"\"",
        Kind::Dollar => b"$",
        Kind::Escape => b"\\",
        Kind::Substitution => b"`",
        _ => b"",
    }
}

/// Returns of what bytes the rest of a leaf is, or of what bytes it has none.
fn bytes_of(kind: Kind) -> &'static [u8]
    ensures { result.now ≡ specs.bytes_of kind }
{
    match kind {
        Kind::Blank => BLANKS,
        Kind::Gap => GAPS,
        Kind::Redirect => REDIRECTING,
        Kind::Comment => NEWLINE,
        Kind::Variable => NO_NAME,
        Kind::Plain => NO_PLAIN,
        Kind::Dollar => NO_DOLLAR,
        Kind::Constant => NO_CONSTANT,
        Kind::Name => NO_NAME,
        Kind::Entry => NO_CONSTANT,
        _ => NOTHING,
    }
}

/// Returns whether the rest of a leaf has only these bytes. That of the others has none of them.
fn has_only_these(kind: Kind) -> bool
    ensures { result ≡ specs.has_only_these kind }
{
    kind.code() <= 35
}

/// Returns whether a byte is one of these.
pub fn is_among(bytes: &[u8], byte: u8) -> bool
    ensures { result ≡ specs.is_among bytes.now byte }
{
    bytes.iter().any(|it| *it == byte)
}

/// Returns whether each byte is one of these.
#[tactic(auto, unfolding(crate::specs::Leaves::has_only))]
fn has_only(bytes: &[u8], text: &[u8]) -> bool
    ensures { result ≡ specs.has_only bytes.now text.now }
{
    text.iter().all(|byte| is_among(bytes, *byte))
}

/// Returns whether no byte is one of these.
#[tactic(auto, unfolding(crate::specs::Leaves::has_none))]
fn has_none(bytes: &[u8], text: &[u8]) -> bool
    ensures { result ≡ specs.has_none bytes.now text.now }
{
    text.iter().all(|byte| !is_among(bytes, *byte))
}

/// Returns whether a text has only these bytes, or none of them.
fn has(only: bool, bytes: &[u8], text: &[u8]) -> bool
    ensures { result ≡ specs.has only bytes.now text.now }
{
    if only {
        has_only(bytes, text)
    } else {
        has_none(bytes, text)
    }
}

/// Returns what is after a text that another one begins with.
#[tactic(auto, unfolding(crate::specs::Leaves::has_first))]
fn after<'a>(text: &'a [u8], first: &[u8]) -> Option<&'a [u8]>
    ensures { MatchOption result
        (specs.has_first text.now first.now ≡ false)
        (λ rest. (specs.has_first text.now first.now ≡ true)
        × (rest.now ≡ drop (length first.now) text.now)) }
{
    if first.len() <= text.len() && &text[..first.len()] == first {
        Some(&text[first.len()..])
    } else {
        None
    }
}

/// Returns whether a leaf of a kind may have a text.
#[tactic(auto, unfolding(crate::specs::Leaves::is_leaf_text))]
pub(crate) fn is_leaf_text(kind: Kind, text: &[u8]) -> bool
    ensures { result ≡ specs.is_leaf_text kind text.now }
{
    let begins = begins_of(kind);
    let Some(rest) = after(text, begins) else {
        return false;
    };
    has(has_only_these(kind), bytes_of(kind), rest)
}
