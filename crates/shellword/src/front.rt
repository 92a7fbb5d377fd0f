//! The front of a shell text: its first byte, or the few bytes that are read together.

ghost use Rattle.std.specs.Prelude.{◌≡◌, ◌+◌, ◌<◌, ◌≤◌, ◌∷◌, Some, None, length, IfOk, IfErr};
ghost use Rattle.shellword.specs.Contexts.{is_special, escapes, escapes_front, closes_brace, byte_in, escaped_part};
ghost use Rattle.shellword.specs.Text.{name_len, stands_alone, follows_dollar};
ghost use Rattle.shellword.specs.declared.fault.ShellFault.TheVariants.{OutOfMemory};
ghost use Rattle.shellword.specs.declared.part.Part.TheVariants.{Variable};
ghost use Rattle.shellword.specs.Faults.{IsWordFault};
ghost use Rattle.shellword.specs.Gives.{Gives, Fails};
ghost use Rattle.shellword.specs.Scan.{front, front_of, backslash_front, dollar_front, braced_front, quote_context};

use crate::fault::ShellFault;
use crate::part::Part;
use deftable::Bytes;
use deftable::shell_name::{is_name_start, name_bytes_len};
use std::alloc::Global;

/// The context of a byte, which decides how it is read.
#[derive(Clone, Copy)]
pub(crate) enum Context {
    /// In a word, outside quotes.
    Bare,
    /// In single quotes.
    Single,
    /// In double quotes.
    Double,
    /// In a here text.
    Here,
}

/// The front of a text: the part that it produces, if any; its length; and the context of the next
/// byte.
#[derive(Drop)]
pub(crate) struct WordFront {
    pub(crate) part: Option<Part>,
    pub(crate) len: usize,
    pub(crate) context: Context,
}

/// Returns the length of the longest variable name at the front.
fn name_len(text: &[u8]) -> usize
    ensures value { result ≡ name_len text.now }
    ensures within { result ≤ length text.now }
{
    match text.split_first() {
        Some((first, rest)) if is_name_start(*first) => name_bytes_len(rest) + 1,
        _ => 0,
    }
}

/// Returns whether the byte has a special meaning in this context.
fn is_special(context: Context, byte: u8) -> bool
    ensures { result ≡ is_special context byte }
{
    match context {
        Context::Bare => {
            byte == b'\'' || byte == b'"' || byte == b'\\' || byte == b'$' || byte == b'`'
        }
        Context::Single => byte == b'\'',
        Context::Double => byte == b'"' || byte == b'\\' || byte == b'$' || byte == b'`',
        Context::Here => byte == b'\\' || byte == b'$' || byte == b'`',
    }
}

/// Returns whether a backslash before the byte is dropped.
fn escapes(context: Context, byte: u8) -> bool
    ensures { result ≡ escapes context byte }
{
    match context {
        Context::Bare => true,
        Context::Single => false,
        Context::Double => byte == b'$' || byte == b'`' || byte == b'"' || byte == b'\\',
        Context::Here => byte == b'$' || byte == b'`' || byte == b'\\' || byte == b'\n',
    }
}

fn byte_in(context: Context, byte: u8) -> Part
    ensures { result ≡ byte_in context byte }
{
    match context {
        Context::Bare | Context::Here => Part::Plain(byte),
        Context::Single | Context::Double => Part::Quoted(byte),
    }
}

/// Returns the part that a byte after a dropped backslash produces: the byte itself, but none for a
/// newline in a here text.
fn escaped_part(context: Context, byte: u8) -> Option<Part>
    ensures { result ≡ escaped_part context byte }
{
    match context {
        Context::Here if byte == b'\n' => None,
        _ => Some(Part::Quoted(byte)),
    }
}

/// Reads the front of a text that is a backslash and then `rest`.
fn read_backslash(context: Context, rest: &[u8]) -> WordFront
    ensures value { result ≡ backslash_front context rest.now }
    ensures not_empty { 0 < result.len }
    ensures within { result.len ≤ length rest.now + 1 }
{
    match rest.split_first() {
        Some((byte, _)) if escapes(context, *byte) => WordFront {
            part: escaped_part(context, *byte),
            len: 2,
            context,
        },
        _ => WordFront {
            part: Some(byte_in(context, b'\\')),
            len: 1,
            context,
        },
    }
}

/// Returns whether a `$` before `rest` is an ordinary byte.
fn stands_alone(rest: &[u8]) -> bool
    ensures { result ≡ stands_alone rest.now }
{
    match rest.split_first() {
        Some((byte, _)) => !(is_name_start(*byte) || follows_dollar(*byte)),
        None => true,
    }
}

/// Returns whether a `$` before the byte begins a parameter or an expansion that isn't read here.
fn follows_dollar(byte: u8) -> bool
    ensures { result ≡ follows_dollar byte }
{
    byte.is_ascii_digit()
        || byte == b'@'
        || byte == b'*'
        || byte == b'#'
        || byte == b'?'
        || byte == b'!'
        || byte == b'-'
        || byte == b'$'
        || byte == b'('
        || byte == b'{'
}

fn closes_brace(text: &[u8]) -> bool
    ensures { result ≡ closes_brace text.now }
{
    match text.split_first() {
        Some((byte, _)) => *byte == b'}',
        None => false,
    }
}

/// Returns the front of a variable with this name, written with `around` other bytes.
fn variable_front(
    alloc: Global,
    name: &[u8],
    around: usize,
    context: Context,
) -> Result<WordFront, ShellFault>
    requires { around < 4 }
    ensures ok { IfOk result (λ f.
        f ≡ front (Some (Variable name.now)) (length name.now + around) context) }
    ensures err { IfErr result (λ e. e ≡ OutOfMemory) }
{
    let len = name.len() + around;
    let name = Bytes::from_slice(alloc, name)?;
    Ok(WordFront {
        part: Some(Part::Variable(name)),
        len,
        context,
    })
}

/// Reads the front of a text that is `$` and then `rest`, which doesn't begin with a name. Only
/// `${name}` is read.
fn read_braced(
    alloc: Global,
    at: usize,
    context: Context,
    rest: &[u8],
) -> Result<WordFront, ShellFault>
    ensures value { Gives (λ f. f) result (braced_front at context rest.now) }
    ensures fault { IfErr result (IsWordFault at) }
    ensures within { IfOk result (λ f. (0 < f.len) × (f.len ≤ length rest.now + 1)) }
{
    let Some((first, inside)) = rest.split_first() else {
        return Err(ShellFault::BadWord(at));
    };
    let len = name_len(inside);
    if *first == b'{' && 0 < len && closes_brace(&inside[len..]) {
        variable_front(alloc, &inside[..len], 3, context)
    } else {
        Err(ShellFault::BadWord(at))
    }
}

/// Reads the front of a text at offset `at` that is `$` and then `rest`.
fn read_dollar(
    alloc: Global,
    at: usize,
    context: Context,
    rest: &[u8],
) -> Result<WordFront, ShellFault>
    ensures value { Gives (λ f. f) result (dollar_front at context rest.now) }
    ensures fault { IfErr result (IsWordFault at) }
    ensures within { IfOk result (λ f. (0 < f.len) × (f.len ≤ length rest.now + 1)) }
{
    let len = name_len(rest);
    if 0 < len {
        variable_front(alloc, &rest[..len], 1, context)
    } else if stands_alone(rest) {
        Ok(WordFront {
            part: Some(byte_in(context, b'$')),
            len: 1,
            context,
        })
    } else {
        read_braced(alloc, at, context, rest)
    }
}

/// Returns the context after a quote that opens or closes.
fn quote_context(context: Context, byte: u8) -> Context
    ensures { result ≡ quote_context context byte }
{
    match context {
        Context::Bare if byte == b'\'' => Context::Single,
        Context::Bare => Context::Double,
        _ => Context::Bare,
    }
}

/// Reads the front of a text at offset `at` that is `byte` and then `rest`.
#[tactic(auto, unfolding(crate::specs::Scan::front_of))]
pub(crate) fn read_front(
    alloc: Global,
    at: usize,
    context: Context,
    byte: u8,
    rest: &[u8],
) -> Result<WordFront, ShellFault>
    ensures value { Gives (λ f. f) result (front_of at context byte rest.now) }
    ensures fault { IfErr result (IsWordFault at) }
    ensures within { IfOk result (λ f. (0 < f.len) × (f.len ≤ length rest.now + 1)) }
{
    if !is_special(context, byte) {
        return Ok(WordFront {
            part: Some(byte_in(context, byte)),
            len: 1,
            context,
        });
    }
    match byte {
        b'\\' => Ok(read_backslash(context, rest)),
        b'$' => read_dollar(alloc, at, context, rest),
        b'`' => Err(ShellFault::BadWord(at)),
        _ => Ok(WordFront {
            part: None,
            len: 1,
            context: quote_context(context, byte),
        }),
    }
}
