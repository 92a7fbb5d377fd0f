//! Writes a name and a version that are given from outside into AC_INIT.

ghost use Rattle.std.specs.Prelude.{◌≡◌, ◌≤◌, ◌<◌, ◌+◌, ◌++◌, true, length, map, slice_range, codes, Contains, IfOk, IfSome, IsTrue};
ghost use Rattle.std.specs.Char.{is_ascii_digit};
ghost use Rattle.std.specs.List.{list_all, list_any};
ghost use Rattle.ac_calls.specs.Calls.{calls_in, macro_call_of};
ghost use Rattle.port_definitions.specs.Defined.{EndsWord};
ghost use Rattle.port_spots.specs.Put.{is_space_or_return};
ghost use Rattle.port_calls.specs.Stated as specs;

use crate::knowing::known_of;
use ac_calls::{CallAt, calls_of};
use lint_text::from;
use port_definitions::{ends_word, has_name, inner, is_of_name};
use port_passes::{can_be_made, is_init};
use port_setup::{Title, first_two};
use port_spots::{CallWalk, Spot, difference, line_indent, put_text};
use std::alloc::{AllocError, Global};

/// The name and the version of a package.
#[derive(Clone, Copy)]
pub struct Package<'a> {
    pub name: &'a [u8],
    pub version: &'a [u8],
}

/// Returns whether the byte may be in a name or a version that is kept.
fn is_kept_byte(byte: u8) -> bool
    ensures { result ≡ specs.is_kept_byte byte }
{
    !(byte == b'\n' || byte == b'$' || byte == b'`' || byte == b'[' || byte == b']')
}

/// Returns whether a text has nothing but such bytes.
fn are_kept_bytes(word: &[u8]) -> bool
    ensures { result ≡ list_all specs.is_kept_byte word.now }
{
    word.iter().all(|byte| is_kept_byte(*byte))
}

/// Returns whether a parenthesis is right after a name at an offset.
fn is_opened_at(word: &[u8], at: usize) -> bool
    requires { at < length word.now }
    ensures { IsTrue result → specs.IsOpenedAt word.now at }
{
    0 < at && word[at] == b'(' && is_of_name(word[at - 1])
}

/// Returns whether a macro is called in a text.
fn has_macro(word: &[u8]) -> bool
    ensures { IsTrue result → specs.HasMacro word.now }
{
    for at in 0..word.len() {
        if is_opened_at(word, at) {
            return true;
        }
    }
    false
}

/// Returns whether a text ends in the name of a macro that defines another one, with a parenthesis
/// and perhaps a bracket.
fn is_defining(text: &[u8]) -> bool
    ensures { result ≡ specs.is_defining text.now }
{
    text.ends_with(b"define(")
        || text.ends_with(b"define([")
        || text.ends_with(b"DEFUN(")
        || text.ends_with(b"DEFUN([")
}

/// Returns whether a name is at an offset, and does not go on.
fn is_name_at(text: &[u8], name: &[u8], at: usize) -> bool
    requires { at ≤ length text.now }
    ensures name { IsTrue result → slice_range text.now at (at + length name.now) ≡ name.now }
    ensures ends { IsTrue result → EndsWord text.now (at + length name.now) }
{
    has_name(text, at, name) && ends_word(text, at + name.len())
}

/// Returns whether the source defines a macro of this name at an offset.
fn is_defined_at(text: &[u8], name: &[u8], at: usize) -> bool
    requires { at ≤ length text.now }
    ensures { IsTrue result → specs.IsDefinedAt text.now name.now at }
{
    is_name_at(text, name, at) && is_defining(&text[0..at])
}

/// Returns the offset at which the source defines a macro of this name, if it does.
fn defined_at(text: &[u8], name: &[u8]) -> Option<usize>
    ensures { IfSome result (λ at. specs.IsDefinedAt text.now name.now at) }
{
    for at in 0..text.len() {
        if is_defined_at(text, name, at) {
            return Some(at);
        }
    }
    None
}

/// Returns the offset after the name that begins at an offset.
fn name_end(word: &[u8], start: usize) -> usize {
    let len = from(word, start)
        .iter()
        .take_while(|byte| is_of_name(**byte))
        .count();
    start.saturating_add(len)
}

/// Returns whether a name begins at an offset, and the source defines a macro of it.
fn names_at(text: &[u8], word: &[u8], start: usize) -> bool
    ensures { IsTrue result → specs.NamesMacro text.now word.now }
{
    let end = name_end(word, start);
    if end <= start || word.len() < end || 0 < start && is_of_name(word[start - 1]) {
        return false;
    }
    defined_at(text, &word[start..end]).is_some()
}

/// Returns whether a text has the name of a macro that the source defines.
fn names_macro(text: &[u8], word: &[u8]) -> bool
    ensures { IsTrue result → specs.NamesMacro text.now word.now }
{
    for start in 0..word.len() {
        if names_at(text, word, start) {
            return true;
        }
    }
    false
}

/// Returns whether a name or a version of AC_INIT is not kept.
fn is_unkept(text: &[u8], word: &[u8]) -> bool
    ensures { IsTrue result → specs.IsUnkept text.now word.now }
{
    word.is_empty() || !are_kept_bytes(word) || has_macro(word) || names_macro(text, word)
}

/// Returns whether a text has a digit.
fn has_digit(word: &[u8]) -> bool
    ensures { result ≡ list_any is_ascii_digit word.now }
{
    word.iter().any(|byte| byte.is_ascii_digit())
}

/// Returns whether AC_INIT has no name and version that are kept.
fn lacks_title(text: &[u8], name: &[u8], version: &[u8]) -> bool
    ensures { IsTrue result → specs.LacksTitle text.now name.now version.now }
{
    if is_unkept(text, name) {
        return true;
    }
    if is_unkept(text, version) {
        return true;
    }
    !has_digit(version)
}

/// Returns the name and the version of a call of AC_INIT, if they aren't both kept.
fn untitled(text: &[u8], call: &CallAt) -> Option<Title>
    ensures { IfSome result (λ t.
        specs.IsUntitled text.now (macro_call_of call.now) t.name t.version) }
{
    let title = first_two(call)?;
    if is_init(text, call)
        && lacks_title(text, inner(text, title.name), inner(text, title.version))
    {
        Some(title)
    } else {
        None
    }
}

/// Where the first call of AC_INIT is that is in no argument of another call.
#[derive(Clone, Copy)]
struct InitSpot {
    index: usize,
    spot: Spot,
}

/// Returns where the first call of AC_INIT is, if there is one.
fn init_in(text: &[u8], calls: &[CallAt]) -> Option<InitSpot> {
    let mut walk = CallWalk::new();
    for index in 0..calls.len() {
        let spot = walk.spot_of(text, &calls[index]);
        if spot.is_at_top && is_init(text, &calls[index]) {
            return Some(InitSpot { index, spot });
        }
    }
    None
}

/// Returns whether a name and a version can be written: they are others than those of the call, and
/// the source defines no macro of a word of them.
fn can_be_stated(text: &[u8], naming: Package<'_>, title: Title) -> bool {
    let is_other = inner(text, title.name) != naming.name
        || inner(text, title.version) != naming.version;
    is_other && !names_macro(text, naming.name) && !names_macro(text, naming.version)
}

/// Returns what the comment above AC_INIT says.
fn said() -> &'static [u8]
    ensures { result.now ≡ codes " the name and the version are those of --package" }
{
    b" the name and the version are those of --package"
}

/// Returns the front of a call of AC_INIT with a name and a version.
fn init_text(alloc: Global, name: &[u8], version: &[u8]) -> Result<Vec<u8>, AllocError>
    ensures { IfOk result (λ v. v.items ≡ specs.init_of name.now version.now) }
{
    let mut out = Vec::from_slice(alloc, b"AC_INIT([")?;
    out.extend_from_slice(name)?;
    out.extend_from_slice(b"], [")?;
    out.extend_from_slice(version)?;
    out.push(b']')?;
    Ok(out)
}

/// Returns the same below a comment.
fn stated_init(
    alloc: Global,
    indent: &[u8],
    name: &[u8],
    version: &[u8],
) -> Result<Vec<u8>, AllocError>
    ensures { IfOk result (λ v. v.items ≡ specs.stated_init indent.now name.now version.now) }
{
    let mut out = difference(alloc, b"AC_INIT", said())?;
    let init = init_text(alloc, name, version)?;
    put_text(&mut out, indent, init.as_slice())?;
    Ok(out)
}

/// Returns the text with another one in the place of what is between two offsets.
fn exchanged(
    alloc: Global,
    text: &[u8],
    start: usize,
    end: usize,
    put: &[u8],
) -> Result<Vec<u8>, AllocError>
    requires { (start ≤ end) × (end ≤ length text.now) }
    ensures { IfOk result (λ v.
        v.items
        ≡ (slice_range text.now 0 start ++ put.now) ++ slice_range text.now end (length text.now)) }
{
    let mut out = Vec::from_slice(alloc, &text[0..start])?;
    out.extend_from_slice(put)?;
    out.extend_from_slice(&text[end..text.len()])?;
    Ok(out)
}

/// Returns the text in which a call of AC_INIT has this name and this version.
fn with_title(
    alloc: Global,
    name: &[u8],
    version: &[u8],
    text: &[u8],
    indent: &[u8],
    call: &CallAt,
    title: Title,
) -> Result<Option<Vec<u8>>, AllocError>
    requires there { Contains (calls_in text.now) (macro_call_of call.now) }
    requires untitled { specs.IsUntitled text.now (macro_call_of call.now) title.name title.version }
    requires indent { list_all is_space_or_return indent.now ≡ true }
    ensures { IfOk result (λ o.
        IfSome o (λ v. specs.IsStated name.now version.now text.now v.items)) }
{
    let end = title.version.end;
    if end < call.start || text.len() < end {
        return Ok(None);
    }
    let put = stated_init(alloc, indent, name, version)?;
    let out = exchanged(alloc, text, call.start, end, put.as_slice())?;
    Ok(Some(out))
}

/// Returns the text in which a call of AC_INIT has this name and this version, unless it has ones
/// that are kept, or a comment can't be put above it.
fn with_call(
    alloc: Global,
    naming: Package<'_>,
    text: &[u8],
    calls: &[CallAt],
    spot: Spot,
    call: &CallAt,
) -> Result<Option<Vec<u8>>, AllocError>
    requires there { Contains (calls_in text.now) (macro_call_of call.now) }
    ensures { IfOk result (λ o.
        IfSome o (λ v.
        specs.IsStated naming.entry.name.now naming.entry.version.now text.now v.items)) }
{
    let Some(title) = untitled(text, call) else {
        return Ok(None);
    };
    if !can_be_stated(text, naming, title) || !can_be_put(alloc, text, calls, spot, call)? {
        return Ok(None);
    }
    let indent = line_indent(text, spot);
    with_title(
        alloc,
        naming.name,
        naming.version,
        text,
        indent,
        call,
        title,
    )
}

/// Returns whether a text below a comment can be put in the place of a call.
fn can_be_put(
    alloc: Global,
    text: &[u8],
    calls: &[CallAt],
    spot: Spot,
    call: &CallAt,
) -> Result<bool, AllocError> {
    let known = known_of(alloc, text, calls)?;
    Ok(can_be_made(&known, text, spot, call))
}

/// Returns the text in which the call of this index has this name and this version.
fn with_found(
    alloc: Global,
    naming: Package<'_>,
    text: &[u8],
    calls: &[CallAt],
    spot: Spot,
    i: usize,
) -> Result<Option<Vec<u8>>, AllocError>
    requires calls { map macro_call_of calls.now ≡ calls_in text.now }
    ensures { IfOk result (λ o.
        IfSome o (λ v.
        specs.IsStated naming.entry.name.now naming.entry.version.now text.now v.items)) }
{
    if calls.len() <= i {
        return Ok(None);
    }
    with_call(alloc, naming, text, calls, spot, &calls[i])
}

/// Returns the text in which AC_INIT has this name and this version, below a comment, if the first
/// call of it has two arguments, of which one is not kept: it is empty, acrun doesn't read it, or it
/// calls a macro. A version without a digit isn't kept either. Returns `None` if nothing changes.
///
/// # Errors
///
/// Fails only if memory runs out.
pub fn with_package(
    alloc: Global,
    naming: Package<'_>,
    text: &[u8],
) -> Result<Option<Vec<u8>>, AllocError>
    // One call of AC_INIT, which has no name and version that are kept, is another. All else is
    // copied.
    ensures stated { IfOk result (λ o.
        IfSome o (λ v.
        specs.IsStated naming.entry.name.now naming.entry.version.now text.now v.items)) }
{
    let calls = calls_of(alloc, text)?;
    let Some(init) = init_in(text, calls.as_slice()) else {
        return Ok(None);
    };
    with_found(alloc, naming, text, calls.as_slice(), init.spot, init.index)
}
