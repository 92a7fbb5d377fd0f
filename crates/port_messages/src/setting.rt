//! Lines with a command that becomes an assignment or nothing: an `unset` and an `export`.

ghost use Rattle.std.specs.Prelude.{◌≡◌, ◌<◌, ◌∷◌, ◌++◌, [], true, length, slice_range, codes, IfOk, IfSome, OnOk, IsTrue};
ghost use Rattle.std.specs.List.{list_all};
ghost use Rattle.port_parts.specs.Words.{is_of_name};
ghost use Rattle.port_messages.specs.Told as specs;

use crate::lines::Line;
use port_breaks::rest_after;
use port_echo::is_one_word;
use port_parts::{is_variable, name_length};
use port_put::is_accepted;
use std::alloc::{AllocError, Global};

fn are_of_name(text: &[u8]) -> bool
    ensures { result ≡ list_all is_of_name text.now }
{
    text.iter().all(|byte| port_parts::is_of_name(*byte))
}

/// Returns whether a text is a name of letters, digits and `_`.
fn is_name(text: &[u8]) -> bool
    ensures { IsTrue result → (0 < length text.now) × (list_all is_of_name text.now ≡ true) }
{
    0 < text.len() && are_of_name(text)
}

/// Returns what is given to `unset`, if it is a name.
fn checked_name<'a>(command: &[u8], name: &'a [u8]) -> Option<&'a [u8]>
    requires { command.now ≡ codes "unset " ++ name.now }
    ensures { IfSome result (λ n. specs.Unsets command.now n.now) }
{
    let _ = command;
    if is_name(name) { Some(name) } else { None }
}

/// Returns the name of the variable that a command unsets, if it is one.
fn name_of(command: &[u8]) -> Option<&[u8]>
    ensures { IfSome result (λ n. specs.Unsets command.now n.now) }
{
    match rest_after(command, b"unset ") {
        Some(name) => checked_name(command, name),
        None => None,
    }
}

/// Returns an assignment of nothing to a variable.
fn cleared(alloc: Global, name: &[u8]) -> Result<Vec<u8>, AllocError>
    ensures { IfOk result (λ v. v.items ≡ name.now ++ 61 ∷ []) }
{
    let mut out = Vec::from_slice(alloc, name)?;
    out.push(b'=')?;
    Ok(out)
}

// ---- several names

fn is_of_names(byte: u8) -> bool
    ensures { result ≡ specs.is_of_names byte }
{
    port_parts::is_of_name(byte) || byte == b' '
}

/// Returns whether a text has bytes of names and spaces alone.
fn has_names_alone(text: &[u8]) -> bool
    ensures { result ≡ list_all specs.is_of_names text.now }
{
    text.iter().all(|byte| is_of_names(*byte))
}

/// Returns whether a text is names with spaces between them.
fn are_names(text: &[u8]) -> bool
    ensures { IsTrue result → specs.AreNames text.now }
{
    0 < text.len() && has_names_alone(text)
}

/// Appends a byte, or `= ` in the place of a space.
fn put_set_byte(out: &mut Vec<u8>, byte: u8) -> Result<(), AllocError>
    ensures { OnOk result (out.new.items ≡ out.old.items ++ specs.set_byte byte) }
{
    if byte == b' ' {
        return out.extend_from_slice(b"= ");
    }
    out.push(byte)?;
    Ok(())
}

/// Returns an assignment of nothing to each of some names.
#[tactic(auto, unfolding(crate::specs::Told::each_cleared))]
fn each_cleared(alloc: Global, names: &[u8]) -> Result<Vec<u8>, AllocError>
    ensures { IfOk result (λ v. v.items ≡ specs.each_cleared names.now) }
{
    let mut out = Vec::new(alloc);
    for byte in names {
        put_set_byte(&mut out, *byte)?;
    }
    out.push(b'=')?;
    Ok(out)
}

// ---- an assignment

/// Returns whether a text assigns a word to the variable of a name.
fn is_set_to(text: &[u8], name: &[u8], word: &[u8]) -> bool
    requires { specs.IsSetTo text.now name.now word.now }
    ensures { IsTrue result → specs.IsSet text.now }
{
    let _ = text;
    is_one_word(word) && is_variable(name)
}

/// Returns whether a text of a name and a rest assigns one word.
#[tactic(auto, using(crate::proofs::Telling::set_by))]
fn is_set_by(text: &[u8], name: &[u8], rest: &[u8]) -> bool
    requires { text.now ≡ name.now ++ rest.now }
    ensures { IsTrue result → specs.IsSet text.now }
{
    match rest_after(rest, b"=") {
        Some(word) => is_set_to(text, name, word),
        None => false,
    }
}

/// Returns whether a text that begins with a name of some length assigns one word.
fn is_plain_set(text: &[u8], length: usize) -> bool
    ensures { IsTrue result → specs.IsSet text.now }
{
    if text.len() < length {
        return false;
    }
    let (name, rest) = text.split_at(length);
    is_set_by(text, name, rest)
}

/// Returns whether a text of a bracket, a name and a rest assigns one word.
#[tactic(auto, using(crate::proofs::Telling::quoted_set_by))]
fn is_quoted_set_by(text: &[u8], inner: &[u8], name: &[u8], rest: &[u8]) -> bool
    requires text { text.now ≡ codes "[" ++ inner.now }
    requires inner { inner.now ≡ name.now ++ rest.now }
    ensures { IsTrue result → specs.IsSet text.now }
{
    let _ = inner;
    match rest_after(rest, b"]=") {
        Some(word) => is_set_to(text, name, word),
        None => false,
    }
}

/// Returns whether a text of a bracket and of what begins with a name of some length assigns one
/// word.
fn is_quoted_set(text: &[u8], inner: &[u8], length: usize) -> bool
    requires { text.now ≡ codes "[" ++ inner.now }
    ensures { IsTrue result → specs.IsSet text.now }
{
    if inner.len() < length {
        return false;
    }
    let (name, rest) = inner.split_at(length);
    is_quoted_set_by(text, inner, name, rest)
}

/// Returns whether a text assigns one word to a variable.
fn is_set(text: &[u8]) -> bool
    ensures { IsTrue result → specs.IsSet text.now }
{
    match rest_after(text, b"[") {
        Some(inner) => is_quoted_set(text, inner, name_length(inner)),
        None => is_plain_set(text, name_length(text)),
    }
}

// ---- the whole

/// Returns the assignment of nothing in the place of an `unset` of one variable.
fn unset_one(alloc: Global, command: &[u8]) -> Result<Option<Line>, AllocError>
    ensures { IfOk result (λ o.
        IfSome o (λ l. specs.Becomes command.now l.said.now l.put.items)) }
{
    let Some(name) = name_of(command) else {
        return Ok(None);
    };
    let put = cleared(alloc, name)?;
    let said = b"unset: the variable is empty";
    Ok(Some(Line { said, put }))
}

/// Returns assignments of nothing in the place of an `unset` of several variables, unless acrun
/// doesn't accept them.
fn unset_each(alloc: Global, command: &[u8]) -> Result<Option<Line>, AllocError>
    ensures { IfOk result (λ o.
        IfSome o (λ l. specs.Becomes command.now l.said.now l.put.items)) }
{
    let Some(names) = rest_after(command, b"unset ") else {
        return Ok(None);
    };
    if !are_names(names) {
        return Ok(None);
    }
    let put = each_cleared(alloc, names)?;
    let said = b"unset: the variables are empty";
    if is_accepted(alloc, put.as_slice())? {
        Ok(Some(Line { said, put }))
    } else {
        Ok(None)
    }
}

/// Returns what takes the place of an `export`: nothing for names, and an assignment for that.
fn exported(alloc: Global, command: &[u8]) -> Result<Option<Line>, AllocError>
    ensures { IfOk result (λ o.
        IfSome o (λ l. specs.Becomes command.now l.said.now l.put.items)) }
{
    let Some(given) = rest_after(command, b"export ") else {
        return Ok(None);
    };
    let said = b"export: no program that acrun starts sees the variable";
    if are_names(given) {
        let put = Vec::from_slice(alloc, b":")?;
        return Ok(Some(Line { said, put }));
    }
    if is_set(given) {
        let put = Vec::from_slice(alloc, given)?;
        return Ok(Some(Line { said, put }));
    }
    Ok(None)
}

/// Returns the assignment that takes the place of a command, or the command that does nothing, if
/// there is one.
pub(crate) fn silenced(alloc: Global, command: &[u8]) -> Result<Option<Line>, AllocError>
    ensures { IfOk result (λ o.
        IfSome o (λ l. specs.Becomes command.now l.said.now l.put.items)) }
{
    if let Some(line) = unset_one(alloc, command)? {
        return Ok(Some(line));
    }
    match unset_each(alloc, command)? {
        Some(line) => Ok(Some(line)),
        None => exported(alloc, command),
    }
}
