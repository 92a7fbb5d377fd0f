//! Names of files.

ghost use Rattle.std.specs.Prelude.{◌≡◌, ◌∷◌, ◌++◌, IfOk, IfSome, IfNone, string_bytes};
ghost use Rattle.std.specs.Option.{option_copied};
ghost use Rattle.file_texts.specs.Names as meant;
ghost use Rattle.file_texts.specs.Names.{IsFileName, has_nul};

use deftable::Bytes;
use std::alloc::{AllocError, Global};
use std::io::{self, ErrorKind};
use std::str;

/// Returns the name of a file in a directory: `directory`, a slash, and `name`. If `directory` is
/// empty, the name begins with the slash.
///
/// # Errors
///
/// Fails only if memory runs out.
pub fn path_in(alloc: Global, directory: &[u8], name: &[u8]) -> Result<Bytes, AllocError>
    ensures { IfOk result (λ path. path ≡ directory.now ++ 47 ∷ name.now) }
{
    let mut path = Vec::from_slice(alloc, directory)?;
    path.push(b'/')?;
    path.extend_from_slice(name)?;
    Ok(Bytes::from_vec(path))
}

fn has_nul(name: &[u8]) -> bool
    ensures { result ≡ has_nul name.now }
{
    name.iter().any(|byte| *byte == 0)
}

/// Returns the name as a text, or `None` if no file can have it.
pub(crate) fn file_name(name: &[u8]) -> Option<&str>
    ensures name { IfSome result (λ _. IsFileName name.now) }
    ensures text { IfSome result (λ text. text.now ≡ name.now) }
    ensures no_name { IfNone result (IsFileName name.now → ⊥) }
{
    if has_nul(name) {
        return None;
    }
    match str::from_utf8(name) {
        Ok(text) => Some(text),
        Err(_) => None,
    }
}

/// Returns the error of a name that isn't the name of a file here: one with a NUL, or one that is not
/// UTF-8, which a file can have, but the program can't ask for.
pub(crate) fn no_name(name: &[u8]) -> io::Error {
    let cause = if has_nul(name) {
        "no file can have this name"
    } else {
        "the name is not UTF-8"
    };
    io::Error::new(ErrorKind::InvalidFilename, cause)
}

/// Returns the directory of a file: what is before the last slash of its name. If the name has no
/// slash, returns `None`.
pub(crate) fn directory_of(name: &str) -> Option<&str>
    ensures { option_copied result ≡ meant.directory_of name.now }
{
    match name.rfind('/') {
        Some(at) => Some(&name[..at]),
        None => None,
    }
}

/// Returns the front of a name up to its last slash, with it. If the name has no slash, it is
/// empty.
pub(crate) fn front_of(name: &str) -> &str
    ensures { result.now ≡ meant.front_of name.now }
{
    match name.rfind('/') {
        Some(at) => &name[..at + 1],
        None => "",
    }
}

/// Returns the name of this number for a new file in the directory of another.
pub(crate) fn temporary(alloc: Global, name: &str, number: u32) -> Result<String, AllocError>
    ensures { IfOk result (λ other. string_bytes other ≡ meant.temporary name.now number) }
{
    let front = front_of(name);
    format!(in alloc; "{front}acrun-{number}.tmp")
}

/// Returns what is after the last slash of a name, or the whole of it.
pub(crate) fn last_of(name: &str) -> &str
    ensures { result.now ≡ meant.last_of name.now }
{
    match name.rfind('/') {
        Some(at) => &name[at + 1..],
        None => name,
    }
}

/// Returns the directory in which a name is looked up: its front, or `.` if it has no slash.
pub(crate) fn home_of(name: &str) -> &str
    ensures { result.now ≡ meant.home_of name.now }
{
    match name.rfind('/') {
        Some(at) => &name[..at + 1],
        None => ".",
    }
}

/// Returns whether a name begins with a slash.
pub(crate) fn is_absolute(name: &str) -> bool
    ensures { result ≡ meant.is_absolute name.now }
{
    name.as_bytes().starts_with(b"/")
}
