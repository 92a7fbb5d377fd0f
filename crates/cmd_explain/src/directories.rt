//! Directories that a configure script of Autoconf refuses.

ghost use Rattle.std.specs.Prelude.{◌≡◌, true, false, []};
ghost use Rattle.cmd_call.specs.Lines.{SaysLines};

use crate::checks::put_cut;
use crate::lines::put_words;
use cmd_call::Hears;
use deftable::Vars;
use options_line::{Directory, directories};
use std::alloc::{AllocError, Global};

/// Returns whether a path begins as one of a drive does, `C:/`.
fn has_drive(path: &[u8]) -> bool {
    path.len() > 2 && path[1] == b':' && (path[2] == b'/' || path[2] == b'\\')
}

/// Returns whether the value of a directory's variable is refused: it is not an absolute directory,
/// nor does it begin with a variable. A prefix may be empty or `NONE` (the test of a script that
/// Autoconf 2.71 makes).
fn is_refused(directory: Directory, value: &[u8]) -> bool {
    let is_absolute = match value.first() {
        Some(first) => *first == b'/' || *first == b'\\' || *first == b'$',
        None => false,
    };
    let is_unset = value.is_empty() || value == b"NONE".as_slice();
    !is_absolute && !has_drive(value) && !(is_unset && is_prefix(directory))
}

/// Returns whether a directory is a prefix.
fn is_prefix(directory: Directory) -> bool {
    match directory {
        Directory::Prefix | Directory::ExecPrefix => true,
        _ => false,
    }
}

/// Returns the name of the option that sets a directory.
fn option_of(directory: Directory) -> &'static [u8] {
    match directory {
        Directory::ExecPrefix => b"exec-prefix",
        other => other.variable(),
    }
}

/// Returns what is said of a directory that is refused, by its option.
fn refused_words(alloc: Global, name: &[u8], value: &[u8]) -> Result<Vec<u8>, AllocError> {
    let mut out = Vec::from_slice(alloc, b"--")?;
    out.extend_from_slice(name)?;
    out.extend_from_slice(b"=")?;
    put_cut(alloc, &mut out, value)?;
    out.extend_from_slice(
        b" is not an absolute directory: a configure script of Autoconf refuses it",
    )?;
    Ok(out)
}

/// Says of a directory with this value that a configure script of Autoconf refuses it, if it does.
/// If memory runs out, writes nothing.
#[tactic(auto, using(cmd_call::proofs::Pages::says_nothing))]
fn put_directory<E: Hears>(alloc: Global, directory: Directory, value: &[u8], errors: &mut E)
    ensures paged { SaysLines E.contents E.has_failed errors.old errors.new true [] }
{
    if is_refused(directory, value) {
        if let Ok(words) = refused_words(alloc, option_of(directory), value) {
            put_words(alloc, words.as_slice(), errors);
        }
    }
}

/// Says of each directory in these variables, if it is asked, that a configure script of Autoconf
/// refuses it, if it does (own).
#[tactic(auto, using(cmd_call::proofs::Pages::says_nothing, crate::proofs::Pages::asked_pages))]
pub fn explain_directories<E: Hears>(alloc: Global, is_asked: bool, vars: &Vars, errors: &mut E)
    ensures silent { is_asked ≡ false → errors.new ≡ errors.old }
    ensures paged { SaysLines E.contents E.has_failed errors.old errors.new is_asked [] }
{
    if !is_asked {
        return;
    }
    'directories: for directory in directories() {
        let value = vars.value_or_empty(directory.variable());
        put_directory(alloc, *directory, value, errors);
    }
}
