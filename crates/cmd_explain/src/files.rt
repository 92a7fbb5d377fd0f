//! Why a file was not read or written.

ghost use Rattle.std.specs.Prelude.{◌≡◌, true, false, []};
ghost use Rattle.cmd_call.specs.Lines.{SaysLines};

use crate::asking::Why;
use crate::lines::{explain_words, put_words};
use cmd_call::Hears;
use crew_refusals::words_of;
use deftable::Bytes;
use file_disk::Disk;
use file_texts::{is_own, path_in, unread_cause};
use lint_table::{Page, keys};
use std::alloc::Global;
use std::io;

/// Writes the line `acrun: NAME: CAUSE` with the words of an error, if it is asked.
#[tactic(auto, using(cmd_call::proofs::Pages::says_nothing, crate::proofs::Pages::asked_pages))]
pub fn explain_error<E: Hears>(
    alloc: Global,
    is_asked: bool,
    name: &[u8],
    error: &io::Error,
    errors: &mut E,
)
    ensures silent { is_asked ≡ false → errors.new ≡ errors.old }
    ensures paged { SaysLines E.contents E.has_failed errors.old errors.new is_asked [] }
{
    if is_asked {
        if let Ok(words) = words_of(alloc, name, error) {
            put_words(alloc, words.as_slice(), errors);
        }
    }
}

/// Writes what to do about a source with an old name. If memory runs out, writes nothing.
#[tactic(auto, using(cmd_call::proofs::Pages::says_nothing))]
fn put_old_name<E: Hears>(alloc: Global, errors: &mut E)
    ensures paged { SaysLines E.contents E.has_failed errors.old errors.new true [] }
{
    let mut page = Page::new(alloc);
    page.put(keys::OLD_SOURCE_NAME, &[]);
    if let Ok(words) = page.message() {
        put_words(alloc, words.as_slice(), errors);
    }
}

/// Says that a source has the name that Autoconf used before `configure.ac`, if the path is that of
/// a source and such a file is beside it.
#[tactic(auto, using(cmd_call::proofs::Pages::says_nothing))]
fn explain_old_name<D: Disk, E: Hears>(alloc: Global, disk: &D, path: &[u8], errors: &mut E)
    ensures paged { SaysLines E.contents E.has_failed errors.old errors.new true [] }
{
    let Some(front) = path.strip_suffix(b"configure.ac") else {
        return;
    };
    let Ok(old) = Bytes::concat(alloc, &[front, b"configure.in"]) else {
        return;
    };
    if unread_cause(disk, old.as_slice()).is_none() {
        put_old_name(alloc, errors);
    }
}

/// Says why the file at a path was not read, and whether a source beside it has an old name.
fn put_unread<D: Disk, E: Hears>(
    alloc: Global,
    disk: &D,
    path: &[u8],
    name: &[u8],
    error: &io::Error,
    errors: &mut E,
)
    ensures paged { SaysLines E.contents E.has_failed errors.old errors.new true [] }
{
    explain_error(alloc, true, name, error, errors);
    explain_old_name(alloc, disk, path, errors);
}

/// Says why the file at a path was not read, if it is asked: `acrun: NAME: CAUSE`. The file is
/// looked at once more for that, so if it can be read now, nothing is said. If it is a
/// `configure.ac` and a `configure.in` is beside it, one more line says so (own).
#[tactic(auto, using(cmd_call::proofs::Pages::says_nothing, crate::proofs::Pages::asked_pages))]
pub fn explain_file<D: Disk, E: Hears>(
    alloc: Global,
    disk: &D,
    is_asked: bool,
    path: &[u8],
    name: &[u8],
    errors: &mut E,
)
    ensures silent { is_asked ≡ false → errors.new ≡ errors.old }
    ensures paged { SaysLines E.contents E.has_failed errors.old errors.new is_asked [] }
{
    if is_asked {
        if let Some(error) = unread_cause(disk, path) {
            put_unread(alloc, disk, path, name, &error, errors);
        }
    }
}

/// Says why a name is refused that a run has for itself, if it is asked.
pub fn explain_own<E: Hears>(alloc: Global, is_asked: bool, errors: &mut E)
    ensures silent { is_asked ≡ false → errors.new ≡ errors.old }
    ensures paged { SaysLines E.contents E.has_failed errors.old errors.new is_asked [] }
{
    let words = b"the checks of a run make files whose names begin with conftest";
    explain_words(alloc, is_asked, words, errors);
}

/// Says why the template of this name was not read, if it is asked: `acrun: PATH: CAUSE`, as
/// [`explain_file`] does, with the path at which it was looked for; or that a run has the path for
/// itself.
#[tactic(auto, using(cmd_call::proofs::Pages::says_nothing))]
pub fn explain_template<D: Disk, E: Hears>(
    alloc: Global,
    disk: &D,
    why: &Why<'_>,
    name: &[u8],
    errors: &mut E,
)
    ensures silent { why.now.is_asked ≡ false → errors.new ≡ errors.old }
    ensures paged { SaysLines E.contents E.has_failed errors.old errors.new why.now.is_asked [] }
{
    if let Ok(path) = path_in(alloc, why.srcdir, name) {
        let path = path.as_slice();
        match is_own(disk, path) {
            Ok(true) => explain_own(alloc, why.is_asked, errors),
            _ => explain_file(alloc, disk, why.is_asked, path, path, errors),
        }
    }
}
