//! The directories of PATH (Autoconf's manual, "Generic Programs").

ghost use Rattle.std.specs.Prelude.{◌≡◌, IfOk, codes, map, take};
ghost use Rattle.meaning.specs.Directories.{ends_empty, directory_of, directories_of, without_last_empty};
ghost use Rattle.meaning.specs.State.{value_or_empty};

use deftable::{Bytes, Texts};
use run_state::Store;
use std::alloc::{AllocError, Global};
use text_cut::parts;

/// The largest number of directories that a search tries (own).
const MOST_DIRECTORIES: usize = 65_536;

/// Returns whether the last part is empty.
fn ends_empty(parts: &[&[u8]]) -> bool
    ensures { result ≡ ends_empty (map (λ part. part.now) parts.now) }
{
    let Some(last) = parts.len().checked_sub(1) else {
        return false;
    };
    parts[last].is_empty()
}

/// Returns the parts without an empty last one.
fn without_last_empty<'a, 'b>(parts: &'b [&'a [u8]]) -> &'b [&'a [u8]]
    ensures { map (λ p. p.now) result.now ≡ without_last_empty (map (λ p. p.now) parts.now) }
{
    if ends_empty(parts) {
        return &parts[..parts.len().saturating_sub(1)];
    }
    parts
}

/// Returns the first 65,536 parts.
fn within<'a, 'b>(parts: &'b [&'a [u8]]) -> &'b [&'a [u8]]
    ensures { result.now ≡ take 65536 parts.now }
{
    if parts.len() > MOST_DIRECTORIES {
        return &parts[..MOST_DIRECTORIES];
    }
    parts
}

/// Returns a directory as it is put before a name: with a slash at its end, and `./` if it is
/// empty.
fn directory_of(alloc: Global, part: &[u8]) -> Result<Bytes, AllocError>
    ensures { IfOk result (λ f. f ≡ directory_of part.now) }
{
    if part.is_empty() {
        return Bytes::from_slice(alloc, b"./");
    }
    let mut directory = Vec::from_slice(alloc, part)?;
    if !part.ends_with(b"/") {
        directory.push(b'/')?;
    }
    Ok(Bytes::from_vec(directory))
}

fn directories_in(alloc: Global, parts: &[&[u8]]) -> Result<Vec<Bytes>, AllocError>
    ensures { IfOk result (λ v. v.items ≡ map directory_of (map (λ part. part.now) parts.now)) }
{
    let mut directories = Vec::new(alloc);
    for part in parts {
        directories.push(directory_of(alloc, part)?)?;
    }
    Ok(directories)
}

/// Returns the directories of a path.
fn directories_of(alloc: Global, path: &[u8]) -> Result<Texts, AllocError>
    ensures { IfOk result (λ f. f ≡ directories_of path.now) }
{
    let parts = parts(alloc, path, b':')?;
    let directories = directories_in(alloc, within(without_last_empty(parts.as_slice())))?;
    Ok(Texts::from_vec(directories))
}

/// Returns the directories of PATH.
pub(crate) fn path_directories(alloc: Global, store: &Store) -> Result<Texts, AllocError>
    ensures { IfOk result (λ f. f ≡ directories_of (value_or_empty store.now (codes "PATH"))) }
{
    let path = store.value_or_empty(alloc, b"PATH")?;
    directories_of(alloc, path.as_slice())
}
