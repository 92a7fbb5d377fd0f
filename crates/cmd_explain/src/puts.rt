//! Why an output of a run was refused.

ghost use Rattle.std.specs.Prelude.{◌≡◌, true, false, []};
ghost use Rattle.cmd_call.specs.Lines.{SaysLines};

use crate::lines::put_words;
use crate::precious::Given;
use cmd_call::Hears;
use crew_refusals::shown;
use deftable::Bytes;
use file_disk::Disk;
use file_texts::unread_cause;
use lint_table::{Page, WordPart, keys};
use options::Settings;
use output_list::Output;
use std::alloc::{AllocError, Global};
use std::io::ErrorKind;

/// The end of a cause that another file of the run has the output's name.
const HELD: &[u8] = b": has the name of another file of this run";

/// The end of a cause that a directory of the output is something else.
const NO_DIRECTORY: &[u8] = b": Not a directory";

/// Returns a path without the current directory in front.
fn plain(path: &[u8]) -> &[u8] {
    path.strip_prefix(b"./").unwrap_or(path)
}

/// Returns whether a shown name is that of a file in a directory.
fn is_in(alloc: Global, name: &[u8], directory: &[u8], file: &[u8]) -> Result<bool, AllocError> {
    let path = Bytes::concat(alloc, &[directory, b"/", file])?;
    let path = shown(alloc, path.as_slice())?;
    Ok(plain(name) == plain(path.as_slice()))
}

/// Returns whether a shown name is that of a template of these outputs in a directory.
fn is_template(
    alloc: Global,
    name: &[u8],
    directory: &[u8],
    outputs: &[Output],
) -> Result<bool, AllocError> {
    for output in outputs {
        if is_in(alloc, name, directory, output.template.as_slice())? {
            return Ok(true);
        }
    }
    Ok(false)
}

/// Returns what the file of the run is that has an output's name.
fn holder_of(alloc: Global, given: &Given<'_>, name: &[u8]) -> Result<&'static [u8], AllocError> {
    let directory = given.settings.srcdir.as_slice();
    if is_in(alloc, name, directory, b"configure.ac")? {
        return Ok(b" is the source of this run, and is not overwritten");
    }
    if is_template(alloc, name, directory, given.source.files().as_slice())?
        || is_template(alloc, name, directory, given.source.headers().as_slice())?
    {
        return Ok(b" is a template of this run, and is not overwritten");
    }
    if plain(name) == b"config.log".as_slice() {
        return Ok(b" is the log of this run, and not an output");
    }
    if plain(name) == b"config.status".as_slice() {
        return Ok(b" is the record of this run, and not an output");
    }
    Ok(b" leads to another file of this run, and is not overwritten")
}

/// Returns a text and what follows it.
fn followed(alloc: Global, text: &[u8], words: &[u8]) -> Result<Bytes, AllocError> {
    let mut out = Vec::from_slice(alloc, text)?;
    out.extend_from_slice(words)?;
    Ok(Bytes::from_vec(out))
}

/// Returns the part of a path before its last slash, if it has one.
fn directory_of(path: &[u8]) -> Option<&[u8]> {
    for i in 0..path.len() {
        let at = path.len() - 1 - i;
        if path[at] == b'/' {
            return Some(&path[..at]);
        }
    }
    None
}

/// Returns that an output can't be made in its directory.
fn directory_words(alloc: Global, name: &[u8]) -> Result<Option<Bytes>, AllocError> {
    let Some(directory) = directory_of(name) else {
        return Ok(None);
    };
    let end = if directory.contains(&b'/') {
        b", or a directory above it, is not a directory".as_slice()
    } else {
        b" is not a directory".as_slice()
    };
    let words = Bytes::concat(alloc, &[name, b" can't be made: ", directory, end])?;
    Ok(Some(words))
}

/// Returns what is said of a refused output by its cause.
fn put_cause_words(alloc: Global, given: &Given<'_>, cause: &[u8]) -> Result<Bytes, AllocError> {
    if let Some(name) = cause.strip_suffix(HELD) {
        let words = holder_of(alloc, given, name)?;
        return followed(alloc, name, words);
    }
    if let Some(name) = cause.strip_suffix(NO_DIRECTORY) {
        if let Some(words) = directory_words(alloc, name)? {
            return Ok(words);
        }
    }
    Bytes::from_slice(alloc, cause)
}

/// Returns whether something is under the name of a cache that may not be read.
fn is_denied<D: Disk>(disk: &D, cache: &[u8]) -> bool {
    match unread_cause(disk, cache) {
        Some(error) => error.kind() == ErrorKind::PermissionDenied,
        None => false,
    }
}

/// Writes what to do about a cache that can't be read. If memory runs out, writes nothing.
#[tactic(auto, using(cmd_call::proofs::Pages::says_nothing))]
fn put_unread_cache<E: Hears>(alloc: Global, cache: &[u8], errors: &mut E)
    ensures paged { SaysLines E.contents E.has_failed errors.old errors.new true [] }
{
    let mut page = Page::new(alloc);
    page.put(keys::UNREAD_CACHE, &[WordPart::AsItIs(cache)]);
    if let Ok(words) = page.message() {
        put_words(alloc, words.as_slice(), errors);
    }
}

/// Says what to do about the cache of a run, if one is named and it may not be read.
#[tactic(auto, using(cmd_call::proofs::Pages::says_nothing))]
fn explain_unread_cache<D: Disk, E: Hears>(
    alloc: Global,
    disk: &D,
    settings: &Settings,
    errors: &mut E,
)
    ensures paged { SaysLines E.contents E.has_failed errors.old errors.new true [] }
{
    if let Some(cache) = &settings.cache_name {
        if is_denied(disk, cache.as_slice()) {
            put_unread_cache(alloc, cache.as_slice(), errors);
        }
    }
}

/// Writes why an output was refused, and what to do about the cache of the run, if it may not be
/// read.
fn put_refused<D: Disk, E: Hears>(
    alloc: Global,
    disk: &D,
    settings: &Settings,
    words: &[u8],
    errors: &mut E,
)
    ensures paged { SaysLines E.contents E.has_failed errors.old errors.new true [] }
{
    put_words(alloc, words, errors);
    explain_unread_cache(alloc, disk, settings, errors);
}

/// Says why an output of a run was refused, if it is asked and the cause isn't empty:
/// `acrun: NAME: CAUSE`. If another file of the run has its name, the line says which, and if one of
/// its directories is something else, it says so. If the run's cache may not be read, one more line
/// says what to do (own).
#[tactic(auto, using(cmd_call::proofs::Pages::says_nothing, crate::proofs::Pages::asked_pages))]
pub fn explain_put<D: Disk, E: Hears>(
    alloc: Global,
    disk: &D,
    is_asked: bool,
    given: &Given<'_>,
    cause: &[u8],
    errors: &mut E,
)
    ensures silent { is_asked ≡ false → errors.new ≡ errors.old }
    ensures paged { SaysLines E.contents E.has_failed errors.old errors.new is_asked [] }
{
    if is_asked && !cause.is_empty() {
        if let Ok(words) = put_cause_words(alloc, given, cause) {
            put_refused(alloc, disk, given.settings, words.as_slice(), errors);
        }
    }
}
