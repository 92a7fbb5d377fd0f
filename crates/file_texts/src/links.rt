//! Where symbolic links lead to.

ghost use Rattle.std.specs.Prelude.{◌≡◌, true, IfOk, IfSome, option_map, string_bytes};
ghost use Rattle.file_disk.specs.Known.{kind_under};
ghost use Rattle.file_texts.specs.Keeping.{file_of};
ghost use Rattle.file_texts.specs.Links as meant;
ghost use Rattle.file_texts.specs.Links.{IsNext, LeadsTo};

use crate::names::{front_of, is_absolute};
use file_disk::{Disk, Found};
use std::alloc::{AllocError, Global};
use std::io::{self, ErrorKind};

/// How many links are followed, as many as Linux follows.
const MOST_LINKS: u32 = 40;

/// Returns whether a link was found.
fn is_found_link(found: Found) -> bool
    ensures { result ≡ meant.is_link found }
{
    match found {
        Found::Link => true,
        Found::Nothing => false,
        Found::File { .. } => false,
        Found::Directory => false,
        Found::Special => false,
    }
}

/// Returns whether a name is that of a link. Fails if the system refuses to look.
fn is_link<D: Disk>(disk: &D, name: &str) -> io::Result<bool>
    ensures { IfOk result
        (λ b. IfSome (D.known disk.now) (λ k. b ≡ meant.is_link (kind_under k name.now))) }
{
    let found = disk.look(name)?;
    Ok(is_found_link(found))
}

/// Returns the name that a link has for another file, from where the link is. If it is no absolute
/// name, it is one from the link's directory.
fn name_from(alloc: Global, name: &str, target: &str) -> Result<String, AllocError>
    ensures { IfOk result (λ next. string_bytes next ≡ meant.name_from name.now target.now) }
{
    if is_absolute(target) {
        return format!(in alloc; "{target}");
    }
    let front = front_of(name);
    format!(in alloc; "{front}{target}")
}

/// Returns the name of the file, or of the next link, that a link leads to.
fn next_of<D: Disk>(alloc: Global, disk: &D, name: &str) -> io::Result<String>
    ensures { IfOk result
        (λ next. IfSome (D.known disk.now) (λ k. IsNext k name.now (string_bytes next))) }
{
    let target = disk.link_target(alloc, name)?;
    let next = name_from(alloc, name, target.as_str())?;
    Ok(next)
}

/// Returns the name of the file that a link leads to, over any links between. There may be no file
/// of this name. If `name` is not that of a link, returns `None`.
///
/// # Errors
///
/// Fails if memory runs out, the system refuses to look, a link can't be read, or there are more
/// than 40 links.
#[tactic(auto, using(crate::proofs::Leading::no_link, crate::proofs::Leading::a_link))]
pub(crate) fn end_of<D: Disk>(alloc: Global, disk: &D, name: &str) -> io::Result<Option<String>>
    ensures { IfOk result (λ o. IfSome (D.known disk.now)
        (λ k. LeadsTo k name.now (file_of (option_map string_bytes o) name.now))) }
{
    if !is_link(disk, name)? {
        return Ok(None);
    }
    let end = followed(alloc, disk, name)?;
    Ok(Some(end))
}

/// Returns the name of the file that a link leads to, over any links between.
#[tactic(auto, using(crate::proofs::Leading::first, crate::proofs::Leading::further, crate::proofs::Leading::ended))]
fn followed<D: Disk>(alloc: Global, disk: &D, name: &str) -> io::Result<String>
    ensures { IfOk result (λ end.
        IfSome (D.known disk.now) (λ k.
        meant.is_link (kind_under k name.now) ≡ true → LeadsTo k name.now (string_bytes end))) }
{
    let mut end = next_of(alloc, disk, name)?;
    for _ in 0..MOST_LINKS {
        if !is_link(disk, end.as_str())? {
            return Ok(end);
        }
        end = next_of(alloc, disk, end.as_str())?;
    }
    Err(io::Error::new(
        ErrorKind::FilesystemLoop,
        "Too many levels of symbolic links",
    ))
}
