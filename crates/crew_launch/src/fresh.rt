//! New files in the place of others.

ghost use Rattle.std.specs.Prelude.{◌≡◌, [], OnErr, OnOk, false, true};
ghost use Rattle.file_disk.specs.Clearing.{DoesAll};
ghost use Rattle.file_disk.specs.Known.{Adds, Does};
ghost use Rattle.crew_launch.specs.Fresh.{DoesFront, Prepares, breaking, replacing, spoiling};
ghost use Rattle.crew_launch.specs.Own as meant;
ghost use Rattle.crew_launch.specs.Own.{AreOnOwn};

use crate::own::is_own;
use crate::products::free_products;
use file_disk::{Disk, clear, create_filled};
use std::alloc::Global;
use std::io::{self, ErrorKind};

/// Writes a conftest, as [`write_conftest`], if a run has the file of this name for itself.
///
/// # Errors
///
/// Fails without doing anything if the name is another one, and otherwise as [`write_conftest`].
#[tactic(auto, using(crate::proofs::Owning::own, crate::proofs::Owning::own_none, crate::proofs::Owning::front_none))]
pub(crate) fn write_own<D: Disk>(
    alloc: Global,
    disk: &mut D,
    name: &str,
    text: &[u8],
) -> io::Result<()>
    ensures written { OnOk result (
        Does (D.known disk.old) (D.known disk.new) (Prepares name.now text.now)) }
    ensures spoilt { OnErr result (
        DoesFront (D.known disk.old) (D.known disk.new) (breaking name.now)) }
    ensures named { OnOk result (meant.is_own name.now ≡ true) }
    ensures foreign { meant.is_own name.now ≡ false
        → Adds (D.known disk.old) (D.known disk.new) [] }
    // Nothing is done to files that others may have.
    ensures own { Does (D.known disk.old) (D.known disk.new) (λ _ deeds. AreOnOwn deeds) }
{
    if !is_own(name) {
        return Err(foreign_error());
    }
    write_conftest(alloc, disk, name, text)
}

fn foreign_error() -> io::Error {
    io::Error::new(ErrorKind::InvalidInput, "not the name of a conftest")
}

/// Writes a conftest, after what a compiler made of the one before is removed. So a program that is
/// run is one that a compiler just made, and a compiler writes through no link.
///
/// # Errors
///
/// Fails if what a compiler makes is there and can't be removed, or is no regular file and no link,
/// or if the system refuses a step. Then the conftest may be gone, or have a part of the text.
#[tactic(auto, using(crate::proofs::Freeing::prepared, crate::proofs::Freeing::broken, crate::proofs::Freeing::refused_first))]
fn write_conftest<D: Disk>(alloc: Global, disk: &mut D, name: &str, text: &[u8]) -> io::Result<()>
    ensures written { OnOk result (
        Does (D.known disk.old) (D.known disk.new) (Prepares name.now text.now)) }
    ensures spoilt { OnErr result (
        DoesFront (D.known disk.old) (D.known disk.new) (breaking name.now)) }
{
    match free_products(alloc, disk, name) {
        Ok(()) => write_fresh(disk, name, text),
        Err(e) => Err(e),
    }
}

/// Writes a text to a new file of this name. A regular file or a link of this name is removed
/// first. So nothing is written through a link, and a pipe or a device is not opened. A new file is
/// also faster: ext4 writes one that was truncated to the disk when it is closed.
///
/// # Errors
///
/// Fails if the system refuses a step. Then what was under the name may be gone, and the new file
/// may have a part of the text.
fn write_fresh<D: Disk>(disk: &mut D, name: &str, text: &[u8]) -> io::Result<()>
    ensures replaced { OnOk result (
        DoesAll (D.known disk.old) (D.known disk.new) (replacing name.now text.now)) }
    ensures spoilt { OnErr result (
        DoesFront (D.known disk.old) (D.known disk.new) (spoiling name.now)) }
{
    match clear(disk, name) {
        Ok(()) => create_filled(disk, name, text),
        Err(e) => Err(e),
    }
}
