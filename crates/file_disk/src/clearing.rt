//! New files in the place of others.

ghost use Rattle.std.specs.Prelude.{◌⊎◌, [], ◌∷◌, OnErr, OnOk};
ghost use Rattle.file_disk.specs.Clearing as meant;
ghost use Rattle.file_disk.specs.Clearing.{DoesAll, clearing_now, filling};
ghost use Rattle.file_disk.specs.Known.{Adds, Made, Failed};

use crate::disk_trait::Disk;
use crate::found::Found;
use std::io;

/// Removes a regular file or a link of this name, and nothing else.
///
/// # Errors
///
/// Fails if the system refuses to look at it, or to remove it. Then nothing is removed.
pub fn clear<D: Disk>(disk: &mut D, name: &str) -> io::Result<()>
    ensures cleared { OnOk result
        (DoesAll (D.known disk.old) (D.known disk.new) (clearing_now name.now)) }
    ensures refused { OnErr result (Adds (D.known disk.old) (D.known disk.new) []) }
{
    match disk.look(name) {
        Ok(found) => clear_found(disk, name, found),
        Err(e) => Err(e),
    }
}

/// Removes what is found under this name, if it is a regular file or a link.
fn clear_found<D: Disk>(disk: &mut D, name: &str, found: Found) -> io::Result<()>
    ensures cleared { OnOk result
        (Adds (D.known disk.old) (D.known disk.new) (meant.clearing name.now found)) }
    ensures refused { OnErr result (Adds (D.known disk.old) (D.known disk.new) []) }
{
    match found {
        Found::File { .. } => disk.remove(name),
        Found::Link => disk.remove(name),
        Found::Nothing => Ok(()),
        Found::Directory => Ok(()),
        Found::Special => Ok(()),
    }
}

/// Makes a new file, and writes a text to it.
///
/// # Errors
///
/// Fails if there is something under this name, or the system refuses a step. Then the new file, if
/// it was made, may have a part of the text.
pub fn create_filled<D: Disk>(disk: &mut D, name: &str, text: &[u8]) -> io::Result<()>
    ensures filled { OnOk result
        (DoesAll (D.known disk.old) (D.known disk.new) (filling name.now text.now)) }
    ensures torn { OnErr result (Adds (D.known disk.old) (D.known disk.new) []
        ⊎ Adds (D.known disk.old) (D.known disk.new) (Made name.now ∷ Failed name.now ∷ [])) }
{
    match disk.create(name) {
        Ok(file) => disk.fill(name, file, None, text),
        Err(e) => Err(e),
    }
}
