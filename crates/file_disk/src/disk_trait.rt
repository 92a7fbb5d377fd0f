//! The trait of what holds files.

ghost use Rattle.std.specs.Prelude.{◌≡◌, ◌≢◌, [], ◌∷◌, None, Some, Option, IfOk, IfErr, IfNone, IfSome, OnOk, OnErr, option_map, string_bytes};
ghost use Rattle.std.specs.IoError.{error_kind};
ghost use Rattle.file_disk.specs.Known.{Known, MadeDirectories, Made, Filled, Failed, Renamed, Removed, Adds, text_under, kind_under, target_under, directory_under, mode_under, limited};
ghost use Rattle.file_disk.specs.Regular.{IsOpened};
ghost use Rattle.file_disk.specs.declared.found.Found.TheVariants as found;

use crate::found::Found;
use deftable::Bytes;
use std::alloc::{AllocError, Global};
use std::io::{self, ErrorKind};

/// Reads, makes, renames and removes files by their names. The meaning of a disk is what was done
/// to it, and what is under its names (own).
pub trait Disk: Drop {
    /// A new file, which is being written.
    type File: Drop;

    // What was done so far, and what is under its names, if that is known.
    ghost known: { Self → Option Known } = { λ _. None };

    /// Returns the text of a regular file, or its first 64 MiB and one byte more, or `None` if it
    /// can't be read. Links are followed, and nothing but a regular file is opened.
    ///
    /// # Errors
    ///
    /// Fails only if memory runs out.
    fn read(&self, alloc: Global, name: &str) -> Result<Option<Bytes>, AllocError>
        ensures { IfOk result
            (λ text. IfSome (known self.now)
            (λ k. text ≡ option_map limited (text_under k name.now))) };

    /// Returns why [`Disk::read`] reads nothing, or not all, under a name, or `None` if the file
    /// can be opened and has no more than 64 MiB. The file is looked at now, and may have been
    /// another one before.
    fn cause(&self, name: &str) -> Option<io::Error>
        ensures { IfNone result (IfSome (known self.now) (λ k. IsOpened k name.now)) };

    /// Returns what is under a name. A link is not followed.
    ///
    /// # Errors
    ///
    /// Fails if the system refuses to look.
    fn look(&self, name: &str) -> io::Result<Found>
        ensures { IfOk result
            (λ found. IfSome (known self.now) (λ k. found ≡ kind_under k name.now)) };

    /// Returns the name that a link has.
    ///
    /// # Errors
    ///
    /// Fails if memory runs out, or the link can't be read.
    fn link_target(&self, alloc: Global, name: &str) -> io::Result<String>
        ensures { IfOk result (λ target. IfSome (known self.now)
            (λ k. target_under k name.now ≡ Some (string_bytes target))) };

    /// Returns the device of a directory and its number there. Two names of directories have the
    /// same exactly if they are names of one.
    ///
    /// # Errors
    ///
    /// Fails if there is no such directory, memory runs out, or the system refuses to look.
    fn directory(&self, name: &str) -> io::Result<(u64, u64)>
        ensures found { IfOk result
            (λ d. IfSome (known self.now) (λ k. directory_under k name.now ≡ Some d)) }
        ensures missing { IfErr result (λ e. error_kind e ≢ ErrorKind.OutOfMemory
            → IfSome (known self.now) (λ k. directory_under k name.now ≡ None)) };

    /// Makes a directory, and those that it is in, unless they are there.
    ///
    /// # Errors
    ///
    /// Fails if the system refuses that, and then some of them may have been made.
    fn make_directories(&mut self, name: &str) -> io::Result<()>
        ensures { Adds (known self.old) (known self.new) (MadeDirectories name.now ∷ []) };

    /// Makes a new file.
    ///
    /// # Errors
    ///
    /// Fails if there is something under this name, or the system refuses that. Then nothing is
    /// made.
    fn create(&mut self, name: &str) -> io::Result<Self::File>
        ensures made { OnOk result (Adds (known self.old) (known self.new) (Made name.now ∷ [])) }
        ensures free { OnOk result
            (IfSome (known self.old) (λ k. kind_under k name.now ≡ found.Nothing)) }
        ensures refused { OnErr result (Adds (known self.old) (known self.new) []) };

    /// Returns the permission bits of the new file of this name and those of its kind.
    ///
    /// # Errors
    ///
    /// Fails if the system refuses to look.
    fn mode(&self, name: &str, file: &Self::File) -> io::Result<u32>
        ensures { IfOk result (λ mode. IfSome (known self.now)
            (λ k. mode_under k name.now ≡ Some mode)) };

    /// Writes a text to the new file of this name, and closes it. If `mode` has permission bits,
    /// the file has them before it has the text.
    ///
    /// # Errors
    ///
    /// Fails if the system refuses that. Then the file may have a part of the text.
    fn fill(
        &mut self,
        name: &str,
        file: Self::File,
        mode: Option<u32>,
        text: &[u8],
    ) -> io::Result<()>
        ensures filled { OnOk result
            (Adds (known self.old) (known self.new) (Filled name.now mode text.now ∷ [])) }
        ensures refused { OnErr result
            (Adds (known self.old) (known self.new) (Failed name.now ∷ [])) };

    /// Gives a file another name. What is under that name is replaced.
    ///
    /// # Errors
    ///
    /// Fails if the system refuses that. Then nothing has changed.
    fn rename(&mut self, from: &str, to: &str) -> io::Result<()>
        ensures renamed { OnOk result
            (Adds (known self.old) (known self.new) (Renamed from.now to.now ∷ [])) }
        ensures refused { OnErr result (Adds (known self.old) (known self.new) []) };

    /// Removes a file or a link.
    ///
    /// # Errors
    ///
    /// Fails if the system refuses that. Then nothing is removed.
    fn remove(&mut self, name: &str) -> io::Result<()>
        ensures removed { OnOk result
            (Adds (known self.old) (known self.new) (Removed name.now ∷ [])) }
        ensures refused { OnErr result (Adds (known self.old) (known self.new) []) };
}
