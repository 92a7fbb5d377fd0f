//! The launcher, which connects children to the system.

ghost use Rattle.std.specs.Prelude.{◌≡◌, ℕ, [], ◌∷◌, None, Option, List, OnOk, OnErr, false, option_map, true};
ghost use Rattle.std.specs.Process.{command_args, command_program};
ghost use Rattle.file_disk.specs.Clearing.{DoesAll};
ghost use Rattle.file_disk.specs.Known.{Does};
ghost use Rattle.crew_launch.specs.Fresh.{DoesFront, PreparesAfter, after, breaking, clearing_stale};
ghost use Rattle.crew_launch.specs.Launch.{Adds, SystemCall, Failed, Spawned, Wrote};
ghost use Rattle.crew_launch.specs.Own.{AreOnStale, AreOwn, is_own};

use crate::fresh::write_own;
use file_disk::{Disk, clear};
use std::alloc::Global;
use std::io;
use std::marker::Model;
use std::process::{Child, Command, OpenProcess, Processes, Stdio};

/// Writes files and starts commands. The meaning of a launcher is what it did (own).
pub trait Launcher {
    /// A child that was started.
    type Process: OpenProcess + Drop;

    // The files written and the commands started so far, in order, if they are known.
    ghost calls: { Self → Option (List SystemCall) } = { λ _. None };

    // The name of a file that is removed before anything else is done, if that wasn't tried yet.
    ghost stale: { Self → Option (List ℕ) } = { λ _. None };

    /// Creates the file, or replaces it.
    ///
    /// # Errors
    ///
    /// Fails if the system refuses that, and then the file may be there without its whole text.
    fn write(&mut self, name: &str, text: &[u8]) -> io::Result<()>
        ensures done { OnOk result (
            Adds (calls self.old) (calls self.new) (Wrote name.now text.now ∷ [])) }
        ensures refused { OnErr result (Adds (calls self.old) (calls self.new) []) }
        ensures once { stale self.new ≡ None };

    /// Starts the command with empty standard input. Its standard output is dropped, and its
    /// standard error can be read.
    ///
    /// # Errors
    ///
    /// Fails if the system refuses that.
    fn spawn(&mut self, command: &mut Command) -> io::Result<Child<Self::Process>>
        ensures done { OnOk result (Adds (calls self.old) (calls self.new)
            (Spawned (command_program command.old ∷ command_args command.old) ∷ [])) }
        ensures refused { OnErr result (Adds (calls self.old) (calls self.new) (Failed ∷ [])) }
        ensures once { stale self.new ≡ None };
}

/// The launcher over a disk that can start programs.
#[derive(Drop)]
pub struct DiskLauncher<D: Disk + Processes> {
    alloc: Global,
    system: D,
    stale: Option<&'static str>,
}

impl<D: Disk + Processes> Model for DiskLauncher<D> {
    ghost use Rattle.std.specs.Prelude.{option_map};
    ghost use Rattle.crew_launch.specs.Fresh.{Hosted};

    ghost Value = { Hosted D };

    ghost view = { λ h. record { disk = h.system; stale = option_map (λ name. name.now) h.stale } };
}

impl<D: Disk + Processes> DiskLauncher<D> {
    /// Returns a launcher. Before it first writes a file or starts a command, it removes the file
    /// that is stale, if there is one.
    pub fn new(alloc: Global, system: D, stale: Option<&'static str>) -> DiskLauncher<D>
        ensures { result
            ≡ record { disk = system; stale = option_map (λ name. name.now) stale.entry } }
    {
        DiskLauncher {
            alloc,
            system,
            stale,
        }
    }

    /// Removes the file that is stale, once.
    fn clear(&mut self) -> io::Result<()>
        ensures cleared { OnOk result (
            DoesAll (D.known self.old.disk) (D.known self.new.disk)
            (clearing_stale self.old.stale)) }
        ensures refused { OnErr result (
            DoesAll (D.known self.old.disk) (D.known self.new.disk) (λ _. [])) }
        ensures once { self.new.stale ≡ None }
    {
        match self.stale.take() {
            Some(name) => clear(&mut self.system, name),
            None => Ok(()),
        }
    }
}

impl<D: Disk + Processes> Launcher for DiskLauncher<D> {
    type Process = D::Started;

    ghost stale = { λ h. h.stale };

    /// Writes a conftest by these steps, each of which removes nothing but a regular file or a link.
    ///
    /// The file that is stale is removed, unless that was tried before. If the name ends in `.c`,
    /// what a compiler made of an earlier conftest is removed: of `conftest1.c` first `conftest1.o`
    /// and then `conftest1`. Then what is under the name is removed, a new file is made there, and
    /// the whole text is written.
    ///
    /// # Errors
    ///
    /// Fails if a step is refused, and if the name isn't that of a file that a run has for itself: it
    /// doesn't begin with `conftest`, or has a slash.
    #[tactic(auto, using(crate::proofs::Freeing::prepared_after, crate::proofs::Freeing::refused_clear, crate::proofs::Owning::own_kept, crate::proofs::Owning::front_all))]
    fn write(&mut self, name: &str, text: &[u8]) -> io::Result<()>
        // If it succeeds, exactly these steps were done, and what a compiler makes of the conftest
        // was not a directory, a pipe, a socket or a device.
        ensures written { OnOk result (Does (D.known self.old.disk) (D.known self.new.disk)
            (PreparesAfter self.old.stale name.now text.now)) }
        // If it fails, only the first of these steps were done, and the new file may lack a part of
        // its text.
        ensures spoilt { OnErr result (DoesFront (D.known self.old.disk) (D.known self.new.disk)
            (after (clearing_stale self.old.stale) (breaking name.now))) }
        // If it succeeds, the name is that of a file that a run has for itself.
        ensures named { OnOk result (is_own name.now ≡ true) }
        // If the name is another one, at most the file that is stale is removed.
        ensures foreign { is_own name.now ≡ false
            → DoesFront (D.known self.old.disk) (D.known self.new.disk)
            (clearing_stale self.old.stale) }
        // Whatever is done is done to files that a run has for itself, or to the one that is stale.
        ensures own { Does (D.known self.old.disk) (D.known self.new.disk)
            (λ _ deeds. AreOwn self.old.stale deeds) }
        ensures once { self.new.stale ≡ None }
    {
        match self.clear() {
            Ok(()) => write_own(self.alloc, &mut self.system, name, text),
            Err(e) => Err(e),
        }
    }

    /// Removes the file that is stale, unless that was tried before, and starts the command.
    #[tactic(auto, using(crate::proofs::Owning::stale_all, crate::proofs::Owning::stale_none))]
    fn spawn(&mut self, command: &mut Command) -> io::Result<Child<D::Started>>
        // Nothing else is done to files.
        ensures started { OnOk result (
            DoesAll (D.known self.old.disk) (D.known self.new.disk)
            (clearing_stale self.old.stale)) }
        ensures failed { OnErr result (
            DoesFront (D.known self.old.disk) (D.known self.new.disk)
            (clearing_stale self.old.stale)) }
        // So no other file is touched.
        ensures own { Does (D.known self.old.disk) (D.known self.new.disk)
            (λ _ deeds. AreOnStale self.old.stale deeds) }
        ensures once { self.new.stale ≡ None }
    {
        self.clear()?;
        command
            .stdin(Stdio::null())
            .stdout(Stdio::null())
            .stderr(Stdio::piped());
        command.spawn(&self.system)
    }
}
