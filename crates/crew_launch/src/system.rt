//! A real system: its files and its programs.

ghost use Rattle.std.specs.Prelude.{◌≡◌};

use deftable::Bytes;
use file_disk::{Disk, Found};
use std::alloc::{AllocError, Allocator, Global};
use std::io;
use std::process::{Child, Command, Processes, Stdio};
use std::rt::Files;

/// A real system, as a disk that can start programs. Nothing is known of it.
#[derive(Drop)]
pub struct System<R: Files + Processes + Drop> {
    rt: R,
}

impl<R: Files + Processes + Drop> System<R> {
    /// Returns the system of these files and programs.
    pub fn new(rt: R) -> System<R>
        ensures { result.rt ≡ rt }
    {
        System { rt }
    }
}

impl<R: Files + Processes + Drop> Disk for System<R> {
    type File = R::File;

    fn read(&self, alloc: Global, name: &str) -> Result<Option<Bytes>, AllocError> {
        file_disk::Host::new(&self.rt).read(alloc, name)
    }

    fn cause(&self, name: &str) -> Option<io::Error> {
        file_disk::Host::new(&self.rt).cause(name)
    }

    fn look(&self, name: &str) -> io::Result<Found> {
        file_disk::Host::new(&self.rt).look(name)
    }

    fn link_target(&self, alloc: Global, name: &str) -> io::Result<String> {
        file_disk::Host::new(&self.rt).link_target(alloc, name)
    }

    fn directory(&self, name: &str) -> io::Result<(u64, u64)> {
        file_disk::Host::new(&self.rt).directory(name)
    }

    fn make_directories(&mut self, name: &str) -> io::Result<()> {
        file_disk::Host::new(&self.rt).make_directories(name)
    }

    fn create(&mut self, name: &str) -> io::Result<R::File> {
        file_disk::Host::new(&self.rt).create(name)
    }

    fn mode(&self, name: &str, file: &R::File) -> io::Result<u32> {
        file_disk::Host::new(&self.rt).mode(name, file)
    }

    fn fill(
        &mut self,
        name: &str,
        file: R::File,
        mode: Option<u32>,
        text: &[u8],
    ) -> io::Result<()> {
        file_disk::Host::new(&self.rt).fill(name, file, mode, text)
    }

    fn rename(&mut self, from: &str, to: &str) -> io::Result<()> {
        file_disk::Host::new(&self.rt).rename(from, to)
    }

    fn remove(&mut self, name: &str) -> io::Result<()> {
        file_disk::Host::new(&self.rt).remove(name)
    }
}

impl<R: Files + Processes + Drop> Processes for System<R> {
    type Started = R::Started;

    fn spawn<B: Allocator + Clone>(
        &self,
        command: &Command<B>,
        stdin: &Stdio,
        stdout: &Stdio,
        stderr: &Stdio,
    ) -> io::Result<Child<R::Started>> {
        self.rt.spawn(command, stdin, stdout, stderr)
    }
}
