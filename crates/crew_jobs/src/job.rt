//! A job: a command, and the file that it reads.

ghost use Rattle.std.specs.Prelude.{◌≡◌, IfOk};

use deftable::{Bytes, Texts};
use std::alloc::{AllocError, Global};

/// The work of one child process.
#[derive(Drop)]
pub struct Job {
    /// The words of the command, with the program first.
    pub words: Texts,
    /// The name and the text of the file that must exist when the command starts.
    pub file: Option<(Bytes, Bytes)>,
}

impl Job {
    /// Returns an equal job that has its own memory.
    pub fn copy(&self, alloc: Global) -> Result<Job, AllocError>
        ensures { IfOk result (λ job. job ≡ self.now) }
    {
        let words = self.words.copy(alloc)?;
        let file = copied_file(alloc, &self.file)?;
        Ok(Job { words, file })
    }
}

fn copied_file(
    alloc: Global,
    file: &Option<(Bytes, Bytes)>,
) -> Result<Option<(Bytes, Bytes)>, AllocError>
    ensures { IfOk result (λ f. f ≡ file.now) }
{
    match file {
        Some((name, text)) => {
            let name = name.copy(alloc)?;
            let text = text.copy(alloc)?;
            Ok(Some((name, text)))
        }
        None => Ok(None),
    }
}
