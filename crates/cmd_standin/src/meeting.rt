//! The files by which conftests meet.

ghost use Rattle.std.specs.Prelude.{ℕ, List, Option, None};
ghost use Rattle.cmd_standin.specs.Standin.{IsMade};

use std::fs;
use std::rt::Files;

/// Makes files that show that a conftest was seen, and looks for them. The meaning is the files that
/// were made (own).
pub trait Meeting {
    // The names of the files that were made so far, in order, if they are known.
    ghost made: { Self → Option (List (List ℕ)) } = { λ _. None };

    /// Makes a file of this name, if that is possible.
    fn make(&mut self, name: &str)
        ensures { IsMade (made self.old) (made self.new) name.now };

    /// Returns whether there is a file of this name.
    fn is_there(&self, name: &str) -> bool;
}

/// Makes the files in the current directory. Nothing is known of them.
#[derive(Drop)]
pub struct MeetingFiles<'a, F: Files> {
    files: &'a F,
}

impl<'a, F: Files> MeetingFiles<'a, F> {
    /// Returns what makes files by this handle.
    pub fn new(files: &'a F) -> MeetingFiles<'a, F> {
        MeetingFiles { files }
    }
}

impl<'a, F: Files> Meeting for MeetingFiles<'a, F> {
    fn make(&mut self, name: &str) {
        let _ = fs::write(self.files, name, b"");
    }

    fn is_there(&self, name: &str) -> bool {
        matches!(fs::exists(self.files, name), Ok(true))
    }
}
