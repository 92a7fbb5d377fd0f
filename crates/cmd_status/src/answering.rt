//! The command that answers in a compiler's place.

ghost use Rattle.std.specs.Prelude.{◌≡◌, ◌⊎◌, [], codes};
ghost use Rattle.cmd_call.specs.Lines.{IsTold, error_line};
ghost use Rattle.cmd_standin.specs.Standin.{IsAnswered, Meets};

use cmd_call::{Hears, tell_memory};
use cmd_standin::{Meeting, standin};
use deftable::Bytes;
use file_disk::Disk;
use std::alloc::Global;

/// Answers as the stand-in for a compiler with this command line, and returns the exit status
/// (own).
pub fn run_standin<M: Meeting, D: Disk, E: Hears>(
    alloc: Global,
    meeting: &mut M,
    disk: &D,
    words: &[Bytes],
    errors: &mut E,
) -> u8
    ensures answer { (result ≡ 2) ⊎ IsAnswered (D.known disk.now) words.now result }
    ensures silent { result ≡ 0 → errors.new ≡ errors.old }
    // If memory runs out, standard error has the line for that.
    ensures refused { result ≡ 2
        → IsTold E.contents E.has_failed errors.old errors.new (error_line (codes "memory") []) }
    ensures meets { Meets (M.made meeting.old) (M.made meeting.new) words.now }
{
    match standin(alloc, meeting, disk, words, errors) {
        Ok(status) => status,
        Err(_) => tell_memory(errors),
    }
}
