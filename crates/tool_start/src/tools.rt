//! What starts the program of the tools.

ghost use Rattle.std.specs.Prelude.{ℕ, None, Option, List};
ghost use Rattle.std.specs.Result.{result_ok};
ghost use Rattle.tool_start.specs.Starts.{AddsStart, ToolStart};

use crew_refusals::Cause;
use deftable::Bytes;

/// Starts the program of the tools (own).
pub trait Tools {
    // The starts so far, in order, if they are known.
    ghost starts: { Self → Option (List ToolStart) } = { λ _. None };

    /// Runs the program with these words, in the environment and on the standard streams of this
    /// process, and waits for it. Returns its exit status, or 128 + N if the signal N ended it.
    ///
    /// # Errors
    ///
    /// Returns the cause if the program can't be started.
    fn start(&mut self, words: &[Bytes]) -> Result<u8, Cause>
        ensures { AddsStart (starts self.old) (starts self.new) (
            record { words = words.now; status = result_ok result }) };
}
