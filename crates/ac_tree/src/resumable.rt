//! Whether a source can be resumed: a law, for the crates above.

ghost use Rattle.ac_tree.specs.Decide.{ResumableIsDecided};

/// States that the function which decides whether a source can be resumed answers what the rules
/// say.
pub fn resumable_is_decided()
    ensures { ResumableIsDecided }
{}
