//! Laws of marks.
//!
//! There is no code here. Each function does nothing, and its contract is a theorem on the
//! definitions of `specs/Opening.antt` and `specs/Precious.antt`.

ghost use Rattle.options.specs.Precious.{FreshRunsAgree, MarksTell};

/// In the variables that a run begins with, the marks of a precious variable say which value it had
/// before any mark, also if its name is that of a mark of another one.
pub fn marks_tell()
    ensures law { MarksTell }
{}

/// A run without a cache finds no precious variable that has changed, and changes none.
pub fn fresh_runs_agree()
    ensures law { FreshRunsAgree }
{}
