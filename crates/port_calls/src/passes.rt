//! Passes over the calls, until none is replaced.

ghost use Rattle.std.specs.Prelude.{IfOk};
ghost use Rattle.port_passes.specs.Rewritten as specs;

use crate::passing::replaced_once;
use port_idioms::Idioms;
use std::alloc::{AllocError, Global};

/// How often the calls are gone over at most. Each time finds those in the arguments of calls that
/// were replaced.
const PASSES: usize = 70;

/// Returns the text with each call replaced that has to go and has an idiom that is wanted, also in
/// the arguments of such calls, with the name of AS_HELP_STRING in place of its old one in the help
/// of options, without backslashes that join the lines of a list of words, with a statement that
/// follows AC_DEFINE on a line of its own, and with brackets around arguments that have none and
/// hold a compound statement of a shell. An idiom that isn't exact is below a comment.
///
/// # Errors
///
/// Fails only if memory runs out.
pub fn replaced(alloc: Global, idioms: Idioms, text: &[u8]) -> Result<Vec<u8>, AllocError>
    // Calls that have to go may be replaced, and the name AC_HELP_STRING in calls that declare
    // options. A backslash that joins two lines of a list of words may go. A newline may come after
    // AC_DEFINE, and brackets around an argument without any. All else is copied.
    ensures rewritten { IfOk result (λ v. specs.IsRewritten idioms text.now v.items) }
{
    let mut out = Vec::from_slice(alloc, text)?;
    for _ in 0..PASSES {
        match replaced_once(alloc, idioms, out.as_slice())? {
            Some(next) => out = next,
            None => break,
        }
    }
    Ok(out)
}
