//! Passes over a text, until nothing is rewritten.

ghost use Rattle.std.specs.Prelude.{IfOk, IfSome};
ghost use Rattle.port_breaks.specs.Breaks.{IsMade};
ghost use Rattle.port_shell.specs.Formed as specs;

use crate::conditions::tested_once;
use crate::passing::formed_once;
use port_idioms::Idioms;
use std::alloc::{AllocError, Global};

/// How often the statements are gone over at most. Each time finds those in which others were
/// rewritten.
const PASSES: usize = 70;

/// Returns the text with its conditions written otherwise, or if none is, with its statements
/// rewritten, or `None` if nothing can be.
fn passed_once(alloc: Global, idioms: Idioms, text: &[u8]) -> Result<Option<Vec<u8>>, AllocError>
    ensures { IfOk result (λ o.
        IfSome o (λ v. IsMade (specs.IsEdit idioms text.now) text.now v.items)) }
{
    match tested_once(alloc, idioms, text)? {
        Some(next) => Ok(Some(next)),
        None => formed_once(alloc, idioms, text),
    }
}

/// Returns the text with each statement of a shell rewritten that means the same as one that acrun
/// reads.
///
/// In the condition of AS_IF `-a` and `-o` become `&&` and `||`. If all idioms are wanted, `==`,
/// `-eq` and `-ne` in a condition of `if`, of AS_IF or before `&&` and `||` become `=` and `!=`,
/// below a comment.
///
/// Autoconf makes the checks that a macro requires before the first call that requires them. If
/// that is in a statement, they are made within it, but before AS_IF or AS_CASE once it is one. So
/// such a statement stays, or, if all idioms are wanted, it is rewritten below a comment.
///
/// # Errors
///
/// Fails only if memory runs out.
pub fn formed(alloc: Global, idioms: Idioms, text: &[u8]) -> Result<Vec<u8>, AllocError>
    // An `if` or a guarded statement may become the call of AS_IF with its parts, and a `case` that
    // of AS_CASE. If all idioms are wanted, a comment may be right before it. In a condition `-a`,
    // `-o`, `==`, `-eq` and `-ne` may be written otherwise. A `for` may become its turns, and
    // `NAME=${NAME:-WORD}` the call of AS_IF that sets it. Each of these statements begins outside
    // quotes, substitutions, comments and here-documents, also each whose condition is written
    // otherwise. All else is copied.
    ensures formed { IfOk result (λ v. specs.IsFormed idioms text.now v.items) }
{
    let mut out = Vec::from_slice(alloc, text)?;
    for _ in 0..PASSES {
        match passed_once(alloc, idioms, out.as_slice())? {
            Some(next) => out = next,
            None => break,
        }
    }
    Ok(out)
}
