//! Which calls are allowed before, between and after AC_INIT and AC_OUTPUT, and at top level or
//! not.

ghost use Rattle.std.specs.Prelude.{◌≡◌};
ghost use Rattle.ac_statement.specs.Reading.{Gives};
ghost use Rattle.ac_macros.specs.Placement as places;

use crate::macros::PlainMacro::{Acts, Declares};
use crate::macros::{ActMacro, DeclaringMacro, Macro, Named};
use ac_args::ParseFault;
use ac_tree::Stage;

fn is_init(m: Macro) -> bool
    ensures { result ≡ places.is_init m }
{
    matches!(m, Macro::Plain(Declares(DeclaringMacro::Init)))
}

/// Returns whether the macro is AC_INIT, or AC_PREREQ, which is allowed before it.
fn may_begin(m: Macro) -> bool
    ensures { result ≡ places.may_begin m }
{
    is_init(m) || matches!(m, Macro::Plain(Acts(ActMacro::Prereq)))
}

/// Checks that a call is allowed here. `top` is true if the call is in the file's own list of
/// statements, `own_list` if its macro is allowed only there, and `at` is the offset of the macro's
/// name (own).
///
/// # Errors
///
/// - `NoInit`, if the call is before AC_INIT, and is neither AC_PREREQ nor AC_INIT.
/// - `AfterOutput` at the name, if the call is after AC_OUTPUT.
/// - `NotAtTop` at the name, if the call is between them, and is a second AC_INIT, or is not at top
///   level though `own_list` is true.
#[tactic(auto, unfolding(crate::specs::Placement::placed))]
pub fn check_place(
    top: bool,
    stage: Stage,
    own_list: bool,
    m: Macro,
    at: usize,
) -> Result<(), ParseFault>
    ensures { Gives (λ x. x) result (places.placed top stage own_list m at) }
{
    match stage {
        Stage::Before => {
            if !may_begin(m) {
                return Err(ParseFault::NoInit);
            }
        }
        Stage::Open => {
            if is_init(m) || (own_list && !top) {
                return Err(ParseFault::NotAtTop(at));
            }
        }
        Stage::Ended => return Err(ParseFault::AfterOutput(at)),
    }
    Ok(())
}

/// Returns the macro of a call that is a statement.
///
/// # Errors
///
/// - `bare_fault`, if the macro is read only in arguments.
pub fn as_statement(stage: Stage, at: usize, m: Named) -> Result<Macro, ParseFault>
    ensures { result ≡ places.as_statement stage at m }
{
    match m {
        Named::Statement(m) => Ok(m),
        Named::Argument(_) => Err(bare_fault(stage, at)),
    }
}

/// Returns the error of something at `at` that is no statement: `NoInit` before AC_INIT,
/// `AfterOutput` after AC_OUTPUT, and else `UnknownStatement`.
pub fn bare_fault(stage: Stage, at: usize) -> ParseFault
    ensures { result ≡ places.bare_fault stage at }
{
    match stage {
        Stage::Before => ParseFault::NoInit,
        Stage::Open => ParseFault::UnknownStatement(at),
        Stage::Ended => ParseFault::AfterOutput(at),
    }
}
