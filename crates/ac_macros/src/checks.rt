//! Readers of macros that look for headers, functions, declarations and types (Autoconf's manual,
//! "Generic Headers", "Generic Functions", "Generic Declarations" and "Generic Types").

ghost use Rattle.std.specs.Prelude.{◌≡◌, map};
ghost use Rattle.m4quote.specs.ItemValue.{span};
ghost use Rattle.ac_statement.specs.Reading.{Gives};
ghost use Rattle.ac_macros.specs.Checks as rows;

use crate::searches::optional_text;
use ac_args::ParseFault;
use ac_args::entries::{entries, entry};
use ac_args::program::includes;
use ac_statement::texts::arg_at;
use ac_tree::{Question, Sought};
use m4quote::Arg;
use std::alloc::Global;

/// AC_CHECK_HEADER(header, ..), AC_CHECK_FUNC, AC_CHECK_DECL and AC_CHECK_TYPE, before their
/// includes are read.
#[tactic(auto, unfolding(crate::specs::Checks::checks))]
pub(crate) fn checks(
    alloc: Global,
    sought: Sought,
    args: &[Arg<'_>],
) -> Result<Question, ParseFault>
    ensures { Gives (λ q. q) result (rows.checks sought (map span args.now)) }
{
    let entry = entry(alloc, sought, arg_at(args, 0))?;
    Ok(Question::Checks {
        sought,
        entry,
        includes: None,
    })
}

/// AC_CHECK_HEADERS(headers, ..), AC_CHECK_FUNCS, AC_CHECK_DECLS and AC_CHECK_TYPES, before their
/// includes are read.
#[tactic(auto, unfolding(crate::specs::Checks::checks_each))]
pub(crate) fn checks_each(
    alloc: Global,
    sought: Sought,
    args: &[Arg<'_>],
) -> Result<Question, ParseFault>
    ensures { Gives (λ q. q) result (rows.checks_each sought (map span args.now)) }
{
    let entries = entries(alloc, sought, arg_at(args, 0))?;
    Ok(Question::ChecksEach {
        sought,
        entries,
        includes: None,
    })
}

/// Returns the question of a call with its includes, which are read from the fourth argument, or
/// with its other libraries, which are read from the fifth.
///
/// # Errors
///
/// - That of the argument of the includes or of the other libraries.
#[tactic(auto, unfolding(crate::specs::Checks::completed_of))]
pub fn complete(alloc: Global, question: Question, args: &[Arg<'_>]) -> Result<Question, ParseFault>
    ensures { Gives (λ q. q) result (rows.completed_of question (map span args.now)) }
{
    match question {
        Question::Given { .. } | Question::Tries { .. } => Ok(question),
        Question::Checks { sought, entry, .. } => {
            includes(alloc, arg_at(args, 3)).map(|includes| Question::Checks {
                sought,
                entry,
                includes,
            })
        }
        Question::ChecksEach {
            sought,
            entries,
            ..
        } => {
            includes(alloc, arg_at(args, 3)).map(|includes| Question::ChecksEach {
                sought,
                entries,
                includes,
            })
        }
        Question::Library {
            library,
            function,
            adds,
            ..
        } => {
            optional_text(alloc, arg_at(args, 4)).map(|others| Question::Library {
                library,
                function,
                others,
                adds,
            })
        }
        Question::Libraries {
            function,
            libraries,
            ..
        } => {
            optional_text(alloc, arg_at(args, 4)).map(|others| Question::Libraries {
                function,
                libraries,
                others,
            })
        }
    }
}
