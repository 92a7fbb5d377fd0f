//! The list that a statement is in, and what may be in it.

ghost use Rattle.std.specs.Prelude.{◌≡◌};
ghost use Rattle.ac_statement.specs.Reading.{Gives};
ghost use Rattle.ac_macros.specs.ListKind as list_kinds;
ghost use Rattle.ac_macros.specs.ListKind.{list_kind_of};

use crate::macros::{Macro, QuestionMacro};
use ac_args::ParseFault;

/// The list that a statement is in.
#[derive(Clone, Copy)]
pub enum ListKind<'a> {
    /// The file's own list.
    Top,
    /// The list of a case.
    Nested,
    /// The commands of AC_CACHE_CHECK, or the list of a case in them.
    Commands {
        /// The name that the commands set.
        name: &'a [u8],
        /// The offset of the argument that holds the commands.
        at: usize,
    },
}

impl<'a> ListKind<'a> {
    /// Returns whether the list is the file's own.
    pub fn is_top(self) -> bool
        ensures { result ≡ list_kinds.is_top (list_kind_of self.entry) }
    {
        match self {
            ListKind::Top => true,
            ListKind::Nested => false,
            ListKind::Commands { .. } => false,
        }
    }

    /// Returns the list of a case in this list.
    pub fn of_case(self) -> ListKind<'a>
        ensures { list_kind_of result ≡ list_kinds.of_case (list_kind_of self.entry) }
    {
        match self {
            ListKind::Top => ListKind::Nested,
            ListKind::Nested => ListKind::Nested,
            ListKind::Commands { name, at } => ListKind::Commands { name, at },
        }
    }
}

/// Returns whether commands may call the macro: AS_IF, AS_CASE, or one that tries a program.
fn is_command(m: Macro) -> bool
    ensures { result ≡ list_kinds.is_command m }
{
    match m {
        Macro::Choice(_) => true,
        Macro::Question(QuestionMacro::Tries(_)) => true,
        _ => false,
    }
}

/// Checks that a list may hold a call of the macro (own).
///
/// # Errors
///
/// - `CacheBody` at the commands' argument, if they are not to call the macro.
#[tactic(auto, unfolding(crate::specs::ListKind::may_hold))]
pub fn check_list_kind(list_kind: ListKind<'_>, m: Macro) -> Result<(), ParseFault>
    ensures { Gives (λ x. x) result (list_kinds.may_hold (list_kind_of list_kind.entry) m) }
{
    match list_kind {
        ListKind::Top => Ok(()),
        ListKind::Nested => Ok(()),
        ListKind::Commands { at, .. } => {
            if is_command(m) {
                Ok(())
            } else {
                Err(ParseFault::CacheBody(at))
            }
        }
    }
}
