//! Laws of reading: relations that state rules of a source in the rules' own words, and theorems
//! that the definitions of the readers say the same.
//!
//! There is no code here. Each function does nothing, and its contract is a theorem on the
//! definitions of the crates that read a source. Read `specs/Signs.antt` (a text as signs) and
//! `specs/Position.antt` (which calls are statements), then `specs/Idle.antt` (text without an
//! effect), `specs/Holding.antt` (arguments that hold a call), `specs/OutputList.antt` (lists of
//! outputs) and `specs/Room.antt` (the variables of AC_PROG_CC).
//!
//! For example, say that the last line of a source is `x=1; AC_OUTPUT`. A space is before the call,
//! and before that a `;`, which may precede it. So the call is apart. In `x=1 AC_OUTPUT` it is not:
//! the sign before the space is `1`.
#![tactic(auto)]

ghost use Rattle.ac_laws.specs.Holding.{
  CallsAreAlone,
  HelpIsGiven,
  ItemsAreHeld,
  ItemsAreRefused,
  ProgramIsGiven,
  UnreadHelpIsRefused,
};
ghost use Rattle.ac_laws.specs.Idle.{IdleHasNoEffect};
ghost use Rattle.ac_laws.specs.OutputList.{OutputsAreListed, OutputsAreRefused};
ghost use Rattle.ac_laws.specs.Position.{ReadAreApart, StatementsAreApart};
ghost use Rattle.ac_laws.specs.Room.{ToolsAreCounted};

/// A call is a statement exactly if it is apart from what is before it and after it on its line. So
/// each call of a list that is read is apart, in the file's own list and in statement arguments.
pub fn statements_are_apart()
    ensures law { StatementsAreApart }
    ensures read { ReadAreApart }
{}

/// An argument is read as outputs exactly if its fields list them. It is refused exactly if it has
/// no used text, or if its fields have the fault that is returned.
pub fn outputs_are_listed()
    ensures value { OutputsAreListed }
    ensures fault { OutputsAreRefused }
{}

/// AC_PROG_CC has room for the variables of the compiler exactly if the source then has at most
/// 1,024 output variables.
pub fn tools_are_counted()
    ensures law { ToolsAreCounted }
{}

/// Bare text has no effect exactly if its value is blanks and comments alone. So before AC_INIT and
/// after AC_OUTPUT there is nothing else between calls.
pub fn idle_has_no_effect()
    ensures law { IdleHasNoEffect }
{}

/// The items of an argument that may be quoted are those of the inside of its one quoted run, and
/// otherwise its own. They have an error exactly if there are none, and then the first one.
pub fn items_are_held()
    ensures law { ItemsAreHeld }
    ensures fault { ItemsAreRefused }
{}

/// A call is found in such an argument exactly if nothing but blanks and `dnl` lines is beside it.
pub fn calls_are_alone()
    ensures law { CallsAreAlone }
{}

/// A help argument gives the texts of AS_HELP_STRING exactly if it holds that call alone, and its
/// own used text exactly if it holds no such call. If its items can't be read and AS_HELP_STRING is
/// in it, it is refused with their error.
pub fn help_is_given()
    ensures law { HelpIsGiven }
    ensures unread { UnreadHelpIsRefused }
{}

/// The program of a check is that of AC_LANG_PROGRAM or AC_LANG_SOURCE, if the argument holds one
/// of these calls alone.
pub fn program_is_given()
    ensures law { ProgramIsGiven }
{}
