//! A law of the names that a plan defines.
//!
//! There is no code here. The function does nothing, and its contract is a theorem on the
//! definitions of `meaning`.

ghost use Rattle.plan.specs.Defined.{DefinesItsName, SymbolsAreDefinitions};

/// Whatever the value of a test, what is done with it defines no name but that of the test, which
/// `definition` in `specs/Names` gives. If it gives none, nothing is defined. The name that a form
/// gives is the one that the tree has for the entry, the type or the library.
pub fn tests_define_their_name()
    ensures law { DefinesItsName }
    ensures names { SymbolsAreDefinitions }
{}
