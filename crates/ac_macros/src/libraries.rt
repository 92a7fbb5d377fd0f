//! Readers of macros that look for libraries (Autoconf's manual, "Library Files").

ghost use Rattle.std.specs.Prelude.{◌≡◌, map};
ghost use Rattle.m4quote.specs.ItemValue.{span};
ghost use Rattle.ac_statement.specs.Reading.{Gives};
ghost use Rattle.ac_macros.specs.Libraries as rows;

use ac_args::ParseFault;
use ac_args::entries::entry;
use ac_args::library::{libraries, library};
use ac_statement::texts::arg_at;
use ac_tree::{Listed, Question, Sought};
use deftable::Texts;
use m4quote::Arg;
use std::alloc::Global;

/// AC_CHECK_LIB(library, function, ..), before its other libraries are read. Whether it adds the
/// library is known after its actions.
#[tactic(auto, unfolding(crate::specs::Libraries::check_lib))]
pub(crate) fn check_lib(alloc: Global, args: &[Arg<'_>]) -> Result<Question, ParseFault>
    ensures { Gives (λ q. q) result (rows.check_lib (map span args.now)) }
{
    let library = library(alloc, arg_at(args, 0))?;
    let function = entry(alloc, Sought::ListEntry(Listed::Function), arg_at(args, 1))?;
    Ok(Question::Library {
        library,
        function,
        others: None,
        adds: false,
    })
}

/// AC_SEARCH_LIBS(function, libraries, ..), before its other libraries are read.
#[tactic(auto, unfolding(crate::specs::Libraries::search_libs))]
pub(crate) fn search_libs(alloc: Global, args: &[Arg<'_>]) -> Result<Question, ParseFault>
    ensures { Gives (λ q. q) result (rows.search_libs (map span args.now)) }
{
    let function = entry(alloc, Sought::ListEntry(Listed::Function), arg_at(args, 0))?;
    let names = libraries(alloc, arg_at(args, 1))?;
    Ok(Question::Libraries {
        function,
        libraries: Texts::from_vec(names),
        others: None,
    })
}
