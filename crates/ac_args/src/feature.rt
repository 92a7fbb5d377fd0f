//! Arguments that name an optional feature or package.

ghost use Rattle.std.specs.Prelude.{◌≡◌};
ghost use Rattle.m4quote.specs.ItemValue.{span};
ghost use Rattle.ac_args.specs.Feature as words;
ghost use Rattle.ac_statement.specs.Reading.{Gives};

use crate::arguments::trimmed_text;
use ac_statement::fault::ParseFault;
use ac_tree::{OptionKind, is_feature, option_variable};
use deftable::Name;
use m4quote::Arg;
use std::alloc::Global;

/// Returns the variable of the option that an argument names, such as `enable_shared` for the
/// feature `shared` (Autoconf's manual, "Choosing Package Options" and "External Software").
///
/// # Errors
///
/// - `BadName` at the argument, if its text is no name of an option.
#[tactic(auto, unfolding(crate::specs::Feature::feature_variable))]
pub fn feature_variable(alloc: Global, kind: OptionKind, arg: Arg<'_>) -> Result<Name, ParseFault>
    ensures { Gives (λ n. n) result (words.feature_variable kind (span arg.entry)) }
{
    let text = trimmed_text(alloc, arg)?;
    if !is_feature(text.as_slice()) {
        return Err(ParseFault::BadName(arg.at));
    }
    let variable = option_variable(alloc, kind, text.as_slice())?;
    match Name::new(variable) {
        Some(name) => Ok(name),
        None => Err(ParseFault::BadName(arg.at)),
    }
}
