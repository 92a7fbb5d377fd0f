//! The arguments with which a run is done again, from its record.

ghost use Rattle.std.specs.Prelude.{◌≡◌, ℕ, List, [], ◌∷◌, ◌++◌, IfOk, Ok, Err, codes};
ghost use Rattle.status_record.specs.RecordText.{IsFirstText};
ghost use Rattle.status_record.specs.declared.record.Record.{Record as RecordValue};
ghost use Rattle.engine_frame.specs.Faults.{GivesAgain};
ghost use Rattle.engine_frame.specs.Rechecked as words;
ghost use Rattle.engine_frame.specs.declared.fault.RemakeFault.TheVariants.{NoArguments};

use crate::fault::RemakeFault;
use crate::remaking::read;
use deftable::Texts;
use status_record::laws::records;
use std::alloc::Global;

/// Returns arguments, followed by `--no-create`.
fn with_no_create(alloc: Global, args: &Texts) -> Result<Texts, RemakeFault>
    ensures { GivesAgain (λ all. all) result (Ok (args.now ++ codes "--no-create" ∷ [])) }
{
    let mut all = args.copy(alloc)?;
    all.push(b"--no-create")?;
    Ok(all)
}

/// Returns the arguments with which the run of a record with these arguments is done again.
fn args_again(alloc: Global, args: &Option<Texts>) -> Result<Texts, RemakeFault>
    ensures { GivesAgain (λ all. all) result (words.args_again args.now) }
{
    match args {
        None => Err(RemakeFault::NoArguments),
        Some(args) => with_no_create(alloc, args),
    }
}

/// Returns the arguments with which the run of the record of a text is done again.
#[tactic(auto, unfolding(crate::specs::Rechecked::rechecked))]
fn args_in(alloc: Global, text: &[u8]) -> Result<Texts, RemakeFault>
    ensures { GivesAgain (λ all. all) result (words.rechecked text.now) }
{
    let recorded = read(alloc, text)?;
    args_again(alloc, &recorded.args)
}

/// Returns the arguments with which a run is done again, given the text of its record (own): those
/// of the record, and then `--no-create`.
///
/// # Errors
///
/// Returns `Record` if the text is no record, and `NoArguments` if it is a record of the first
/// version.
pub fn recheck_args(alloc: Global, text: &[u8]) -> Result<Texts, RemakeFault>
    // The text is that of a record with arguments, and they are returned, followed by
    // `--no-create`.
    ensures sound { IfOk result (λ args. words.HasArguments text.now args) }
    ensures complete { (args : List (List ℕ)) → words.HasArguments text.now args
        → GivesAgain (λ all. all) result (Ok args) }
    // The text is that of a record without arguments.
    ensures none_sound { result ≡ Err NoArguments → words.HasNoArguments text.now }
    ensures none_complete { (r : RecordValue) → IsFirstText text.now r
        → GivesAgain (λ all. all) result (Err NoArguments) }
    // The same as a function: any other text has its first fault returned, unless memory runs out.
    ensures exact { GivesAgain (λ all. all) result (words.rechecked text.now) }
{
    records();
    args_in(alloc, text)
}
