//! The arguments that the record of a run keeps.

ghost use Rattle.std.specs.Prelude.{◌≡◌, ◌++◌, ℕ, List, IfOk, OnOk};
ghost use Rattle.options_line.specs.Kept as words;
ghost use Rattle.options_line.specs.Argument.{argument_of};

use crate::argument::{Argument, Switch, Target, read_argument};
use crate::awaiting::awaited_after;
use deftable::{Bytes, Texts};
use std::alloc::{AllocError, Global};

/// Returns whether an argument with this reading is `-n` or `--no-create`.
fn is_no_create(said: Argument<'_>) -> bool
    ensures { result ≡ words.is_no_create (argument_of said.entry) }
{
    match said {
        Argument::Flag(Switch::NoCreate) => true,
        _ => false,
    }
}

/// Returns whether an argument that may be the value of the option before it is left out.
fn is_left_out(awaited: Option<Target>, argument: &Bytes) -> bool
    ensures { result ≡ words.is_left_out awaited argument.now }
{
    match awaited {
        Some(_) => false,
        None => is_no_create(read_argument(argument.as_slice())),
    }
}

/// Appends an argument, unless it is left out.
fn keep(kept: &mut Texts, awaited: Option<Target>, argument: &Bytes) -> Result<(), AllocError>
    ensures { OnOk result (kept.new ≡ kept.old ++ words.kept_of awaited argument.now) }
{
    if is_left_out(awaited, argument) {
        return Ok(());
    }
    kept.push(argument.as_slice())
}

/// Returns the arguments of a command line that the record of a run keeps (own): all but `-n` and
/// `--no-create`.
///
/// The value of an option is always kept, so `--prefix -n` keeps both arguments. Arguments with
/// errors are kept too.
pub fn kept_args(alloc: Global, args: &[Bytes]) -> Result<Texts, AllocError>
    // What is returned is what is kept of the arguments, and nothing else is.
    ensures sound { IfOk result (λ kept. words.IsKept args.now kept) }
    ensures complete { (kept : List (List ℕ)) → words.IsKept args.now kept
        → IfOk result (λ t. t ≡ kept) }
    ensures exact { IfOk result (λ kept. kept ≡ words.kept_args args.now) }
{
    kept_in(alloc, args)
}

fn kept_in(alloc: Global, args: &[Bytes]) -> Result<Texts, AllocError>
    ensures { IfOk result (λ kept. kept ≡ words.kept_args args.now) }
{
    let mut kept = Texts::new(alloc);
    let mut awaited = None;
    for argument in args {
        keep(&mut kept, awaited, argument)?;
        awaited = awaited_after(awaited, argument);
    }
    Ok(kept)
}
