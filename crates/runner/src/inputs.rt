//! The filter, over its input.

ghost use Rattle.std.specs.Prelude.{◌≡◌, ◌⊎◌, false, List, ℕ, [], ◌∷◌, IfSome};
ghost use Rattle.std.specs.Io.KnownBytes.{Appends};
ghost use Rattle.cmd_filter.specs.Filtered.{IsFiltered};
ghost use Rattle.cmd_filter.specs.FaultText.{filter_line};
ghost use Rattle.cmd_call.specs.Errors.{AreTold};
ghost use Rattle.cmd_call.specs.Lines.{SaysLines};
ghost use Rattle.runner.specs.Filters.{FilterSays, FiltersSo};

use cmd_call::{FAULT, Hears, write_errors};
use cmd_explain::{Why, explain_source, explain_usage};
use cmd_filter::{FilterFault, Filtered, filter_keeping, source_part, tell};
use std::alloc::Global;
use std::io::{Read, Write};

/// Returns what the faults of a source that was read from the input are explained by.
fn why_of(is_asked: bool, text: &[u8]) -> Why<'_>
    ensures { result.is_asked ≡ is_asked }
{
    Why {
        is_asked,
        srcdir: b"",
        path: b"standard input",
        text,
        args: &[],
    }
}

/// Says more of an error of the filter over this input, if it is asked.
#[tactic(auto, using(cmd_call::proofs::Pages::says_nothing))]
fn explain_filter<E: Hears>(
    alloc: Global,
    is_asked: bool,
    input: &[u8],
    fault: &FilterFault,
    errors: &mut E,
)
    ensures silent { is_asked ≡ false → errors.new ≡ errors.old }
    ensures paged { SaysLines E.contents E.has_failed errors.old errors.new is_asked [] }
{
    match fault {
        FilterFault::Usage => explain_usage(alloc, is_asked, &[], errors),
        FilterFault::Run(fault) => {
            let why = why_of(is_asked, source_part(input));
            explain_source(alloc, &why, errors, fault);
        }
        _ => {}
    }
}

/// Reports an error of the filter over this input, and says more of it if it is asked. Returns the
/// exit status.
fn tell_filter<E: Hears>(
    alloc: Global,
    is_asked: bool,
    input: &[u8],
    fault: &FilterFault,
    errors: &mut E,
) -> u8
    ensures status { result ≡ 2 }
    ensures told { SaysLines E.contents E.has_failed errors.old errors.new is_asked (
        filter_line fault.now ∷ []) }
{
    let _ = tell(errors, fault);
    explain_filter(alloc, is_asked, input, fault, errors);
    FAULT
}

/// Writes what the source says on standard error, as far as it takes it.
#[tactic(auto, using(cmd_call::proofs::Fronts::told_blank, cmd_call::proofs::Lines::blank_whole))]
fn write_said<E: Hears>(said: &[u8], errors: &mut E)
    ensures silent { said.now ≡ [] → errors.new ≡ errors.old }
    ensures told { AreTold (E.contents errors.old) (E.contents errors.new) (said.now ∷ []) }
    ensures whole { E.has_failed errors.new ≡ false
        → Appends (E.contents errors.old) (E.contents errors.new) said.now }
{
    if said.is_empty() {
        return;
    }
    write_errors(said, errors);
}

/// Filters the input, and returns the exit status.
pub(crate) fn run_filter<R: Read, W: Write, E: Hears>(
    alloc: Global,
    why: bool,
    input: &mut R,
    output: &mut W,
    errors: &mut E,
) -> u8
    ensures run { (result ≡ 2)
        ⊎ IfSome (R.remaining input.old) (λ text.
        (out : List ℕ) × (said : List ℕ) × IsFiltered text out said result
        × Appends (W.contents output.old) (W.contents output.new) out
        × (said ≡ [] → errors.new ≡ errors.old)
        × AreTold (E.contents errors.old) (E.contents errors.new) (said ∷ [])) }
    ensures ended { IfSome (R.remaining input.old) (λ text.
        FiltersSo text result (output.new ≡ output.old) (λ out said.
        Appends (W.contents output.old) (W.contents output.new) out
        × (said ≡ [] → errors.new ≡ errors.old)
        × AreTold (E.contents errors.old) (E.contents errors.new) (said ∷ []))) }
    ensures refused { result ≡ 2
        → FilterSays E.contents E.has_failed errors.old errors.new why (R.remaining input.old)
        result }
{
    let mut text = Vec::new(alloc);
    match filter_keeping(alloc, input, output, &mut text) {
        Ok(
            Filtered {
                status,
                errors: said,
            },
        ) => {
            write_said(said.as_slice(), errors);
            status
        }
        Err(fault) => tell_filter(alloc, why, text.as_slice(), &fault, errors),
    }
}
