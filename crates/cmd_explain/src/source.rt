//! A fault of the source.

ghost use Rattle.std.specs.Prelude.{◌≡◌, true, false, []};
ghost use Rattle.cmd_call.specs.Lines.{SaysLines};

use crate::Why;
use crate::lines::put_text;
use cmd_call::Hears;
use deftable::Bytes;
use engine_frame::Fault;
use lint_errors::{fault_error, too_long_finding};
use lint_excerpts::excerpt_of;
use lint_findings::Finding;
use std::alloc::{AllocError, Global};

/// Returns an error as it is shown.
fn shown(
    alloc: Global,
    why: &Why<'_>,
    error: Result<Finding, AllocError>,
) -> Result<Bytes, AllocError> {
    let finding = error?;
    excerpt_of(alloc, &finding, why.path, why.text, false)
}

/// Writes a text. If memory ran out, writes nothing.
#[tactic(auto, using(cmd_call::proofs::Pages::says_nothing))]
fn put_shown<E: Hears>(made: Result<Bytes, AllocError>, errors: &mut E)
    ensures paged { SaysLines E.contents E.has_failed errors.old errors.new true [] }
{
    if let Ok(text) = made {
        put_text(text.as_slice(), errors);
    }
}

/// Says what is wrong with a source, after the line of the fault, if it is asked. Says nothing of a
/// fault of anything else.
#[tactic(auto, using(cmd_call::proofs::Pages::says_nothing, crate::proofs::Pages::asked_pages))]
pub fn explain_source<E: Hears>(alloc: Global, why: &Why<'_>, errors: &mut E, fault: &Fault)
    ensures silent { why.now.is_asked ≡ false → errors.new ≡ errors.old }
    ensures paged { SaysLines E.contents E.has_failed errors.old errors.new why.now.is_asked [] }
{
    if why.is_asked {
        match fault {
            Fault::Parse(fault) => {
                let error = fault_error(alloc, why.text, *fault);
                put_shown(shown(alloc, why, error), errors)
            }
            Fault::Plan(_) => put_shown(shown(alloc, why, too_long_finding(alloc)), errors),
            _ => {}
        }
    }
}
