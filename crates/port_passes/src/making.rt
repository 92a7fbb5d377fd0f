//! What is put in the place of a call if all idioms are wanted, and depends on the text of another
//! call or of a program.

ghost use Rattle.std.specs.Prelude.{◌≡◌, slice_range, codes, Contains, OnOk, IsTrue};
ghost use Rattle.ac_calls.specs.Calls.{calls_in, macro_call_of};
ghost use Rattle.port_idioms.specs.declared.idioms.Idioms.TheVariants.{All};
ghost use Rattle.port_passes.specs.Making as specs;
ghost use Rattle.port_passes.specs.Rewritten as rewritten;

use ac_calls::CallAt;
use lint_text::from;
use port_edits::{Pass, write_change};
use port_idioms::{Idioms, is_call_of};
use port_spots::{Known, Spot, begins_statement, can_be_noted, ends_statement};
use std::alloc::AllocError;

/// Returns whether the call is one of AC_INIT.
pub fn is_init(text: &[u8], call: &CallAt) -> bool
    ensures { IsTrue result
        → slice_range text.now (macro_call_of call.now).start (macro_call_of call.now).name_end
        ≡ codes "AC_INIT" }
{
    is_call_of(text, call, b"AC_INIT")
}

/// Returns whether the call is AC_INIT with at most one argument.
pub fn lacks_version(text: &[u8], call: &CallAt) -> bool
    ensures { IsTrue result → specs.LacksVersion text.now (macro_call_of call.now) }
{
    is_init(text, call) && call.args.len() <= 1
}

/// Returns whether a text below a comment can be put in the place of a call: the call begins and ends
/// a statement, and is in no argument without brackets.
pub fn can_be_made(known: &Known, text: &[u8], spot: Spot, call: &CallAt) -> bool {
    begins_statement(text, spot, call.start)
        && ends_statement(from(text, call.end))
        && can_be_noted(known, call)
}

/// Writes a text in the place of a call, unless that is not after what was read.
pub fn put_made(
    idioms: Idioms,
    text: &[u8],
    call: &CallAt,
    put: &[u8],
    pass: &mut Pass,
) -> Result<(), AllocError>
    requires call { Contains (calls_in text.now) (macro_call_of call.now) }
    requires all { idioms ≡ All }
    requires made { specs.IsMade text.now (macro_call_of call.now) put.now }
    requires begun { rewritten.IsPass idioms text.now pass.old.at pass.old.out.items }
    ensures { OnOk result (rewritten.IsPass idioms text.now pass.new.at pass.new.out.items) }
{
    let _ = idioms;
    if call.start < pass.at || call.end < call.start || text.len() < call.end {
        return Ok(());
    }
    write_change(text, call.start, call.end, put, pass)
}
