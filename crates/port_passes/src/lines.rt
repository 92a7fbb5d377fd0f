//! Puts what follows a call on a line of its own, if what the call expands to ends in a newline.

ghost use Rattle.std.specs.Prelude.{◌≡◌, ◌∷◌, true, Contains, IfOk, OnOk, IsTrue};
ghost use Rattle.std.specs.List.{list_all};
ghost use Rattle.ac_calls.specs.Calls.{calls_in, macro_call_of};
ghost use Rattle.port_spots.specs.Put.{is_space_or_return};
ghost use Rattle.port_passes.specs.Rewritten as specs;

use ac_calls::CallAt;
use lint_text::from;
use port_definitions::space_len;
use port_edits::{Pass, write_change};
use port_idioms::Idioms;
use port_spots::{
    Spot, are_spaces, begins_statement, ends_statement, goes_on, is_after_separator, line_indent,
};
use std::alloc::{AllocError, Global};

/// Returns whether what a macro of this name expands to ends in a newline.
fn is_of_line(name: &[u8]) -> bool
    ensures { result ≡ specs.ends_its_line name.now }
{
    name == b"AC_DEFINE".as_slice() || name == b"AC_DEFINE_UNQUOTED".as_slice()
}

/// Returns whether what the call expands to ends in a newline.
fn ends_its_line(text: &[u8], call: &CallAt) -> bool
    ensures { IsTrue result → specs.EndsItsLine text.now (macro_call_of call.now) }
{
    let has_name = call.start <= call.name_end && call.name_end <= text.len();
    has_name && is_of_line(&text[call.start..call.name_end])
}

/// Returns whether there are only spaces from the end of the call up to an offset.
fn are_spaces_after(text: &[u8], call: &CallAt, end: usize) -> bool
    ensures { IsTrue result → specs.AreSpaces text.now (macro_call_of call.now) end }
{
    call.end <= end && end <= text.len() && are_spaces(&text[call.end..end])
}

/// Returns a newline and an indent.
fn line_break(alloc: Global, indent: &[u8]) -> Result<Vec<u8>, AllocError>
    ensures { IfOk result (λ v. v.items ≡ 10 ∷ indent.now) }
{
    let mut out = Vec::new(alloc);
    out.push(b'\n')?;
    out.extend_from_slice(indent)?;
    Ok(out)
}

/// Puts a newline and an indent in place of the spaces from the end of the call up to an offset,
/// unless it is not after what was read.
fn put_line(
    alloc: Global,
    idioms: Idioms,
    text: &[u8],
    call: &CallAt,
    indent: &[u8],
    end: usize,
    pass: &mut Pass,
) -> Result<(), AllocError>
    requires call { Contains (calls_in text.now) (macro_call_of call.now) }
    requires ends { specs.EndsItsLine text.now (macro_call_of call.now) }
    requires indent { list_all is_space_or_return indent.now ≡ true }
    requires begun { specs.IsPass idioms text.now pass.old.at pass.old.out.items }
    ensures { OnOk result (specs.IsPass idioms text.now pass.new.at pass.new.out.items) }
{
    let _ = idioms;
    if call.end < pass.at || !are_spaces_after(text, call, end) {
        return Ok(());
    }
    let put = line_break(alloc, indent)?;
    write_change(text, call.end, end, put.as_slice(), pass)
}

/// Returns whether a statement may begin at a place, also after a `;`.
fn may_begin(text: &[u8], spot: Spot, at: usize) -> bool {
    begins_statement(text, spot, at) || is_after_separator(text, spot, at)
}

/// Puts what follows a call on a line of its own, if the call ends its line and a statement
/// follows.
pub fn pass_line(
    alloc: Global,
    idioms: Idioms,
    text: &[u8],
    spot: Spot,
    call: &CallAt,
    pass: &mut Pass,
) -> Result<(), AllocError>
    requires call { Contains (calls_in text.now) (macro_call_of call.now) }
    requires begun { specs.IsPass idioms text.now pass.old.at pass.old.out.items }
    ensures { OnOk result (specs.IsPass idioms text.now pass.new.at pass.new.out.items) }
{
    let rest = from(text, call.end);
    if ends_statement(rest) || goes_on(rest) || !may_begin(text, spot, call.start) {
        return Ok(());
    }
    if !ends_its_line(text, call) {
        return Ok(());
    }
    let end = call.end.saturating_add(space_len(rest));
    put_line(
        alloc,
        idioms,
        text,
        call,
        line_indent(text, spot),
        end,
        pass,
    )
}
