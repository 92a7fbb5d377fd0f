//! A call, by its offsets in the text.

ghost use Rattle.std.specs.Prelude.{◌≡◌, ◌+◌, ◌<◌, ◌≤◌, ◌^◌, length, map, IfOk};
ghost use Rattle.m4quote.specs.ItemValue.{span};
ghost use Rattle.ac_macros.specs.Table.{row_named};
ghost use Rattle.ac_calls.specs.Calls as specs;

use ac_macros::Row;
use m4quote::Arg;
use std::alloc::{AllocError, Global};

/// A part of the text.
#[derive(Clone, Copy, Debug, PartialEq, Eq)]
pub struct Extent {
    /// The offset of the first byte.
    pub start: usize,
    /// The offset after the last byte.
    pub end: usize,
}

/// A macro call. All offsets are counted in bytes from the start of the file.
#[derive(Drop)]
pub struct CallAt {
    /// The offset of the macro's name.
    pub start: usize,
    /// The offset after the name.
    pub name_end: usize,
    /// The offset after the call: after its closing parenthesis, or after its name if it has no
    /// arguments.
    pub end: usize,
    /// The arguments, without the blanks before each.
    pub args: Vec<Extent>,
    /// Whether the table of macros has the name.
    pub is_of_profile: bool,
    /// The name's row in the table of macros, if it has one.
    pub row: Option<Row>,
}

/// Returns where an argument is.
fn extent_of(arg: Arg<'_>) -> Extent
    ensures { result ≡ specs.extent_of (span arg.entry) }
{
    Extent {
        start: arg.at,
        end: arg.at + arg.text.len(),
    }
}

/// Returns where the arguments are.
fn extents(alloc: Global, args: &[Arg<'_>]) -> Result<Vec<Extent>, AllocError>
    ensures { IfOk result (λ v. v.items ≡ map specs.extent_of (map span args.now)) }
{
    let mut out = Vec::new(alloc);
    for arg in args {
        out.push(extent_of(*arg))?;
    }
    Ok(out)
}

/// Returns the offset after a call with these arguments, whose name ends at `name_end`.
fn end_after(name_end: usize, args: &[Extent]) -> usize
    requires { specs.end_after name_end args.now < 2 ^ 64 }
    ensures { result ≡ specs.end_after name_end args.now }
{
    match args.last() {
        None => name_end,
        Some(last) => last.end + 1,
    }
}

/// Returns a call of a macro with this name, which has this row, at offset `at`.
pub(crate) fn call_at(
    alloc: Global,
    name: &[u8],
    row: Option<Row>,
    args: &[Arg<'_>],
    at: usize,
) -> Result<CallAt, AllocError>
    requires placed { specs.IsPlaced name.now (map span args.now) at }
    requires row { row ≡ row_named name.now }
    ensures { IfOk result (λ c.
        specs.macro_call_of c ≡ specs.call_at name.now (map span args.now) at) }
{
    let extents = extents(alloc, args)?;
    let name_end = at + name.len();
    Ok(CallAt {
        start: at,
        name_end,
        end: end_after(name_end, &extents),
        args: extents,
        is_of_profile: row.is_some(),
        row,
    })
}
