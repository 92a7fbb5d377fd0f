//! What is known of a text before its calls are gone over.

ghost use Rattle.std.specs.Prelude.{◌≡◌, map, IfOk};
ghost use Rattle.port_spots.specs.Put as specs;

use ac_calls::{CallAt, Extent};
use lint_macros::Index;
use lint_text::{from, part};
use port_definitions::{PlainWord, Written, space_len};
use std::alloc::{AllocError, Global};
use std::collections::BTreeSet;

/// Where AC_INIT is to get a name and a version.
#[derive(Clone, Copy)]
pub struct TitleSpot {
    /// The offset of the first call of AC_INIT.
    pub init: usize,
    /// The index of the call that has both.
    pub index: usize,
}

/// Which lines are to come after AC_PROG_CC.
#[derive(Clone, Copy)]
pub struct Needed {
    /// The lines that set CFLAGS.
    pub flags: bool,
    /// The lines that look for the default headers.
    pub headers: bool,
    /// The line that defines STDC_HEADERS.
    pub standard: bool,
}

/// What is known of a text before its calls are gone over.
#[derive(Drop)]
pub struct Known {
    /// The index of the table of other macros.
    pub index: Index,
    /// Whether at each offset the bracket ends that an argument begins with, or a call whose text
    /// Autoconf leaves at its place.
    pub borders: Vec<bool>,
    /// Whether each offset is in an argument that has no brackets around it.
    pub bare: Vec<bool>,
    /// The names that the source defines as macros.
    pub defined: BTreeSet<Vec<u8>>,
    /// The offset after the call of AC_PROG_CC after which GCC is to be set, if one is.
    pub at_compiler: Option<usize>,
    /// Whether the source looks for a compiler itself. If not, a macro that is left out may have
    /// done so.
    pub has_compiler: bool,
    /// The offset after the first call of AC_PROG_CC that is in no argument of another one.
    pub after_compiler: Option<usize>,
    /// Where AC_INIT is to get a name and a version, if it is.
    pub at_title: Option<TitleSpot>,
    /// The definitions of macros that are written out.
    pub written: Written,
    /// The definition of a plain word that is written out, if there is one.
    pub plain: Option<PlainWord>,
    /// Which lines are to come after AC_PROG_CC.
    pub below: Needed,
}

/// Returns whether a comment can be right before a call that begins a statement: the call is in no
/// argument without brackets, of which the comment would be a part.
pub fn can_be_noted(known: &Known, call: &CallAt) -> bool {
    known.bare.get(call.start) == Some(&false)
}

/// Returns whether m4 drops the rest of the line after a call, and so joins what is put in its
/// place to the next line.
pub fn joins_next_line(text: &[u8], call: &CallAt) -> bool {
    let after = call.end.saturating_add(space_len(from(text, call.end)));
    from(text, after).starts_with(b"dnl")
}

/// Returns the texts of the arguments. Empty parentheses have none.
pub fn texts<'a>(
    alloc: Global,
    text: &'a [u8],
    args: &[Extent],
) -> Result<Vec<&'a [u8]>, AllocError>
    ensures { IfOk result (λ v. map (λ a. a.now) v.items ≡ map (specs.arg_text text.now) args.now) }
{
    let mut out = Vec::new(alloc);
    for arg in args {
        out.push(part(text, arg.start, arg.end))?;
    }
    Ok(out)
}
