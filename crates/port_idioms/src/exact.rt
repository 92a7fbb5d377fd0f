//! Which idioms are written in the place of a call.

ghost use Rattle.std.specs.Prelude.{◌≡◌, Some, option_map, IfOk, IfSome, IsTrue};
ghost use Rattle.lint_macros.specs.Entries.{entry_of, said};
ghost use Rattle.lint_macros.specs.declared.text.TheConstants.{TABLE};
ghost use Rattle.port_idioms.specs.Exact as specs;
ghost use Rattle.port_idioms.specs.Rows.{put_by, IsExact, Differs};

use crate::rows::text_of;
use crate::table::{differing, exact};
use lint_macros::{Index, MacroEntry, MacroKind};
use std::alloc::{AllocError, Global};

/// Returns whether the idiom of a macro of this name is exact for so many arguments.
#[tactic(auto, unfolding(crate::specs::Rows::IsExact))]
fn is_exact(alloc: Global, name: &[u8], count: usize) -> Result<bool, AllocError>
    ensures { IfOk result (λ b. IsTrue b → IsExact name.now count) }
{
    match text_of(alloc, exact(), name, count)? {
        Some(text) => Ok(text.is_empty()),
        None => Ok(false),
    }
}

/// What a call is replaced by.
#[derive(Clone, Copy)]
pub enum Exact {
    /// The text of an idiom.
    Idiom(&'static [u8]),
    /// Nothing.
    Nothing,
}

/// Returns what the entry of a macro puts in the place of a call.
fn exact_by(entry: Option<MacroEntry>) -> Option<Exact>
    ensures { option_map specs.text_of result ≡ put_by (option_map said entry) }
{
    let entry = entry?;
    match entry.kind {
        MacroKind::Idiom => Some(Exact::Idiom(entry.text)),
        MacroKind::Dropped => Some(Exact::Nothing),
        MacroKind::Missing => None,
        MacroKind::Family => None,
    }
}

/// Returns what a call of a macro of this name with so many arguments is replaced by, if there is
/// something exact.
pub fn exact_of(
    alloc: Global,
    index: &Index,
    name: &[u8],
    count: usize,
) -> Result<Option<Exact>, AllocError>
    // It is the text of the idiom that the table has for the name, or nothing if the table says
    // that the call has no meaning.
    ensures of_table { IfOk result (λ o.
        IfSome o (λ e. put_by (entry_of name.now TABLE.now) ≡ Some (specs.text_of e))) }
    // It is exact for so many arguments.
    ensures exact { IfOk result (λ o. IfSome o (λ e. IsExact name.now count)) }
{
    if !is_exact(alloc, name, count)? {
        return Ok(None);
    }
    let entry = index.entry_of(alloc, name)?;
    Ok(exact_by(entry))
}

/// An idiom that differs from its macro.
#[derive(Clone, Copy)]
pub struct Other {
    /// The text of the idiom, or nothing if the call can be left out.
    pub idiom: &'static [u8],
    /// In what it differs: a line of words that begins with a blank.
    pub said: &'static [u8],
}

/// Returns the idiom of an entry with what is said of it. It is nothing if the call has no meaning.
fn other_by(entry: Option<MacroEntry>, words: &'static [u8]) -> Option<Other>
    ensures idiom { IfSome result (λ other. put_by (option_map said entry) ≡ Some other.idiom.now) }
    ensures words { IfSome result (λ other. other.said.now ≡ words.now) }
{
    match exact_by(entry)? {
        Exact::Idiom(idiom) => Some(Other { idiom, said: words }),
        Exact::Nothing => Some(Other {
            idiom: b"",
            said: words,
        }),
    }
}

/// Returns the idiom that is written in the place of a call of a macro of this name with so many
/// arguments though it differs from the macro, if there is one.
#[tactic(auto, unfolding(crate::specs::Rows::Differs))]
pub fn other_of(
    alloc: Global,
    index: &Index,
    name: &[u8],
    count: usize,
) -> Result<Option<Other>, AllocError>
    // It is the idiom that the table has for the name.
    ensures of_table { IfOk result (λ o.
        IfSome o (λ other. put_by (entry_of name.now TABLE.now) ≡ Some other.idiom.now)) }
    // What is said is what the rows have for so many arguments.
    ensures said { IfOk result (λ o. IfSome o (λ other. Differs name.now count other.said.now)) }
{
    let Some(said) = text_of(alloc, differing(), name, count)? else {
        return Ok(None);
    };
    let entry = index.entry_of(alloc, name)?;
    Ok(other_by(entry, said))
}
