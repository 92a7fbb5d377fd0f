//! The names that the templates of headers list.

ghost use Rattle.std.specs.Prelude.{◌≡◌, length, None, IfOk, OnOk};
ghost use Rattle.lint_sources.specs.Names as specs;
ghost use Rattle.lint_sources.specs.Sheets.{count_of, sheet_at};

use crate::sheets::Sheets;
use deftable::SubstList;
use std::alloc::{AllocError, Global};

/// Says what the template of a header lists.
pub(crate) trait Lister {
    // What names become after those that a text lists, if that is known.
    ghost lists: { Self → specs.Lists } = { λ _ names text. None };

    /// Adds the names that the template of a header with this text lists.
    fn list(&self, names: &mut SubstList, text: &[u8]) -> Result<(), AllocError>
        ensures { OnOk result (specs.AreNames (lists self.now names.old text.now) names.new) };
}

/// Adds the names that the template of this number lists, if it is there.
fn add_listed<L: Lister>(
    lister: &L,
    sheets: &Sheets,
    number: usize,
    names: &mut SubstList,
) -> Result<(), AllocError>
    ensures { OnOk result (
        specs.IsListed (L.lists lister.now) (sheet_at sheets.now number) names.old names.new) }
{
    match sheets.get(number) {
        Some(sheet) => lister.list(names, sheet.text.as_slice()),
        None => Ok(()),
    }
}

/// Returns the names that the templates of headers list: those of each, in their order.
pub(crate) fn listed_names<L: Lister>(
    alloc: Global,
    lister: &L,
    sheets: &Sheets,
) -> Result<SubstList, AllocError>
    ensures { IfOk result (λ names.
        specs.AreListedTo (L.lists lister.now) sheets.now (length sheets.now.files.items)
        (count_of sheets.now) names) }
{
    let mut names = SubstList::new(alloc);
    'sheets: for index in sheets.files()..sheets.count() {
        add_listed(lister, sheets, index + 1, &mut names)?;
    }
    Ok(names)
}
