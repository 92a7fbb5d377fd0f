//! The words of autoheader for what is looked for.

ghost use Rattle.std.specs.Prelude.{◌≡◌, ◌++◌, [], ◌∷◌, map, IfOk, OnOk};
ghost use Rattle.header_template.specs.Mentions as specs;

use ac_tree::definitions::{library_definition, sought_definition};
use ac_tree::{Listed, Sought};
use deftable::Bytes;
use std::alloc::{AllocError, Global};

/// Returns what is before the text that is looked for.
#[tactic(auto, unfolding(crate::specs::Mentions::before_sought))]
fn before_sought<'a>(sought: Sought) -> &'a [u8]
    ensures { result.now ≡ specs.before_sought sought }
{
    match sought {
        Sought::ListEntry(Listed::Header) => b"Define to 1 if you have the <",
        Sought::ListEntry(Listed::Function) => b"Define to 1 if you have the `",
        Sought::ListEntry(Listed::Declaration) => {
            b"Define to 1 if you have the declaration of `"
        }
        Sought::Type => b"Define to 1 if the system has the type `",
    }
}

/// Returns what is after it.
#[tactic(auto, unfolding(crate::specs::Mentions::after_sought))]
fn after_sought<'a>(sought: Sought) -> &'a [u8]
    ensures { result.now ≡ specs.after_sought sought }
{
    match sought {
        Sought::ListEntry(Listed::Header) => b"> header file.",
        Sought::ListEntry(Listed::Function) => b"' function.",
        Sought::ListEntry(Listed::Declaration) => b"', and to 0 if you don't.",
        Sought::Type => b"'.",
    }
}

/// Returns the description of what is looked for.
fn described(alloc: Global, sought: Sought, text: &[u8]) -> Result<Bytes, AllocError>
    ensures { IfOk result (λ t.
        t ≡ specs.before_sought sought ++ (text.now ++ specs.after_sought sought)) }
{
    Bytes::concat(alloc, &[before_sought(sought), text, after_sought(sought)])
}

/// Adds the name that what is looked for may define.
pub(crate) fn add_sought(
    alloc: Global,
    sought: Sought,
    text: &[u8],
    list: &mut Vec<(Bytes, Bytes)>,
) -> Result<(), AllocError>
    ensures { OnOk result (
        list.new.items ≡ list.old.items ++ specs.sought_mention sought text.now ∷ []) }
{
    let name = sought_definition(alloc, sought, text)?;
    let description = described(alloc, sought, text)?;
    list.push((name, description))?;
    Ok(())
}

/// What is before the name of a library.
const BEFORE_LIBRARY: &[u8] = b"Define to 1 if you have the `";

/// What is between that and the name again.
const WITHIN_LIBRARY: &[u8] = b"' library (-l";

/// What is after it.
const AFTER_LIBRARY: &[u8] = b").";

/// Returns the description of a library.
#[tactic(auto, unfolding(crate::specs::Mentions::before_library, crate::specs::Mentions::within_library, crate::specs::Mentions::after_library))]
fn library_described(alloc: Global, library: &[u8]) -> Result<Bytes, AllocError>
    ensures { IfOk result (λ t. t ≡ specs.before_library
        ++ (library.now ++ (specs.within_library ++ (library.now ++ specs.after_library)))) }
{
    Bytes::concat(
        alloc,
        &[
            BEFORE_LIBRARY,
            library,
            WITHIN_LIBRARY,
            library,
            AFTER_LIBRARY,
        ],
    )
}

/// Adds the name that a library may define.
pub(crate) fn add_library(
    alloc: Global,
    library: &[u8],
    list: &mut Vec<(Bytes, Bytes)>,
) -> Result<(), AllocError>
    ensures { OnOk result (
        list.new.items ≡ list.old.items ++ specs.library_mention library.now ∷ []) }
{
    let name = library_definition(alloc, library)?;
    let description = library_described(alloc, library)?;
    list.push((name, description))?;
    Ok(())
}

/// The names that AC_INIT defines, with their descriptions.
#[rattlefmt::skip]
const OF_PACKAGE: [(&[u8], &[u8]); 6] = [
    (b"PACKAGE_NAME", b"Define to the full name of this package."),
    (b"PACKAGE_TARNAME", b"Define to the one symbol short name of this package."),
    (b"PACKAGE_VERSION", b"Define to the version of this package."),
    (b"PACKAGE_STRING", b"Define to the full name and version of this package."),
    (b"PACKAGE_BUGREPORT", b"Define to the address where bug reports for this package should be sent."),
    (b"PACKAGE_URL", b"Define to the home page for this package."),
];

/// Returns them.
#[tactic(auto, unfolding(crate::specs::Mentions::of_package))]
fn of_package() -> &'static [(&'static [u8], &'static [u8])]
    ensures { map (λ row. (row.0.now, row.1.now)) result.now ≡ specs.of_package }
{
    &OF_PACKAGE
}

/// Adds entries.
fn add_rows(
    alloc: Global,
    rows: &[(&[u8], &[u8])],
    list: &mut Vec<(Bytes, Bytes)>,
) -> Result<(), AllocError>
    ensures { OnOk result (
        list.new.items ≡ list.old.items ++ map (λ row. (row.0.now, row.1.now)) rows.now) }
{
    for row in rows {
        let name = Bytes::from_slice(alloc, row.0)?;
        let description = Bytes::from_slice(alloc, row.1)?;
        list.push((name, description))?;
    }
    Ok(())
}

/// Adds the names that AC_INIT defines.
pub(crate) fn add_package(alloc: Global, list: &mut Vec<(Bytes, Bytes)>) -> Result<(), AllocError>
    ensures { OnOk result (list.new.items ≡ list.old.items ++ specs.of_package) }
{
    add_rows(alloc, of_package(), list)
}
