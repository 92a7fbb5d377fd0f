//! The names that the results of tests define.

ghost use Rattle.std.specs.Prelude.{◌≡◌, IfOk};
ghost use Rattle.ac_tree.specs.Definitions as names;

use crate::listed::{Listed, Sought};
use deftable::Bytes;
use m4quote::cpp_name;
use std::alloc::{AllocError, Global};

/// Returns the name that the result of a test of an entry or a type defines (Autoconf's manual,
/// "Generic Headers" to "Generic Types").
pub fn sought_definition(alloc: Global, sought: Sought, entry: &[u8]) -> Result<Bytes, AllocError>
    ensures { IfOk result (λ n. n ≡ names.sought_definition sought entry.now) }
{
    let part = cpp_name(alloc, entry)?;
    match sought {
        Sought::ListEntry(Listed::Declaration) => Bytes::concat(
            alloc,
            &[b"HAVE_DECL_", part.as_slice()],
        ),
        Sought::ListEntry(Listed::Header | Listed::Function) | Sought::Type => {
            Bytes::concat(alloc, &[b"HAVE_", part.as_slice()])
        }
    }
}

/// Returns the name that AC_CHECK_LIB defines, if a library has its function (Autoconf's manual,
/// "Library Files").
pub fn library_definition(alloc: Global, library: &[u8]) -> Result<Bytes, AllocError>
    ensures { IfOk result (λ n. n ≡ names.library_definition library.now) }
{
    let part = cpp_name(alloc, library)?;
    Bytes::concat(alloc, &[b"HAVE_LIB", part.as_slice()])
}
