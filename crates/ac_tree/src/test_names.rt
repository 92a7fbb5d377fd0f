//! The names of tests, under which their values are cached (Autoconf's manual, "Cache Variable
//! Names").

ghost use Rattle.std.specs.Prelude.{◌≡◌, IfOk};
ghost use Rattle.ac_tree.specs.TestNames as names;

use crate::listed::{Listed, Sought};
use crate::statement::ProgramValue;
use deftable::Bytes;
use m4quote::sh_name;
use std::alloc::{AllocError, Global};

/// Returns the name of the test of an entry or a type.
pub fn sought_name(alloc: Global, sought: Sought, entry: &[u8]) -> Result<Bytes, AllocError>
    ensures { IfOk result (λ n. n ≡ names.sought_name sought entry.now) }
{
    let part = sh_name(alloc, entry)?;
    match sought {
        Sought::ListEntry(Listed::Header) => Bytes::concat(
            alloc,
            &[b"ac_cv_header_", part.as_slice()],
        ),
        Sought::ListEntry(Listed::Function) => Bytes::concat(
            alloc,
            &[b"ac_cv_func_", part.as_slice()],
        ),
        Sought::ListEntry(Listed::Declaration) => Bytes::concat(
            alloc,
            &[b"ac_cv_have_decl_", part.as_slice()],
        ),
        Sought::Type => Bytes::concat(alloc, &[b"ac_cv_type_", part.as_slice()]),
    }
}

/// Returns the name of the test of AC_CHECK_LIB.
pub fn library_name(alloc: Global, library: &[u8], function: &[u8]) -> Result<Bytes, AllocError>
    ensures { IfOk result (λ n. n ≡ names.library_name library.now function.now) }
{
    let both = Bytes::concat(alloc, &[library, b"_", function])?;
    let part = sh_name(alloc, both.as_slice())?;
    Bytes::concat(alloc, &[b"ac_cv_lib_", part.as_slice()])
}

/// Returns the name of the test of AC_SEARCH_LIBS.
pub fn libraries_name(alloc: Global, function: &[u8]) -> Result<Bytes, AllocError>
    ensures { IfOk result (λ n. n ≡ names.libraries_name function.now) }
{
    let part = sh_name(alloc, function)?;
    Bytes::concat(alloc, &[b"ac_cv_search_", part.as_slice()])
}

/// Returns the name of the test of AC_CHECK_PROG, AC_CHECK_PROGS and AC_PROG_CC.
pub fn program_name(alloc: Global, variable: &[u8]) -> Result<Bytes, AllocError>
    ensures { IfOk result (λ n. n ≡ names.program_name variable.now) }
{
    Bytes::concat(alloc, &[b"ac_cv_prog_", variable])
}

/// Returns the name of the test of AC_PATH_PROG.
pub fn path_name(alloc: Global, variable: &[u8]) -> Result<Bytes, AllocError>
    ensures { IfOk result (λ n. n ≡ names.path_name variable.now) }
{
    Bytes::concat(alloc, &[b"ac_cv_path_", variable])
}

/// Returns the name of the test of a program, by the value that its variable gets.
pub fn search_name(
    alloc: Global,
    value: &ProgramValue,
    variable: &[u8],
) -> Result<Bytes, AllocError>
    ensures { IfOk result (λ n. n ≡ names.search_name value.now variable.now) }
{
    match value {
        ProgramValue::Text(_) => program_name(alloc, variable),
        ProgramValue::FullName => path_name(alloc, variable),
    }
}
