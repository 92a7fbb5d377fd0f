//! The tests of programs: how a step of a plan opens them (Autoconf's manual, "Generic Programs").

ghost use Rattle.std.specs.Prelude.{◌≡◌, IfOk};
ghost use Rattle.run_step.specs.Openings.{OpensListed, counts_for, found_in, search_kind};
ghost use Rattle.run_test.specs.Starts.{Opens};

use ac_tree::ProgramValue;
use ac_tree::test_names::{program_name, search_name};
use deftable::{Bytes, Name};
use run_forms::value_in;
use run_state::Store;
use run_test::{Opening, Search, open_program};
use shellword::HereText;
use std::alloc::{AllocError, Global};

/// Returns the value that a variable gets if its program is found, or `None` for the full name of
/// the program.
fn found_in(alloc: Global, store: &Store, value: &ProgramValue) -> Result<Option<Bytes>, AllocError>
    ensures { IfOk result (λ v. v ≡ found_in value.now store.now) }
{
    let ProgramValue::Text(text) = value else {
        return Ok(None);
    };
    let text = store.here_text(alloc, text)?;
    Ok(Some(text))
}

/// Returns whether the variable's own value counts.
fn counts_for(store: &Store, value: &ProgramValue, variable: &[u8]) -> bool
    ensures { result ≡ counts_for value.now variable.now store.now }
{
    match value {
        ProgramValue::Text(_) => store.has_value(variable),
        ProgramValue::FullName => store.has_full_name(variable),
    }
}

/// Returns a search for a program.
fn search(
    alloc: Global,
    variable: &[u8],
    name: Bytes,
    program: &Bytes,
    found: Option<Bytes>,
    otherwise: Option<Bytes>,
) -> Result<Search, AllocError>
    ensures { IfOk result (λ s.
        s
        ≡ record {
          variable = variable.now;
          name = name;
          program = program.now;
          found = found;
          otherwise = otherwise;
        }) }
{
    let variable = Bytes::from_slice(alloc, variable)?;
    let program = program.copy(alloc)?;
    Ok(Search {
        variable,
        name,
        program,
        found,
        otherwise,
    })
}

/// Opens the test of AC_CHECK_PROG or AC_PATH_PROG.
pub(crate) fn open_search(
    alloc: Global,
    store: &Store,
    variable: &Name,
    program: &Bytes,
    value: &ProgramValue,
    otherwise: &Option<HereText>,
) -> Result<Opening, AllocError>
    ensures { IfOk result (
        Opens (search_kind variable.now program.now value.now otherwise.now store.now) store.now) }
{
    let variable = variable.as_slice();
    let name = search_name(alloc, value, variable)?;
    let found = found_in(alloc, store, value)?;
    let otherwise = value_in(alloc, store, otherwise)?;
    let search = search(alloc, variable, name, program, found, otherwise)?;
    open_program(alloc, store, search, counts_for(store, value, variable))
}

/// Opens the test of a program of a list.
pub(crate) fn open_listed_prog(
    alloc: Global,
    store: &Store,
    variable: &[u8],
    program: &Bytes,
) -> Result<Opening, AllocError>
    ensures { IfOk result (OpensListed variable.now program.now store.now) }
{
    let name = program_name(alloc, variable)?;
    let found = program.copy(alloc)?;
    let search = search(alloc, variable, name, program, Some(found), None)?;
    open_program(alloc, store, search, store.has_value(variable))
}
