//! Where a step of a plan becomes a course: the tests of programs, entries, types and libraries.

ghost use Rattle.std.specs.Prelude.{◌≡◌, IfOk};
ghost use Rattle.meaning.specs.Entries.{library_test, listed_form, search_test, sought_form, sought_test};
ghost use Rattle.meaning.specs.Rows.{Formed};
ghost use Rattle.run_test.specs.Courses.{course_of};
ghost use Rattle.run_test.specs.Starts.{Opens, own_course, path_course, program_kind};

use crate::course::{Course, Search};
use crate::directories::path_directories;
use crate::trying::Opening;
use ac_tree::{Listed, Sought};
use deftable::{Bytes, Texts};
use run_forms::open_form;
use run_state::Store;
use shellword::HereText;
use std::alloc::{AllocError, Global};
use test_forms::{
    TestForm, declaration_form, function_form, header_form, library_form, search_form, type_form,
};

/// Returns the course of a search in the directories of PATH.
fn path_course(alloc: Global, store: &Store, search: Search) -> Result<Course, AllocError>
    ensures { IfOk result (λ c. c ≡ path_course search store.now) }
{
    let directories = path_directories(alloc, store)?;
    Ok(Course::Program {
        search,
        directories,
    })
}

/// Returns the course of a search that has its variable's own value and tries no directory.
fn own_course(alloc: Global, store: &Store, search: Search) -> Result<Course, AllocError>
    ensures { IfOk result (λ c. c ≡ own_course search store.now) }
{
    let value = store.value_or_empty(alloc, search.variable.as_slice())?;
    let search = search.with_otherwise(value);
    Ok(Course::Program {
        search,
        directories: Texts::new(alloc),
    })
}

/// Returns the course of a search whose name is unset.
fn program_course(
    alloc: Global,
    store: &Store,
    search: Search,
    counts: bool,
) -> Result<Course, AllocError>
    ensures { IfOk result (λ c. c ≡ course_of (program_kind search counts store.now) store.now) }
{
    if counts {
        return own_course(alloc, store, search);
    }
    path_course(alloc, store, search)
}

/// Opens the test of a program. If `counts` is true, the variable's own value counts.
pub fn open_program(
    alloc: Global,
    store: &Store,
    search: Search,
    counts: bool,
) -> Result<Opening, AllocError>
    ensures { IfOk result (Opens (program_kind search counts store.now) store.now) }
{
    let value = store.value_of(alloc, search.name.as_slice())?;
    if value.is_some() {
        let directories = Texts::new(alloc);
        let course = Course::Program {
            search,
            directories,
        };
        return Ok(Opening { course, value });
    }
    let course = program_course(alloc, store, search, counts)?;
    Ok(Opening { course, value })
}

/// Opens the test of a form, which was given these includes or other libraries.
#[tactic(auto, using(crate::proofs::Rows::formed_opens))]
fn open_formed(
    alloc: Global,
    store: &Store,
    form: TestForm,
    given: &Option<HereText>,
) -> Result<Opening, AllocError>
    ensures { IfOk result (Opens (Formed (record { form = form; given = given.now })) store.now) }
{
    let run_forms::Opening { course, value } = open_form(alloc, store, form, given)?;
    Ok(Opening {
        course: Course::Formed { course },
        value,
    })
}

/// Returns the form of the test of an entry.
pub fn listed_form(
    alloc: Global,
    listed: Listed,
    entry: &[u8],
    defines: bool,
) -> Result<TestForm, AllocError>
    ensures { IfOk result (λ f. f ≡ listed_form listed entry.now defines) }
{
    match listed {
        Listed::Header => header_form(alloc, entry, defines),
        Listed::Function => function_form(alloc, entry, defines),
        Listed::Declaration => declaration_form(alloc, entry, defines),
    }
}

/// Returns the form of the test of an entry or a type.
fn sought_form(
    alloc: Global,
    sought: Sought,
    entry: &[u8],
    defines: bool,
) -> Result<TestForm, AllocError>
    ensures { IfOk result (λ f. f ≡ sought_form sought entry.now defines) }
{
    match sought {
        Sought::ListEntry(listed) => listed_form(alloc, listed, entry, defines),
        Sought::Type => type_form(alloc, entry, defines),
    }
}

/// Opens the test of an entry or a type.
pub fn open_entry(
    alloc: Global,
    store: &Store,
    sought: Sought,
    entry: &Bytes,
    includes: &Option<HereText>,
    defines: bool,
) -> Result<Opening, AllocError>
    ensures { IfOk result (
        Opens (Formed (sought_test sought entry.now includes.now defines)) store.now) }
{
    let form = sought_form(alloc, sought, entry.as_slice(), defines)?;
    open_formed(alloc, store, form, includes)
}

/// Opens the test of AC_CHECK_LIB.
pub fn open_library(
    alloc: Global,
    store: &Store,
    library: &Bytes,
    function: &Bytes,
    others: &Option<HereText>,
    adds: bool,
) -> Result<Opening, AllocError>
    ensures { IfOk result (
        Opens (Formed (library_test library.now function.now others.now adds)) store.now) }
{
    let form = library_form(alloc, library.as_slice(), function.as_slice(), adds)?;
    open_formed(alloc, store, form, others)
}

/// Opens the test of AC_SEARCH_LIBS.
pub fn open_libraries(
    alloc: Global,
    store: &Store,
    function: &Bytes,
    libraries: &Texts,
    others: &Option<HereText>,
) -> Result<Opening, AllocError>
    ensures { IfOk result (
        Opens (Formed (search_test function.now libraries.now others.now)) store.now) }
{
    let form = search_form(alloc, function.as_slice(), libraries)?;
    open_formed(alloc, store, form, others)
}
