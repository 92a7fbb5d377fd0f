//! What is done with the value of a test.

ghost use Rattle.std.specs.Prelude.{◌≡◌, ◌++◌, IfOk, OnOk, codes};
ghost use Rattle.meaning.specs.Forms.{digit_of, form_used, says_found, with_given, defined_if, is_linked, is_yes, symbol_part, with_library, with_library_if, with_linked};
ghost use Rattle.meaning.specs.State.{with_definition};

use crate::loan::Loan;
use deftable::Bytes;
use m4quote::cpp_name;
use run_state::Store;
use std::alloc::{AllocError, Global};
use test_forms::{Gives, Says, TestForm};

/// Returns whether a value is `yes`.
fn is_yes(value: &Loan) -> bool
    ensures { result ≡ is_yes value.now }
{
    match value.text {
        Some(text) => text == b"yes".as_slice(),
        None => false,
    }
}

/// Returns whether there is a value that isn't `no`.
fn is_linked(value: &Loan) -> bool
    ensures { result ≡ is_linked value.now }
{
    match value.text {
        Some(text) => text != b"no".as_slice(),
        None => false,
    }
}

/// Returns whether a value says that a test has found what it looks for.
pub fn is_found(says: &Says, value: &Loan) -> bool
    ensures { result ≡ says_found says.now value.now }
{
    match says {
        Says::Yes => is_yes(value),
        Says::AllButNo => is_linked(value),
    }
}

/// Returns `HAVE_` and a text.
fn have_symbol(alloc: Global, what: &[u8]) -> Result<Bytes, AllocError>
    ensures { IfOk result (λ n. n ≡ codes "HAVE_" ++ symbol_part what.now) }
{
    let part = cpp_name(alloc, what)?;
    Bytes::concat(alloc, &[b"HAVE_", part.as_slice()])
}

/// Returns `HAVE_LIB` and a library.
fn library_symbol(alloc: Global, library: &[u8]) -> Result<Bytes, AllocError>
    ensures { IfOk result (λ n. n ≡ codes "HAVE_LIB" ++ symbol_part library.now) }
{
    let part = cpp_name(alloc, library)?;
    Bytes::concat(alloc, &[b"HAVE_LIB", part.as_slice()])
}

/// Defines `HAVE_` and a text as 1, if it is found.
#[tactic(auto, using(plan::proofs::Symbols::have_name))]
fn define_have(alloc: Global, store: &mut Store, what: &[u8], found: bool) -> Result<(), AllocError>
    ensures { OnOk result (
        store.new ≡ defined_if found (codes "HAVE_" ++ symbol_part what.now) store.old) }
{
    if !found {
        return Ok(());
    }
    let symbol = have_symbol(alloc, what)?;
    store.define(symbol.as_slice(), b"1")
}

/// Returns `1` or `0`.
fn digit_of(found: bool) -> &'static [u8]
    ensures { result.now ≡ digit_of found }
{
    if found { b"1" } else { b"0" }
}

/// Defines `HAVE_` and a text, as 1 if it is found and as 0 if it isn't.
#[tactic(auto, using(plan::proofs::Symbols::have_name))]
fn define_either(
    alloc: Global,
    store: &mut Store,
    what: &[u8],
    found: bool,
) -> Result<(), AllocError>
    ensures { OnOk result (
        store.new ≡ with_definition (codes "HAVE_" ++ symbol_part what.now) (digit_of found) store.old) }
{
    let symbol = have_symbol(alloc, what)?;
    store.define(symbol.as_slice(), digit_of(found))
}

/// Puts a text and a blank before the value of LIBS.
fn add_to_libs(alloc: Global, store: &mut Store, text: &[u8]) -> Result<(), AllocError>
    ensures { OnOk result (store.new ≡ with_library text.now store.old) }
{
    let libs = store.value_or_empty(alloc, b"LIBS")?;
    let value = Bytes::concat(alloc, &[text, b" ", libs.as_slice()])?;
    store.set(b"LIBS", value.as_slice())
}

/// Defines `HAVE_LIB` and a library as 1.
#[tactic(auto, using(plan::proofs::Symbols::library_name))]
fn define_library(alloc: Global, store: &mut Store, library: &[u8]) -> Result<(), AllocError>
    ensures { OnOk result (
        store.new ≡ with_definition (codes "HAVE_LIB" ++ symbol_part library.now) (codes "1") store.old) }
{
    let symbol = library_symbol(alloc, library)?;
    store.define(symbol.as_slice(), b"1")
}

/// Defines a library and adds it to LIBS, if it has the function.
fn add_library(
    alloc: Global,
    store: &mut Store,
    library: &[u8],
    found: bool,
) -> Result<(), AllocError>
    ensures { OnOk result (store.new ≡ with_library_if found library.now store.old) }
{
    if !found {
        return Ok(());
    }
    define_library(alloc, store, library)?;
    let option = Bytes::concat(alloc, &[b"-l", library])?;
    add_to_libs(alloc, store, option.as_slice())
}

/// Adds what a search found to LIBS, unless no library is needed.
fn add_linked(alloc: Global, store: &mut Store, value: &Loan) -> Result<(), AllocError>
    ensures { OnOk result (store.new ≡ with_linked value.now store.old) }
{
    let Some(text) = value.text else {
        return Ok(());
    };
    if is_linked(value) && text != b"none required".as_slice() {
        return add_to_libs(alloc, store, text);
    }
    Ok(())
}

/// Does what is done with a value that says this.
fn give(
    alloc: Global,
    store: &mut Store,
    gives: &Gives,
    found: bool,
    value: &Loan,
) -> Result<(), AllocError>
    ensures { OnOk result (store.new ≡ with_given gives.now found value.now store.old) }
{
    match gives {
        Gives::Nothing => Ok(()),
        Gives::Have { what } => define_have(alloc, store, what.as_slice(), found),
        Gives::HaveOrNot { what } => define_either(alloc, store, what.as_slice(), found),
        Gives::AddsLibrary { library } => add_library(alloc, store, library.as_slice(), found),
        Gives::AddsValue => add_linked(alloc, store, value),
    }
}

/// Does what is done with the value of a test: defines the result, or adds a library to LIBS.
pub fn use_value(
    alloc: Global,
    store: &mut Store,
    form: &TestForm,
    value: &Loan,
) -> Result<(), AllocError>
    ensures { OnOk result (store.new ≡ form_used form.now value.now store.old) }
{
    let found = is_found(&form.says(), value);
    let gives = form.gives(alloc)?;
    give(alloc, store, &gives, found, value)
}
