//! The names that a check's message gives: of its cached value, and of what it defines.

ghost use Rattle.std.specs.Prelude.{◌≡◌, ◌++◌, ◌∷◌, [], IfOk, OnOk, IfSome, IsTrue};
ghost use Rattle.ac_tree.specs.TestNames.{sought_name, library_name as library_name_of, libraries_name as libraries_name_of};
ghost use Rattle.ac_tree.specs.Definitions.{library_definition as library_definition_of};
ghost use Rattle.cmd_why.specs.Names as specs;
ghost use Rattle.cmd_why.specs.Subjects.{subject, Entry, Declaration, Library, Libraries, subject_of as subject_of_message};

use crate::subject::{Subject, subject_of};
use ac_tree::definitions::{library_definition, sought_definition};
use ac_tree::test_names::{libraries_name, library_name, sought_name};
use ac_tree::{Listed, Sought};
use bstr::ByteSlice;
use deftable::Bytes;
use std::alloc::{AllocError, Global};

/// Returns whether the word is a name of the test of an entry or a type: of its cached value, or of
/// what it defines.
fn names_sought(alloc: Global, word: &[u8], sought: Sought, name: &[u8]) -> Result<bool, AllocError>
    ensures { IfOk result (λ b. b ≡ specs.is_among word.now (specs.names_sought sought name.now)) }
{
    let cached = sought_name(alloc, sought, name)?;
    let defined = sought_definition(alloc, sought, name)?;
    Ok(word == cached.as_slice() || word == defined.as_slice())
}

/// Returns the same of a header, a function or a type. The message doesn't say which it is.
fn names_entry(alloc: Global, word: &[u8], name: &[u8]) -> Result<bool, AllocError>
    ensures { IfOk result (λ b. b ≡ specs.is_among word.now (specs.names_of (Entry name.now))) }
{
    let header = names_sought(alloc, word, Sought::ListEntry(Listed::Header), name)?;
    let function = names_sought(alloc, word, Sought::ListEntry(Listed::Function), name)?;
    let of_type = names_sought(alloc, word, Sought::Type, name)?;
    Ok(header || function || of_type)
}

fn names_library(
    alloc: Global,
    word: &[u8],
    function: &[u8],
    library: &[u8],
) -> Result<bool, AllocError>
    ensures { IfOk result (λ b.
        b ≡ specs.is_among word.now (specs.names_of (Library function.now library.now))) }
{
    let cached = library_name(alloc, library, function)?;
    let defined = library_definition(alloc, library)?;
    Ok(word == cached.as_slice() || word == defined.as_slice())
}

fn names_libraries(alloc: Global, word: &[u8], function: &[u8]) -> Result<bool, AllocError>
    ensures { IfOk result (λ b.
        b ≡ specs.is_among word.now (specs.names_of (Libraries function.now))) }
{
    let cached = libraries_name(alloc, function)?;
    Ok(word == cached.as_slice())
}

fn names_declaration(alloc: Global, word: &[u8], name: &[u8]) -> Result<bool, AllocError>
    ensures { IfOk result (λ b.
        b ≡ specs.is_among word.now (specs.names_of (Declaration name.now))) }
{
    names_sought(alloc, word, Sought::ListEntry(Listed::Declaration), name)
}

/// Returns whether the word is a name of the test of a subject.
fn names(alloc: Global, word: &[u8], about: Subject<'_>) -> Result<bool, AllocError>
    ensures { IfOk result (λ b.
        b ≡ specs.is_among word.now (specs.names_of (subject about.entry))) }
{
    match about {
        Subject::Entry(name) => names_entry(alloc, word, name),
        Subject::Declaration(name) => names_declaration(alloc, word, name),
        Subject::Library(function, library) => names_library(alloc, word, function, library),
        Subject::Libraries(function) => names_libraries(alloc, word, function),
        Subject::Other => Ok(false),
    }
}

/// Returns whether the word is a part of the text.
#[tactic(auto, using(crate::proofs::Ends::part_is))]
fn is_part(word: &[u8], text: &[u8]) -> bool
    ensures { result ≡ specs.is_part word.now text.now }
{
    text.split_once_str(word).is_some()
}

/// Returns whether the word is about the check with this message: it is a part of the message, or a
/// name of the check.
#[tactic(auto, unfolding(crate::specs::Names::is_about))]
pub(crate) fn is_about(alloc: Global, word: &[u8], message: &[u8]) -> Result<bool, AllocError>
    ensures { IfOk result (λ b. b ≡ specs.is_about word.now message.now) }
{
    let is_named = names(alloc, word, subject_of(message))?;
    Ok(is_part(word, message) || is_named)
}

/// Appends the name of the cached value of an entry or a type.
fn put_sought_name(
    alloc: Global,
    out: &mut Vec<u8>,
    sought: Sought,
    name: &[u8],
) -> Result<(), AllocError>
    ensures { OnOk result (out.new.items ≡ out.old.items ++ sought_name sought name.now) }
{
    let cached = sought_name(alloc, sought, name)?;
    out.extend_from_slice(cached.as_slice())
}

/// Appends the names that the cached value of a function, a type or a program may have. The message
/// doesn't say which it is.
fn put_other_names(alloc: Global, out: &mut Vec<u8>, name: &[u8]) -> Result<(), AllocError>
    ensures { OnOk result (out.new.items ≡ out.old.items ++ specs.other_names name.now) }
{
    put_sought_name(alloc, out, Sought::ListEntry(Listed::Function), name)?;
    out.extend_from_slice(b" or ")?;
    put_sought_name(alloc, out, Sought::Type, name)?;
    out.extend_from_slice(b" (of a program, ac_cv_prog_VARIABLE or ac_cv_path_VARIABLE)")
}

/// Appends the names that the cached value of an entry may have.
fn put_entry_names(alloc: Global, out: &mut Vec<u8>, name: &[u8]) -> Result<(), AllocError>
    ensures { OnOk result (out.new.items ≡ out.old.items ++ specs.entry_names name.now) }
{
    if name.ends_with(b".h") {
        return put_sought_name(alloc, out, Sought::ListEntry(Listed::Header), name);
    }
    put_other_names(alloc, out, name)
}

fn put_library_name(
    alloc: Global,
    out: &mut Vec<u8>,
    function: &[u8],
    library: &[u8],
) -> Result<(), AllocError>
    ensures { OnOk result (
        out.new.items ≡ out.old.items ++ library_name_of library.now function.now) }
{
    let cached = library_name(alloc, library, function)?;
    out.extend_from_slice(cached.as_slice())
}

fn put_libraries_name(alloc: Global, out: &mut Vec<u8>, function: &[u8]) -> Result<(), AllocError>
    ensures { OnOk result (out.new.items ≡ out.old.items ++ libraries_name_of function.now) }
{
    let cached = libraries_name(alloc, function)?;
    out.extend_from_slice(cached.as_slice())
}

/// Appends the name under which a cache has the value of the test of a subject, as far as the
/// message gives it.
pub(crate) fn put_cache_name(
    alloc: Global,
    out: &mut Vec<u8>,
    about: Subject<'_>,
) -> Result<(), AllocError>
    ensures { OnOk result (
        out.new.items ≡ out.old.items ++ specs.cache_name (subject about.entry)) }
{
    match about {
        Subject::Entry(name) => put_entry_names(alloc, out, name),
        Subject::Declaration(name) => {
            put_sought_name(alloc, out, Sought::ListEntry(Listed::Declaration), name)
        }
        Subject::Library(function, library) => put_library_name(alloc, out, function, library),
        Subject::Libraries(function) => put_libraries_name(alloc, out, function),
        Subject::Other => out.extend_from_slice(b"the name that AC_CACHE_CHECK gives it"),
    }
}

/// Returns a list of one name.
fn one(alloc: Global, name: Bytes) -> Result<Vec<Bytes>, AllocError>
    ensures { IfOk result (λ v. v.items ≡ name ∷ []) }
{
    let mut names = Vec::new(alloc);
    names.push(name)?;
    Ok(names)
}

/// Returns the names that the cached value of an entry may have.
fn entry_cache_names(alloc: Global, name: &[u8]) -> Result<Vec<Bytes>, AllocError>
    ensures { IfOk result (λ v. v.items ≡ specs.cache_names (Entry name.now)) }
{
    let mut names = one(
        alloc,
        sought_name(alloc, Sought::ListEntry(Listed::Header), name)?,
    )?;
    names.push(sought_name(alloc, Sought::ListEntry(Listed::Function), name)?)?;
    names.push(sought_name(alloc, Sought::Type, name)?)?;
    Ok(names)
}

fn declaration_cache_names(alloc: Global, name: &[u8]) -> Result<Vec<Bytes>, AllocError>
    ensures { IfOk result (λ v. v.items ≡ specs.cache_names (Declaration name.now)) }
{
    one(
        alloc,
        sought_name(alloc, Sought::ListEntry(Listed::Declaration), name)?,
    )
}

fn library_cache_names(
    alloc: Global,
    function: &[u8],
    library: &[u8],
) -> Result<Vec<Bytes>, AllocError>
    ensures { IfOk result (λ v. v.items ≡ specs.cache_names (Library function.now library.now)) }
{
    one(alloc, library_name(alloc, library, function)?)
}

fn libraries_cache_names(alloc: Global, function: &[u8]) -> Result<Vec<Bytes>, AllocError>
    ensures { IfOk result (λ v. v.items ≡ specs.cache_names (Libraries function.now)) }
{
    one(alloc, libraries_name(alloc, function)?)
}

/// Returns the names of the cached value of a subject, as far as the message gives them.
pub(crate) fn cache_names(alloc: Global, about: Subject<'_>) -> Result<Vec<Bytes>, AllocError>
    ensures { IfOk result (λ v. v.items ≡ specs.cache_names (subject about.entry)) }
{
    match about {
        Subject::Entry(name) => entry_cache_names(alloc, name),
        Subject::Declaration(name) => declaration_cache_names(alloc, name),
        Subject::Library(function, library) => library_cache_names(alloc, function, library),
        Subject::Libraries(function) => libraries_cache_names(alloc, function),
        Subject::Other => Ok(Vec::new(alloc)),
    }
}
