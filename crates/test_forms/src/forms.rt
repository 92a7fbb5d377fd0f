//! The form of each macro's test.

ghost use Rattle.std.specs.Prelude.{◌≡◌, ◌∷◌, ◌++◌, ◌+◌, ◌<◌, ◌^◌, [], IfOk, IfSome, codes, map, slice_get, true};
ghost use Rattle.test_forms.specs.Macros.{declared_try, declaration_form, form_of, function_form, header_form, library_form, search_form, search_tries, sized_try, type_form, type_tries};
ghost use Rattle.test_forms.specs.Tries.{linked_try};
ghost use Rattle.test_forms.specs.declared.form.Snippet.TheVariants.{Library};

use crate::form::{Gives, Says, Snippet, TryForm};
use deftable::{Bytes, Texts};
use std::alloc::{AllocError, Global};
use std::marker::Model;

/// The macros of one form.
#[derive(Drop)]
enum FormKind {
    Header,
    Function,
    Declaration,
    Type,
    Library { library: Bytes },
    /// There may be tens of thousands of libraries.
    Search { libraries: Texts },
}

/// A test. It holds the names that its macro was given, and makes each other text when it is asked
/// for, since a test whose result is known needs few of them.
pub struct TestForm {
    kind: FormKind,
    entry: Bytes,
    gives: bool,
}

impl Drop for TestForm {
    fn drop(self) {
        let TestForm {
            kind: _kind,
            entry: _entry,
            gives: _gives,
        } = self;
    }
}

impl Model for TestForm {
    ghost use Rattle.test_forms.specs.Form.{TestForm};
    ghost use Rattle.test_forms.specs.Macros.{form_of};

    ghost Value = { TestForm };

    ghost view = { λ f. form_of f.kind f.entry f.gives };
}

/// Returns the form of a macro's test.
fn form_of(alloc: Global, kind: FormKind, entry: &[u8], gives: bool) -> Result<TestForm, AllocError>
    ensures { IfOk result (λ f. f ≡ form_of kind entry.now gives) }
{
    let entry = Bytes::from_slice(alloc, entry)?;
    Ok(TestForm { kind, entry, gives })
}

/// Returns the test of AC_CHECK_HEADER and AC_CHECK_HEADERS: a program that includes the header is
/// compiled. With `defines`, `HAVE_` and the header is defined if it is found.
pub fn header_form(alloc: Global, header: &[u8], defines: bool) -> Result<TestForm, AllocError>
    ensures { IfOk result (λ f. f ≡ header_form header.now defines) }
{
    form_of(alloc, FormKind::Header, header, defines)
}

/// Returns the test of AC_CHECK_FUNC and AC_CHECK_FUNCS: a program that calls the function is
/// linked. With `defines`, `HAVE_` and the function is defined if it is found.
pub fn function_form(alloc: Global, function: &[u8], defines: bool) -> Result<TestForm, AllocError>
    ensures { IfOk result (λ f. f ≡ function_form function.now defines) }
{
    form_of(alloc, FormKind::Function, function, defines)
}

/// Returns the test of AC_CHECK_DECL and AC_CHECK_DECLS: a program that uses the name, unless it is
/// a macro, is compiled. With `defines`, `HAVE_DECL_` and the name is defined, as 1 if it is found
/// and as 0 if it isn't.
pub fn declaration_form(alloc: Global, name: &[u8], defines: bool) -> Result<TestForm, AllocError>
    ensures { IfOk result (λ f. f ≡ declaration_form name.now defines) }
{
    form_of(alloc, FormKind::Declaration, name, defines)
}

/// Returns the test of AC_CHECK_TYPE and AC_CHECK_TYPES: a type is found if it has a size, and has
/// none in parentheses, as a value would. With `defines`, `HAVE_` and the type is defined if it is
/// found.
pub fn type_form(alloc: Global, name: &[u8], defines: bool) -> Result<TestForm, AllocError>
    ensures { IfOk result (λ f. f ≡ type_form name.now defines) }
{
    form_of(alloc, FormKind::Type, name, defines)
}

/// Returns the test of AC_CHECK_LIB: a function is linked with the library. With `adds`, `HAVE_LIB`
/// and the library is defined, and LIBS gets the library, if the function is found.
pub fn library_form(
    alloc: Global,
    library: &[u8],
    function: &[u8],
    adds: bool,
) -> Result<TestForm, AllocError>
    ensures { IfOk result (λ f. f ≡ library_form library.now function.now adds) }
{
    let library = Bytes::from_slice(alloc, library)?;
    form_of(alloc, FormKind::Library { library }, function, adds)
}

/// Returns the test of AC_SEARCH_LIBS: a function is linked with no further library, and then with
/// each of these. LIBS gets the first that has it.
pub fn search_form(
    alloc: Global,
    function: &[u8],
    libraries: &Texts,
) -> Result<TestForm, AllocError>
    ensures { IfOk result (λ f. f ≡ search_form function.now libraries.now) }
{
    let libraries = libraries.copy(alloc)?;
    form_of(alloc, FormKind::Search { libraries }, function, true)
}

/// Returns a try whose success ends the test with this value.
fn ending_try(alloc: Global, snippet: Snippet, value: &[u8]) -> Result<TryForm, AllocError>
    ensures { IfOk result (λ t.
        t ≡ record { snippet = snippet; ends_on = true; value = value.now }) }
{
    let value = Bytes::from_slice(alloc, value)?;
    Ok(TryForm {
        snippet,
        ends_on: true,
        value,
    })
}

/// Returns the try of a declaration: a program that uses the name unless it is a macro is compiled.
fn declared_try(alloc: Global, name: &[u8]) -> Result<TryForm, AllocError>
    ensures { IfOk result (λ t. t ≡ declared_try name.now) }
{
    let text = Bytes::concat(
        alloc,
        &[b"#ifndef ", name, b"\n  (void) ", name, b";\n#endif"],
    )?;
    ending_try(alloc, Snippet::Body { text }, b"yes")
}

/// Returns the try with a library of AC_CHECK_LIB.
fn library_try(alloc: Global, library: &[u8]) -> Result<TryForm, AllocError>
    ensures { IfOk result (λ t.
        t ≡ record { snippet = Library library.now; ends_on = true; value = codes "yes" }) }
{
    let library = Bytes::from_slice(alloc, library)?;
    ending_try(alloc, Snippet::Library { library }, b"yes")
}

/// Returns a try that takes the size of a name, between these texts. Its value is `no`.
fn sized_try(
    alloc: Global,
    before: &[u8],
    name: &[u8],
    after: &[u8],
    ends_on: bool,
) -> Result<TryForm, AllocError>
    ensures { IfOk result (λ t. t ≡ sized_try before.now name.now after.now ends_on) }
{
    let text = Bytes::concat(alloc, &[before, name, after])?;
    let value = Bytes::from_slice(alloc, b"no")?;
    Ok(TryForm {
        snippet: Snippet::Body { text },
        ends_on,
        value,
    })
}

/// Returns the try of a type at this place, from 0, if there is one: it has a size, and has none in
/// parentheses.
fn type_try(alloc: Global, name: &[u8], place: usize) -> Result<Option<TryForm>, AllocError>
    ensures at { IfOk result (λ t. t ≡ slice_get (type_tries name.now) place) }
    ensures room { IfOk result (λ t. IfSome t (λ _. place + 1 < 2 ^ 64)) }
{
    let (first, second) = (b"if (sizeof (", b"if (sizeof ((");
    let found = match place {
        0 => sized_try(alloc, first, name, b")) return 0;", false)?,
        1 => sized_try(alloc, second, name, b"))) return 0;", true)?,
        _ => return Ok(None),
    };
    Ok(Some(found))
}

/// Returns a try with a library. Its value is the option that names the library.
fn linked_try(alloc: Global, library: &[u8]) -> Result<TryForm, AllocError>
    ensures { IfOk result (λ t. t ≡ linked_try library.now) }
{
    let value = Bytes::concat(alloc, &[b"-l", library])?;
    let library = Bytes::from_slice(alloc, library)?;
    Ok(TryForm {
        snippet: Snippet::Library { library },
        ends_on: true,
        value,
    })
}

/// Returns the try with the library at this place, from 0, if there is one.
#[tactic(auto, using(crate::proofs::Places::mapped_there, crate::proofs::Places::mapped_past))]
fn linked_at(
    alloc: Global,
    libraries: &[Bytes],
    place: usize,
) -> Result<Option<TryForm>, AllocError>
    ensures at { IfOk result (λ t. t ≡ slice_get (map linked_try libraries.now) place) }
    ensures room { IfOk result (λ t. IfSome t (λ _. place < 2 ^ 63)) }
{
    if place >= libraries.len() {
        return Ok(None);
    }
    let found = linked_try(alloc, libraries[place].as_slice())?;
    Ok(Some(found))
}

/// Returns the try of AC_SEARCH_LIBS at this place, from 0, if there is one: with no further
/// library, and then with each of these.
#[tactic(auto, using(crate::proofs::Places::later))]
fn search_try(alloc: Global, libraries: &Texts, place: usize) -> Result<Option<TryForm>, AllocError>
    ensures at { IfOk result (λ t. t ≡ slice_get (search_tries libraries.now) place) }
    ensures room { IfOk result (λ t. IfSome t (λ _. place + 1 < 2 ^ 64)) }
{
    if place == 0 {
        let found = ending_try(alloc, Snippet::Function, b"none required")?;
        return Ok(Some(found));
    }
    linked_at(alloc, libraries.as_slice(), place - 1)
}

/// Returns the try at this place, from 0, of a list that has this one alone.
fn only_at(found: TryForm, place: usize) -> Option<TryForm>
    ensures at { result ≡ slice_get (found ∷ []) place }
    ensures room { IfSome result (λ _. place + 1 < 2 ^ 64) }
{
    if place == 0 { Some(found) } else { None }
}

/// Returns a text and an entry between two others.
fn entry_between(
    alloc: Global,
    before: &[u8],
    text: &[u8],
    entry: &[u8],
    after: &[u8],
) -> Result<Bytes, AllocError>
    ensures { IfOk result (λ t. t ≡ before.now ++ (text.now ++ entry.now) ++ after.now) }
{
    Bytes::concat(alloc, &[before, text, entry, after])
}

/// Returns an entry and the texts around it between two others.
fn framed_between(
    alloc: Global,
    before: &[u8],
    first: &[u8],
    entry: &[u8],
    last: &[u8],
    after: &[u8],
) -> Result<Bytes, AllocError>
    ensures { IfOk result (λ t.
        t ≡ before.now ++ (first.now ++ entry.now ++ last.now) ++ after.now) }
{
    Bytes::concat(alloc, &[before, first, entry, last, after])
}

impl TestForm {
    /// Returns what is looked for.
    pub fn entry(&self) -> &[u8]
        ensures { result.now ≡ self.now.entry }
    {
        self.entry.as_slice()
    }

    /// Returns the key, after this text: what the cached name has after `ac_cv_`, with any bytes.
    pub fn key_after(&self, alloc: Global, before: &[u8]) -> Result<Bytes, AllocError>
        ensures { IfOk result (λ k. k ≡ before.now ++ self.now.key) }
    {
        let entry = self.entry.as_slice();
        match &self.kind {
            FormKind::Header => Bytes::concat(alloc, &[before, b"header_", entry]),
            FormKind::Function => Bytes::concat(alloc, &[before, b"func_", entry]),
            FormKind::Declaration => Bytes::concat(alloc, &[before, b"have_decl_", entry]),
            FormKind::Type => Bytes::concat(alloc, &[before, b"type_", entry]),
            FormKind::Library { library } => {
                Bytes::concat(alloc, &[before, b"lib_", library.as_slice(), b"_", entry])
            }
            FormKind::Search { .. } => Bytes::concat(alloc, &[before, b"search_", entry]),
        }
    }

    /// Returns the message between these texts: what is printed after `checking `.
    pub fn message_between(
        &self,
        alloc: Global,
        before: &[u8],
        after: &[u8],
    ) -> Result<Bytes, AllocError>
        ensures { IfOk result (λ m. m ≡ before.now ++ self.now.message ++ after.now) }
    {
        let entry = self.entry.as_slice();
        match &self.kind {
            FormKind::Header | FormKind::Function | FormKind::Type => {
                entry_between(alloc, before, b"for ", entry, after)
            }
            FormKind::Declaration => {
                framed_between(alloc, before, b"whether ", entry, b" is declared", after)
            }
            FormKind::Library { library } => {
                let library = library.as_slice();
                Bytes::concat(alloc, &[before, b"for ", entry, b" in -l", library, after])
            }
            FormKind::Search { .. } => {
                entry_between(alloc, before, b"for library containing ", entry, after)
            }
        }
    }

    /// Returns the try at this place, from 0, if there is one.
    pub fn try_at(&self, alloc: Global, place: usize) -> Result<Option<TryForm>, AllocError>
        ensures at { IfOk result (λ t. t ≡ slice_get self.now.tries place) }
        ensures room { IfOk result (λ t. IfSome t (λ _. place + 1 < 2 ^ 64)) }
    {
        let entry = self.entry.as_slice();
        let only = match &self.kind {
            FormKind::Header => ending_try(alloc, Snippet::Header, b"yes")?,
            FormKind::Function => ending_try(alloc, Snippet::Function, b"yes")?,
            FormKind::Declaration => declared_try(alloc, entry)?,
            FormKind::Library { library } => library_try(alloc, library.as_slice())?,
            FormKind::Type => return type_try(alloc, entry, place),
            FormKind::Search { libraries } => return search_try(alloc, libraries, place),
        };
        Ok(only_at(only, place))
    }

    /// Returns the value if no try ends the test.
    pub fn otherwise(&self) -> &'static [u8]
        ensures { result.now ≡ self.now.otherwise }
    {
        match &self.kind {
            FormKind::Type => b"yes",
            FormKind::Header
            | FormKind::Function
            | FormKind::Declaration
            | FormKind::Library { .. }
            | FormKind::Search { .. } => b"no",
        }
    }

    /// Returns which values say that the test has found what it looks for.
    pub fn says(&self) -> Says
        ensures { result ≡ self.now.says }
    {
        match &self.kind {
            FormKind::Search { .. } => Says::AllButNo,
            FormKind::Header
            | FormKind::Function
            | FormKind::Declaration
            | FormKind::Type
            | FormKind::Library { .. } => Says::Yes,
        }
    }

    /// Returns what the test does with its value.
    pub fn gives(&self, alloc: Global) -> Result<Gives, AllocError>
        ensures { IfOk result (λ g. g ≡ self.now.gives) }
    {
        let entry = self.entry.as_slice();
        let gives = match &self.kind {
            FormKind::Header | FormKind::Function | FormKind::Type => Gives::Have {
                what: Bytes::from_slice(alloc, entry)?,
            },
            FormKind::Declaration => Gives::HaveOrNot {
                what: Bytes::concat(alloc, &[b"DECL_", entry])?,
            },
            FormKind::Library { library } => Gives::AddsLibrary {
                library: library.copy(alloc)?,
            },
            FormKind::Search { .. } => return Ok(Gives::AddsValue),
        };
        Ok(gives.only_if(self.gives))
    }
}
