//! The words of a compiler's command.

ghost use Rattle.std.specs.Prelude.{◌≡◌, ◌++◌, [], ◌∷◌, IfOk, OnOk, codes, unwrap_or};
ghost use Rattle.crew_jobs.specs.Probe as probe;
ghost use Rattle.deftable.specs.Table.{value_of};
ghost use Rattle.text_cut.specs.Cuts as cuts;

use crate::text::{file_name, out_name};
use crew_jobs::{Words, push_all};
use deftable::{Bytes, Vars};
use std::alloc::{AllocError, Global};
use text_cut::fields;

/// Appends the words of a text.
fn push_fields(alloc: Global, words: &mut Words, text: &[u8]) -> Result<(), AllocError>
    ensures { OnOk result (words.new ≡ words.old ++ cuts.fields text.now) }
{
    let found = fields(alloc, text)?;
    push_all(words, found.as_slice())
}

/// Appends the words of a variable's value.
#[tactic(auto, unfolding(crew_jobs::specs::Probe::words_of))]
fn push_value(alloc: Global, words: &mut Words, vars: &Vars, name: &[u8]) -> Result<(), AllocError>
    ensures { OnOk result (words.new ≡ words.old ++ probe.words_of vars.now name.now) }
{
    push_fields(alloc, words, vars.value_or_empty(name))
}

/// Returns the words of a variable's value, or none if it is unset.
fn words_of(alloc: Global, vars: &Vars, name: &[u8]) -> Result<Words, AllocError>
    ensures { IfOk result (λ w. w ≡ probe.words_of vars.now name.now) }
{
    let mut words = Words::new(alloc);
    push_value(alloc, &mut words, vars, name)?;
    Ok(words)
}

pub(crate) fn compiler(alloc: Global, vars: &Vars) -> Result<Words, AllocError>
    ensures { IfOk result (λ w. w ≡ probe.words_of vars.now (codes "CC")) }
{
    words_of(alloc, vars, b"CC")
}

/// Returns the words of CPP, or those of CC with `-E` if CPP has none.
#[tactic(auto, unfolding(crew_jobs::specs::Probe::preprocessor))]
pub(crate) fn preprocessor(alloc: Global, vars: &Vars) -> Result<Words, AllocError>
    ensures { IfOk result (λ w. w ≡ probe.preprocessor vars.now) }
{
    let words = words_of(alloc, vars, b"CPP")?;
    if !words.as_slice().is_empty() {
        return Ok(words);
    }
    let mut words = compiler(alloc, vars)?;
    if !words.as_slice().is_empty() {
        words.push(b"-E")?;
    }
    Ok(words)
}

/// Appends the flags of every command that compiles.
fn push_flags(alloc: Global, words: &mut Words, vars: &Vars) -> Result<(), AllocError>
    ensures { OnOk result (
        words.new
        ≡ words.old ++ probe.words_of vars.now (codes "CFLAGS")
        ++ probe.words_of vars.now (codes "CPPFLAGS")) }
{
    push_value(alloc, words, vars, b"CFLAGS")?;
    push_value(alloc, words, vars, b"CPPFLAGS")
}

/// Appends the name of the file that the compiler reads.
fn push_file(alloc: Global, words: &mut Words, number: u64) -> Result<(), AllocError>
    ensures { OnOk result (words.new ≡ words.old ++ probe.file_name number ∷ []) }
{
    let file = file_name(alloc, number)?;
    words.push(file.as_slice())
}

/// Appends the name of the program that the linker writes.
fn push_out(alloc: Global, words: &mut Words, number: u64) -> Result<(), AllocError>
    ensures { OnOk result (words.new ≡ words.old ++ probe.out_name number ∷ []) }
{
    let out = out_name(alloc, number)?;
    words.push(out.as_slice())
}

/// Appends the arguments of a compile job to the compiler's own words.
#[tactic(auto, unfolding(crew_jobs::specs::Probe::compile_words))]
pub(crate) fn push_compile_words(
    alloc: Global,
    words: &mut Words,
    vars: &Vars,
    number: u64,
) -> Result<(), AllocError>
    requires { words.old ≡ probe.words_of vars.now (codes "CC") }
    ensures { OnOk result (words.new ≡ probe.compile_words number vars.now) }
{
    words.push(b"-c")?;
    push_flags(alloc, words, vars)?;
    push_file(alloc, words, number)
}

/// Appends the arguments of a link job to the compiler's own words. `libraries` is the value of
/// LIBS.
#[tactic(auto, unfolding(crew_jobs::specs::Probe::link_words_with))]
pub(crate) fn push_link_words(
    alloc: Global,
    words: &mut Words,
    vars: &Vars,
    libraries: &[u8],
    number: u64,
) -> Result<(), AllocError>
    requires { words.old ≡ probe.words_of vars.now (codes "CC") }
    ensures { OnOk result (
        words.new ≡ probe.link_words_with (cuts.fields libraries.now) number vars.now) }
{
    words.push(b"-o")?;
    push_out(alloc, words, number)?;
    push_flags(alloc, words, vars)?;
    push_value(alloc, words, vars, b"LDFLAGS")?;
    push_file(alloc, words, number)?;
    push_fields(alloc, words, libraries)
}

/// Appends the arguments of a preprocess job to the preprocessor's own words.
#[tactic(auto, unfolding(crew_jobs::specs::Probe::preprocess_words))]
pub(crate) fn push_preprocess_words(
    alloc: Global,
    words: &mut Words,
    vars: &Vars,
    number: u64,
) -> Result<(), AllocError>
    requires { words.old ≡ probe.preprocessor vars.now }
    ensures { OnOk result (words.new ≡ probe.preprocess_words number vars.now) }
{
    push_value(alloc, words, vars, b"CPPFLAGS")?;
    push_file(alloc, words, number)
}
