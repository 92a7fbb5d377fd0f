//! The text of a conftest, and the names of its files.

ghost use Rattle.std.specs.Prelude.{◌≡◌, ◌++◌, IfOk, OnOk, decimal};
ghost use Rattle.std.specs.List.{flat_map};
ghost use Rattle.crew_jobs.specs.Probe as probe;

use conftest_source::put_ended;
use deftable::{Bytes, Defs};
use std::alloc::{AllocError, Global};

/// Returns `conftest`, or `conftest2` for number 2.
#[tactic(auto, unfolding(crew_jobs::specs::Probe::out_name))]
pub(crate) fn out_name(alloc: Global, number: u64) -> Result<Vec<u8>, AllocError>
    ensures { IfOk result (λ name. name.items ≡ probe.out_name number) }
{
    let name = Vec::from_slice(alloc, b"conftest")?;
    if number == 0 {
        return Ok(name);
    }
    numbered(alloc, name, number)
}

fn numbered(alloc: Global, mut name: Vec<u8>, number: u64) -> Result<Vec<u8>, AllocError>
    ensures { IfOk result (λ v. v.items ≡ name.items ++ decimal number) }
{
    let digits = format!(in alloc; "{number}")?;
    name.extend_from_slice(digits.as_bytes())?;
    Ok(name)
}

/// Returns the name of the file that the compiler reads.
#[tactic(auto, unfolding(crew_jobs::specs::Probe::file_name))]
pub(crate) fn file_name(alloc: Global, number: u64) -> Result<Vec<u8>, AllocError>
    ensures { IfOk result (λ name. name.items ≡ probe.file_name number) }
{
    let mut name = out_name(alloc, number)?;
    name.extend_from_slice(b".c")?;
    Ok(name)
}

/// Returns the text of a conftest: the definitions in order, and then the source.
#[tactic(auto, unfolding(crew_jobs::specs::Probe::conftest_text))]
pub(crate) fn conftest_text(alloc: Global, defs: &Defs, source: &[u8]) -> Result<Bytes, AllocError>
    ensures { IfOk result (λ text. text ≡ probe.conftest_text defs.now source.now) }
{
    let mut text = Vec::from_slice(alloc, b"/* confdefs.h */\n")?;
    put_defines(&mut text, defs)?;
    put_ended(&mut text, source)?;
    Ok(Bytes::from_vec(text))
}

fn put_defines(text: &mut Vec<u8>, defs: &Defs) -> Result<(), AllocError>
    ensures { OnOk result (text.new.items ≡ text.old.items ++ flat_map probe.define_line defs.now) }
{
    for i in 0..defs.len() {
        let (name, value) = defs.at(i);
        put_define(text, name, value)?;
    }
    Ok(())
}

#[tactic(auto, unfolding(crew_jobs::specs::Probe::define_line))]
fn put_define(text: &mut Vec<u8>, name: &[u8], value: &[u8]) -> Result<(), AllocError>
    ensures { OnOk result (
        text.new.items ≡ text.old.items ++ probe.define_line (name.now, value.now)) }
{
    text.extend_from_slice(b"#define ")?;
    text.extend_from_slice(name)?;
    text.extend_from_slice(b" ")?;
    text.extend_from_slice(value)?;
    text.extend_from_slice(b"\n")?;
    Ok(())
}
