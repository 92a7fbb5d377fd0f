//! The environment, as the fingerprint of a run has it.

ghost use Rattle.std.specs.Prelude.{◌≡◌, ◌∷◌, ◌++◌, IfOk, OnOk, map};
ghost use Rattle.run_facts.specs.Entries as specs;

use deftable::Bytes;
use std::alloc::{AllocError, Global};

/// Returns whether a variable asks for a run that begins afresh.
fn is_afresh(name: &[u8]) -> bool
    ensures { result ≡ specs.is_afresh name.now }
{
    name == b"ACRUN_AFRESH".as_slice()
}

/// Returns whether the environment asks for a run that begins afresh: ACRUN_AFRESH is there and not
/// empty (own).
pub fn begins_afresh(environment: &[(Bytes, Bytes)]) -> bool {
    environment.iter().any(|(name, value)| is_afresh(name.as_slice()) && !value.is_empty())
}

/// Returns a variable as one text.
fn joined(alloc: Global, name: &[u8], value: &[u8]) -> Result<Bytes, AllocError>
    ensures { IfOk result (λ text. text ≡ name.now ++ 61 ∷ value.now) }
{
    let mut text = Vec::from_slice(alloc, name)?;
    text.push(b'=')?;
    text.extend_from_slice(value)?;
    Ok(Bytes::from_vec(text))
}

/// Adds a variable as one text, unless it is ACRUN_AFRESH.
#[tactic(auto, unfolding(crate::specs::Entries::entry_text))]
fn add_entry(
    alloc: Global,
    entry: &(Bytes, Bytes),
    texts: &mut Vec<Bytes>,
) -> Result<(), AllocError>
    ensures { OnOk result (texts.new.items ≡ texts.old.items ++ specs.entry_text entry.now) }
{
    let name = entry.0.as_slice();
    if is_afresh(name) {
        return Ok(());
    }
    let text = joined(alloc, name, entry.1.as_slice())?;
    texts.push(text)?;
    Ok(())
}

/// Returns the variables, each as one text.
pub(crate) fn entries_of(
    alloc: Global,
    environment: &[(Bytes, Bytes)],
) -> Result<Vec<Bytes>, AllocError>
    ensures { IfOk result (λ texts. texts.items ≡ specs.entries environment.now) }
{
    let mut texts = Vec::new(alloc);
    for entry in environment {
        add_entry(alloc, entry, &mut texts)?;
    }
    Ok(texts)
}
