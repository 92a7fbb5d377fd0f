//! Outputs that are made again, from a record.

ghost use Rattle.std.specs.Prelude.{◌≡◌, ◌+◌, ◌^◌, ◌<◌, ◌≤◌, length, option_map};
ghost use Rattle.std.specs.Option.{option_copied};
ghost use Rattle.output_make.specs.Choice.{unknown};
ghost use Rattle.output_make.specs.Making.{made};
ghost use Rattle.status_record.specs.Reading.{record_in};
ghost use Rattle.engine_frame.specs.Faults.{GivesAgain, named, of_record};
ghost use Rattle.engine_frame.specs.Remade as words;

use crate::fault::RemakeFault;
use deftable::Bytes;
use output_list::Output;
use output_make::{find_missing, find_unknown, make_outputs};
use output_put::{Artifact, Artifacts, Outputs, put_all};
use status_record::{Record, read_record};
use std::alloc::Global;

/// Reads a record.
pub(crate) fn read(alloc: Global, text: &[u8]) -> Result<Record, RemakeFault>
    ensures { GivesAgain (λ r. r) result (named of_record (record_in text.now)) }
{
    Ok(read_record(alloc, text)?)
}

/// Checks that each tag is the name of an output.
fn check_tags(recorded: &Record, tags: &[Bytes]) -> Result<(), RemakeFault>
    ensures { GivesAgain (λ _. tt) result (words.none_unknown (unknown recorded.now tags.now)) }
{
    match find_unknown(recorded, tags) {
        None => Ok(()),
        Some(place) => Err(RemakeFault::UnknownTag(place as u64 + 1)),
    }
}

/// Checks that nothing is missing.
fn check_found(alloc: Global, missing: Option<&Output>) -> Result<(), RemakeFault>
    ensures { GivesAgain (λ _. tt) result (words.none_missing (option_copied missing.entry)) }
{
    match missing {
        None => Ok(()),
        Some(output) => {
            let name = output.template.copy(alloc)?;
            Err(RemakeFault::NoTemplate(name))
        }
    }
}

/// Checks that the templates of the outputs that are chosen are there.
#[tactic(auto, unfolding(crate::specs::Remade::present))]
fn check_templates(
    alloc: Global,
    recorded: &Record,
    templates: &[(Bytes, Bytes)],
    tags: &[Bytes],
) -> Result<(), RemakeFault>
    ensures { GivesAgain (λ _. tt) result (words.present recorded.now templates.now tags.now) }
{
    let file = find_missing(alloc, templates, recorded.files.as_slice(), tags)?;
    check_found(alloc, file)?;
    let header = find_missing(alloc, templates, recorded.headers.as_slice(), tags)?;
    check_found(alloc, header)
}

/// Returns the outputs of a record that are chosen.
fn outputs_of(
    alloc: Global,
    recorded: &Record,
    templates: &[(Bytes, Bytes)],
    tags: &[Bytes],
) -> Result<Artifacts, RemakeFault>
    ensures { GivesAgain (λ t. t) result (Ok (made recorded.now templates.now tags.now)) }
{
    Ok(make_outputs(alloc, recorded, templates, tags)?)
}

/// Returns what a record gives.
#[tactic(auto, unfolding(crate::specs::Remade::made_again))]
fn artifacts_of(
    alloc: Global,
    recorded: &Record,
    templates: &[(Bytes, Bytes)],
    tags: &[Bytes],
) -> Result<Artifacts, RemakeFault>
    ensures { GivesAgain (λ t. t) result (words.made_again recorded.now templates.now tags.now) }
{
    check_tags(recorded, tags)?;
    check_templates(alloc, recorded, templates, tags)?;
    outputs_of(alloc, recorded, templates, tags)
}

/// Hands over artifacts.
fn put_artifacts<O: Outputs>(outputs: &mut O, artifacts: &[Artifact]) -> Result<usize, RemakeFault>
    requires { (O.receipt outputs.old).failures < 2 ^ 62 }
    ensures put { words.IsPut artifacts.now (O.receipt outputs.old) (O.receipt outputs.new) result }
    ensures lasting { O.kept outputs.new ≡ O.kept outputs.old }
{
    match put_all(outputs, artifacts) {
        Ok(()) => Ok(artifacts.len()),
        Err(number) => Err(RemakeFault::PutRefused(number)),
    }
}

/// Makes the outputs of a record again that was read, as [`remake`] does.
///
/// # Errors
///
/// Those of [`remake`] but `Record`, in the same order.
pub fn remake_record<O: Outputs>(
    alloc: Global,
    recorded: &Record,
    templates: &[(Bytes, Bytes)],
    tags: &[Bytes],
    outputs: &mut O,
) -> Result<usize, RemakeFault>
    requires puts { (O.receipt outputs.old).failures + 256 ≤ 2 ^ 62 }
    ensures remade { words.IsRemade (words.made_again recorded.now templates.now tags.now)
        (outputs.new ≡ outputs.old) (O.receipt outputs.old) (O.receipt outputs.new) result }
    ensures lasting { O.kept outputs.new ≡ O.kept outputs.old }
{
    let artifacts = artifacts_of(alloc, recorded, templates, tags)?;
    put_artifacts(outputs, artifacts.as_slice())
}

/// Makes the outputs of a record again, from the templates as they are now, and hands them over.
/// Returns their number.
///
/// `text` is that of a record. Without tags, all outputs are made, and otherwise those whose names
/// are tags, each once: files before headers, in the order of the record.
///
/// # Errors
///
/// Returns the first fault, in the order of [`RemakeFault`]. If a put is refused, the artifacts
/// before it were handed over, each whole; after any other fault nothing is handed over.
pub fn remake<O: Outputs>(
    alloc: Global,
    text: &[u8],
    templates: &[(Bytes, Bytes)],
    tags: &[Bytes],
    outputs: &mut O,
) -> Result<usize, RemakeFault>
    requires puts { (O.receipt outputs.old).failures + 256 ≤ 2 ^ 62 }
    ensures remade { words.IsRemade (words.remade text.now templates.now tags.now)
        (outputs.new ≡ outputs.old) (O.receipt outputs.old) (O.receipt outputs.new) result }
    ensures lasting { O.kept outputs.new ≡ O.kept outputs.old }
{
    let recorded = read(alloc, text)?;
    remake_record(alloc, &recorded, templates, tags, outputs)
}
