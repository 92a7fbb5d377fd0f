//! What a run hands over.

ghost use Rattle.std.specs.Prelude.{◌≡◌, [], ◌∷◌, ◌++◌, IfOk, OnOk, option_map, Ok, codes};
ghost use Rattle.output_list.specs.Output.{AreOutputs};
ghost use Rattle.output_put.specs.declared.artifact.Kind.TheVariants.{Record as Recorded};
ghost use Rattle.status_record.specs.RecordText.{IsRecord};
ghost use Rattle.ac_tree.specs.Lists.{lists_of};
ghost use Rattle.ac_tree.specs.Script.{script_of};
ghost use Rattle.engine_frame.specs.Handing as hands;

use crate::report::Outcome;
use ac_tree::Source;
use cachefile::cache_text;
use deftable::{Bytes, Defs, Texts, Vars};
use output_make::{add_outputs, record_of};
use output_put::{Artifact, Artifacts, Kind};
use status_record::{Record, write_record};
use std::alloc::{AllocError, Global};

/// Returns the cache text of variables.
fn saved_text(alloc: Global, vars: &Vars) -> Result<Bytes, AllocError>
    ensures value { IfOk result (λ t. t ≡ hands.cache_text_of vars.now) }
    ensures saved { IfOk result (λ t. hands.IsCacheOf vars.now) }
{
    cache_text(alloc, vars)
}

/// Appends the cache, if one is named.
fn add_cache(
    alloc: Global,
    artifacts: &mut Artifacts,
    name: Option<&Bytes>,
    vars: &Vars,
) -> Result<(), AllocError>
    ensures added { OnOk result (
        artifacts.new
        ≡ artifacts.old
        ++ hands.cache_artifacts (option_map (λ n. n.now) name.entry) vars.now) }
    ensures saved { OnOk result (
        hands.IfNamed (option_map (λ n. n.now) name.entry) (hands.IsCacheOf vars.now)) }
{
    let Some(name) = name else {
        return Ok(());
    };
    let text = saved_text(alloc, vars)?;
    let name = name.copy(alloc)?;
    artifacts.push(Artifact {
        kind: Kind::Cache,
        name,
        text,
    })
}

/// Returns a record as an artifact, given its text.
fn record_artifact(alloc: Global, text: Bytes) -> Result<Artifact, AllocError>
    ensures { IfOk result (λ t.
        t ≡ record { kind = Recorded; name = codes "config.status"; text = text }) }
{
    let name = Bytes::from_slice(alloc, b"config.status")?;
    Ok(Artifact {
        kind: Kind::Record,
        name,
        text,
    })
}

/// Appends the record.
fn add_record(alloc: Global, artifacts: &mut Artifacts, recorded: &Record) -> Result<(), AllocError>
    requires { IsRecord recorded.now }
    ensures added { OnOk result (
        artifacts.new ≡ artifacts.old ++ hands.record_artifact recorded.now ∷ []) }
    ensures reads_back { OnOk result (hands.ReadsBack recorded.now) }
{
    let text = write_record(alloc, recorded)?;
    let artifact = record_artifact(alloc, text)?;
    artifacts.push(artifact)
}

/// Appends what a completed run hands over after its cache: the record, and the files and headers
/// if they are wanted.
fn add_completed(
    alloc: Global,
    artifacts: &mut Artifacts,
    recorded: &Record,
    no_create: bool,
    templates: &[(Bytes, Bytes)],
) -> Result<(), AllocError>
    requires { IsRecord recorded.now }
    ensures added { OnOk result (
        artifacts.new
        ≡ artifacts.old ++ hands.completed_artifacts no_create templates.now recorded.now) }
    ensures reads_back { OnOk result (hands.ReadsBack recorded.now) }
{
    add_record(alloc, artifacts, recorded)?;
    if no_create {
        return Ok(());
    }
    add_outputs(alloc, artifacts, recorded, templates, &[])
}

/// Returns the record of a run.
#[tactic(auto, unfolding(output_make::specs::Making::record_of_run))]
fn run_record(
    alloc: Global,
    source: &Source,
    srcdir: &[u8],
    args: &Texts,
    vars: &Vars,
    defs: Defs,
) -> Result<Record, AllocError>
    requires { AreOutputs (lists_of (script_of source.now)).files
        (lists_of (script_of source.now)).headers }
    ensures value { IfOk result (λ r.
        r ≡ hands.run_record (script_of source.now) srcdir.now args.now vars.now defs) }
    ensures record { IfOk result IsRecord }
    ensures defs { IfOk result (λ r. r.defs ≡ defs) }
{
    record_of(
        alloc,
        vars,
        defs,
        source.substituted(),
        srcdir,
        args,
        source.files(),
        source.headers(),
    )
}

/// Returns the definitions of a record.
fn defs_of(recorded: Record) -> Defs
    ensures { result ≡ recorded.defs }
{
    let Record {
        srcdir: _srcdir,
        args: _args,
        vars: _vars,
        defs,
        files: _files,
        headers: _headers,
    } = recorded;
    defs
}

/// Returns what a run hands over that leaves this outcome, these variables and definitions, and the
/// definitions.
#[tactic(auto, unfolding(crate::specs::Handing::artifacts_of))]
pub fn artifacts_of(
    alloc: Global,
    source: &Source,
    cache_name: Option<&Bytes>,
    srcdir: &[u8],
    args: &Texts,
    no_create: bool,
    templates: &[(Bytes, Bytes)],
    outcome: Outcome,
    vars: &Vars,
    defs: Defs,
) -> Result<(Artifacts, Defs), AllocError>
    requires { AreOutputs (lists_of (script_of source.now)).files
        (lists_of (script_of source.now)).headers }
    ensures artifacts { IfOk result (λ t.
        t.0
        ≡ hands.artifacts_of (option_map (λ n. n.now) cache_name.entry) no_create templates.now
        outcome vars.now
        (hands.run_record (script_of source.now) srcdir.now args.now vars.now defs)) }
    ensures defs { IfOk result (λ t. t.1 ≡ defs) }
    ensures saved { IfOk result (λ t.
        hands.IfNamed (option_map (λ n. n.now) cache_name.entry) (hands.IsCacheOf vars.now)) }
    ensures reads_back { OnOk result (
        hands.IfCompleted outcome (
        hands.ReadsBack (
        hands.run_record (script_of source.now) srcdir.now args.now vars.now defs))) }
{
    let mut artifacts = Artifacts::new(alloc);
    add_cache(alloc, &mut artifacts, cache_name, vars)?;
    match outcome {
        Outcome::Completed => {
            let record = run_record(alloc, source, srcdir, args, vars, defs)?;
            add_completed(alloc, &mut artifacts, &record, no_create, templates)?;
            Ok((artifacts, defs_of(record)))
        }
        _ => Ok((artifacts, defs)),
    }
}
