//! What a source asks for by its arguments and its environment.

ghost use Rattle.std.specs.Prelude.{◌≡◌, nat_le, IfOk};
ghost use Rattle.options_line.specs.Srcdir.{srcdir_of};
ghost use Rattle.options.specs.Opening.{opening};
ghost use Rattle.output_list.specs.Output.{AreOutputs};
ghost use Rattle.plan.specs.Walk.{DoesWhat};
ghost use Rattle.plan.specs.Weight.{heaviest, weight};
ghost use Rattle.plan.specs.declared.fault.PlanFault.TheVariants.{TooLong};
ghost use Rattle.ac_tree.specs.Lists.{lists_of};
ghost use Rattle.ac_tree.specs.Script.{script_of};
ghost use Rattle.engine_frame.specs.Faults.{Gives, named, of_option, wants};
ghost use Rattle.engine_frame.specs.Given.{source_settings};
ghost use Rattle.engine_frame.specs.Judging.{RunsBelow, judgement, judged_of};
ghost use Rattle.engine_frame.specs.declared.fault.Fault.TheVariants.{Plan as Unplanned};

use crate::fault::Fault;
use crate::needs::Needs;
use crate::report::Report;
use crate::showing::shown;
use ac_tree::Source;
use deftable::Bytes;
use options::{Settings, read_args};
use plan::{Plan, compile};
use std::alloc::Global;

/// What follows from a source, its arguments and its environment.
#[derive(Drop)]
pub enum Judged<'a> {
    /// A text is shown: the help text or the version. This is the report.
    Shows(Report),
    /// The source is to be run.
    Runs(Needs<'a>),
}

/// Compiles the source.
fn planned<'a>(alloc: Global, source: &'a Source) -> Result<Plan<'a>, Fault>
    ensures exact { Gives (λ _. tt) result
        (wants (nat_le (weight (script_of source.now)) heaviest) (Unplanned TooLong)) }
    ensures meaning { IfOk result (λ plan. DoesWhat plan (script_of source.now)) }
{
    Ok(compile(alloc, source)?)
}

/// Reads the arguments and the environment.
fn settled(
    alloc: Global,
    source: &Source,
    args: &[Bytes],
    env: &[(Bytes, Bytes)],
) -> Result<Settings, Fault>
    ensures exact { Gives (λ s. s) result (
        named of_option (
        opening (lists_of (script_of source.now)).features
        (lists_of (script_of source.now)).packages
        (lists_of (script_of source.now)).precious args.now env.now)) }
    ensures directory { IfOk result (λ s. s.srcdir ≡ srcdir_of args.now) }
{
    Ok(read_args(alloc, source, args, env)?)
}

/// Compiles the source, and then reads the arguments and the environment.
#[tactic(auto, unfolding(crate::specs::Given::source_settings))]
fn source_settings<'a>(
    alloc: Global,
    source: &'a Source,
    args: &[Bytes],
    env: &[(Bytes, Bytes)],
) -> Result<(Plan<'a>, Settings), Fault>
    ensures exact { Gives (λ r. r.1) result
        (source_settings args.now env.now (script_of source.now)) }
    ensures meaning { IfOk result (λ r. DoesWhat r.0 (script_of source.now)) }
    ensures directory { IfOk result (λ r. r.1.srcdir ≡ srcdir_of args.now) }
{
    let plan = planned(alloc, source)?;
    let settings = settled(alloc, source, args, env)?;
    Ok((plan, settings))
}

/// Judges a source by its arguments and its environment: what it needs if it is to be run, or the
/// report that shows a text. `engine::go` runs it.
///
/// # Errors
///
/// Returns the first fault: of the plan, and then of the arguments.
#[tactic(auto, unfolding(crate::specs::Judging::judgement))]
pub fn judge<'a>(
    alloc: Global,
    source: &'a Source,
    args: &'a [Bytes],
    env: &[(Bytes, Bytes)],
) -> Result<Judged<'a>, Fault>
    requires outputs { AreOutputs (lists_of (script_of source.now)).files
        (lists_of (script_of source.now)).headers }
    ensures exact { Gives judged_of result (judgement args.now env.now (script_of source.now)) }
    // The directory of the source is the one that the arguments name, also before they are judged.
    ensures directory { IfOk result (RunsBelow (srcdir_of args.now)) }
{
    let (plan, settings) = source_settings(alloc, source, args, env)?;
    if settings.help || settings.version {
        let report = shown(alloc, source, settings)?;
        return Ok(Judged::Shows(report));
    }
    Ok(Judged::Runs(Needs::new(source, plan, args, settings)))
}
