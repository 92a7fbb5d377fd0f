//! The settings of a run.

ghost use Rattle.std.specs.Prelude.{◌≡◌, ◌≢◌, Ok, Err, IfOk, IfErr, OnOk};
ghost use Rattle.options.specs.Opening.{checking_in, finished, opening, IsOpening, IsOpeningFault};
ghost use Rattle.options_line.specs.Reading.{Gives};
ghost use Rattle.options_line.specs.Srcdir.{srcdir_of};
ghost use Rattle.options.specs.Stepwise as words;
ghost use Rattle.options.specs.Unrecognized.{notes_of};
ghost use Rattle.options_line.specs.declared.fault.OptionFault as faults;
ghost use Rattle.options_line.specs.declared.fault.OptionFault.TheVariants.{OutOfMemory};
ghost use Rattle.options.specs.declared.settings.Settings as settings;

use crate::opening::{finish_vars, reader_before};
use crate::reader::ReadArguments;
use crate::unrecognized::notes_of;
use deftable::{Bytes, Notes, SubstList, Vars};
use options_line::fault::OptionFault;
use options_line::srcdir::srcdir_of;
use std::alloc::{AllocError, Global};

/// What a run begins with, before a cache is loaded.
#[derive(Drop)]
pub struct Settings {
    /// The variables: those of the environment, of the directories and of the arguments, and the
    /// marks of precious variables.
    pub vars: Vars,
    /// The warning about options that the source doesn't declare, if there are any.
    pub notes: Notes,
    /// The cache file, if one is read and written.
    pub cache_name: Option<Bytes>,
    /// The directory of the source, without final slashes.
    pub srcdir: Bytes,
    /// If true, nothing is printed on standard output.
    pub quiet: bool,
    /// If true, no file is made.
    pub no_create: bool,
    /// If true, the help text is printed instead of a run.
    pub help: bool,
    /// If true, the version is printed instead of a run.
    pub version: bool,
}

/// Returns the settings after all arguments, once the variables are finished.
fn settings_of(reader: ReadArguments, notes: Notes, srcdir: Bytes) -> Settings
    ensures { result
        ≡ record {
          vars = reader.vars;
          notes = notes;
          cache_name = reader.cache_name;
          srcdir = srcdir;
          quiet = reader.quiet;
          no_create = reader.no_create;
          help = reader.help;
          version = reader.version;
        } }
{
    let ReadArguments {
        vars,
        cache_name,
        quiet,
        no_create,
        help,
        version,
        ..
    } = reader;
    Settings {
        vars,
        notes,
        cache_name,
        srcdir,
        quiet,
        no_create,
        help,
        version,
    }
}

/// Finishes the variables, and returns the directory of the source.
fn finish(
    alloc: Global,
    precious: &SubstList,
    args: &[Bytes],
    vars: &mut Vars,
) -> Result<Bytes, AllocError>
    ensures vars { OnOk result (vars.new ≡ finished precious.now vars.old) }
    ensures directory { IfOk result (λ srcdir. srcdir ≡ srcdir_of args.now) }
{
    finish_vars(alloc, vars, precious.names())?;
    Bytes::from_slice(alloc, srcdir_of(args))
}

/// Returns the settings after all arguments, with these notes.
#[tactic(auto, unfolding(crate::specs::Stepwise::settings_with))]
fn settings_with(
    alloc: Global,
    precious: &SubstList,
    args: &[Bytes],
    mut reader: ReadArguments,
    notes: Notes,
) -> Result<Settings, AllocError>
    ensures exact { IfOk result (λ s. s ≡ words.settings_with precious.now args.now reader notes) }
    ensures directory { IfOk result (λ s. s.srcdir ≡ srcdir_of args.now) }
{
    let srcdir = finish(alloc, precious, args, &mut reader.vars)?;
    Ok(settings_of(reader, notes, srcdir))
}

/// Returns the notes about options that are not declared.
fn notes_after(alloc: Global, reader: &ReadArguments) -> Result<Notes, OptionFault>
    ensures { Gives (λ notes. notes) result
        (notes_of (checking_in reader.now.vars) reader.now.unrecognized) }
{
    let checking = reader.vars.value_or_empty(b"enable_option_checking");
    notes_of(alloc, checking, &reader.unrecognized)
}

/// Returns the settings after all arguments.
fn settings_after(
    alloc: Global,
    precious: &SubstList,
    args: &[Bytes],
    reader: ReadArguments,
) -> Result<Settings, OptionFault>
    ensures exact { Gives (λ s. s) result (words.settings_after precious.now args.now reader) }
    ensures directory { IfOk result (λ s. s.srcdir ≡ srcdir_of args.now) }
{
    let notes = notes_after(alloc, &reader)?;
    Ok(settings_with(alloc, precious, args, reader, notes)?)
}

/// Reads the arguments from the left, and then makes the settings.
#[tactic(auto, unfolding(crate::specs::Stepwise::stepwise))]
fn read_stepwise(
    alloc: Global,
    features: &SubstList,
    packages: &SubstList,
    precious: &SubstList,
    args: &[Bytes],
    env: &[(Bytes, Bytes)],
) -> Result<Settings, OptionFault>
    ensures exact { Gives (λ s. s) result
        (words.stepwise features.now packages.now precious.now args.now env.now) }
    ensures directory { IfOk result (λ s. s.srcdir ≡ srcdir_of args.now) }
{
    let reader = reader_before(alloc, env)?;
    let reader = reader.read_all(alloc, features, packages, args)?;
    settings_after(alloc, precious, args, reader)
}

/// Returns the settings of a command line and an environment (Autoconf's manual, "Running configure
/// Scripts"; the table of options is own).
///
/// `features` and `packages` are the variables of the features and packages that the source
/// declares, such as `enable_a_b` and `with_x`; `precious` has its precious variables. `args` are
/// the arguments without the program's name, and `env` has the name and the value of each entry of
/// the environment. The directory of the source is the one that [`srcdir_of`] returns.
///
/// # Errors
///
/// Returns the error of the first argument that has one. If all are right, returns
/// `FatalUnrecognized` under its condition.
pub fn read_args_of(
    alloc: Global,
    features: &SubstList,
    packages: &SubstList,
    precious: &SubstList,
    args: &[Bytes],
    env: &[(Bytes, Bytes)],
) -> Result<Settings, OptionFault>
    ensures sound { IfOk result (λ s.
        IsOpening features.now packages.now precious.now args.now env.now s) }
    ensures complete { (s : settings.Settings)
        → IsOpening features.now packages.now precious.now args.now env.now s
        → Gives (λ s. s) result (Ok s) }
    ensures error_sound { IfErr result (λ f. f ≢ OutOfMemory
        → IsOpeningFault features.now packages.now precious.now args.now env.now f) }
    ensures error_complete { (f : faults.OptionFault)
        → IsOpeningFault features.now packages.now precious.now args.now env.now f
        → Gives (λ s. s) result (Err f) }
    ensures exact { Gives (λ s. s) result
        (opening features.now packages.now precious.now args.now env.now) }
    ensures directory { IfOk result (λ s. s.srcdir ≡ srcdir_of args.now) }
{
    read_stepwise(alloc, features, packages, precious, args, env)
}
