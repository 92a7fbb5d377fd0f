//! The settings and the help text of a source, from what it declares.

ghost use Rattle.std.specs.Prelude.{◌≡◌, ◌≢◌, Ok, Err, IfOk, IfErr, OnErr};
ghost use Rattle.options.specs.HelpText.{help_text as text_of};
ghost use Rattle.options.specs.Opening.{opening, IsOpening, IsOpeningFault};
ghost use Rattle.options.specs.Precious.{checked, AreUnchanged, IsChecked, IsPreciousFault};
ghost use Rattle.options.specs.Reading.{Gives as Checks};
ghost use Rattle.options.specs.declared.fault.PreciousFault as precious;
ghost use Rattle.options.specs.declared.fault.PreciousFault.TheVariants.{OutOfMemory as NoMemory};
ghost use Rattle.options_line.specs.Reading.{Gives};
ghost use Rattle.options_line.specs.Srcdir.{srcdir_of};
ghost use Rattle.options_line.specs.declared.fault.OptionFault as faults;
ghost use Rattle.options_line.specs.declared.fault.OptionFault.TheVariants.{OutOfMemory};
ghost use Rattle.ac_tree.specs.Lists.{lists_of};
ghost use Rattle.ac_tree.specs.Script.{script_of};
ghost use Rattle.options.specs.declared.settings.Settings as settings;

use crate::fault::PreciousFault;
use crate::help::help_text_of;
use crate::precious::check_precious_of;
use crate::settings::{Settings, read_args_of};
use ac_tree::Source;
use cachefile::OldCache;
use deftable::{Bytes, Notes, Vars};
use options_line::fault::OptionFault;
use std::alloc::{AllocError, Global};

/// Returns the settings for this source of a command line and an environment. `args` are the
/// arguments without the program's name, and `env` has the name and the value of each entry
/// (Autoconf's manual, "Running configure Scripts"; the table of options is own).
///
/// # Errors
///
/// Returns the error of the first argument that has one. If all are right, returns
/// `FatalUnrecognized` under its condition.
pub fn read_args(
    alloc: Global,
    source: &Source,
    args: &[Bytes],
    env: &[(Bytes, Bytes)],
) -> Result<Settings, OptionFault>
    ensures sound { IfOk result (λ s.
        IsOpening (lists_of (script_of source.now)).features
        (lists_of (script_of source.now)).packages (lists_of (script_of source.now)).precious
        args.now env.now s) }
    ensures complete { (s : settings.Settings)
        → IsOpening (lists_of (script_of source.now)).features
        (lists_of (script_of source.now)).packages (lists_of (script_of source.now)).precious
        args.now env.now s → Gives (λ s. s) result (Ok s) }
    ensures error_sound { IfErr result (λ f.
        f ≢ OutOfMemory
        → IsOpeningFault (lists_of (script_of source.now)).features
        (lists_of (script_of source.now)).packages
        (lists_of (script_of source.now)).precious args.now env.now f) }
    ensures error_complete { (f : faults.OptionFault)
        → IsOpeningFault (lists_of (script_of source.now)).features
        (lists_of (script_of source.now)).packages (lists_of (script_of source.now)).precious
        args.now env.now f → Gives (λ s. s) result (Err f) }
    ensures exact { Gives (λ s. s) result (
        opening (lists_of (script_of source.now)).features
        (lists_of (script_of source.now)).packages (lists_of (script_of source.now)).precious
        args.now env.now) }
    ensures directory { IfOk result (λ s. s.srcdir ≡ srcdir_of args.now) }
{
    read_args_of(
        alloc,
        source.features(),
        source.packages(),
        source.precious(),
        args,
        env,
    )
}

/// Checks the precious variables of this source against a cache that is still to be poured over the
/// variables, as [`check_precious_of`](crate::check_precious_of) does.
///
/// # Errors
///
/// Returns the fault of the first precious variable that has one. If it fails, the variables are
/// unchanged.
pub fn check_precious(
    alloc: Global,
    source: &Source,
    vars: &mut Vars,
    cache: &OldCache,
) -> Result<Notes, PreciousFault>
    ensures sound { IfOk result (λ notes.
        IsChecked (lists_of (script_of source.now)).precious vars.old cache.now vars.new notes) }
    ensures complete { AreUnchanged (lists_of (script_of source.now)).precious vars.old cache.now
        → IfErr result (λ fault. fault ≡ NoMemory) }
    ensures error_sound { IfErr result (λ fault.
        fault ≢ NoMemory
        → IsPreciousFault (lists_of (script_of source.now)).precious vars.old cache.now fault) }
    ensures error_complete { (fault : precious.PreciousFault)
        → IsPreciousFault (lists_of (script_of source.now)).precious vars.old cache.now fault
        → Checks (λ notes. notes) result (Err fault) }
    ensures exact { Checks (λ notes. (vars.new, notes)) result
        (checked (lists_of (script_of source.now)).precious vars.old cache.now) }
    ensures unchanged { OnErr result (vars.new ≡ vars.old) }
{
    check_precious_of(alloc, source.precious(), vars, cache)
}

/// Returns the text that `--help` prints: the usage, and the lines of each option and precious
/// variable of the source, in order (own).
///
/// # Errors
///
/// Fails only if memory runs out.
pub fn help_text(alloc: Global, source: &Source) -> Result<Bytes, AllocError>
    ensures { IfOk result (λ text. text ≡ text_of (lists_of (script_of source.now)).help) }
{
    help_text_of(alloc, source.help())
}
