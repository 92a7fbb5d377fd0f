//! The faults of a run.

ghost use Rattle.std.specs.Prelude.{◌≡◌, true, false, []};
ghost use Rattle.cmd_call.specs.Lines.{SaysLines};

use crate::page::{put_words, slices};
use crate::precious::{Given, of_precious};
use crate::source::explain_source;
use crate::{Why, explain_template};
use cachefile::CacheFault;
use cmd_call::Hears;
use deftable::Bytes;
use engine_frame::Fault;
use file_disk::Disk;
use lint_table::Words;
use options_line::OptionFault;
use run_words::{cache_words, option_words};
use std::alloc::{AllocError, Global};

/// Returns what is wrong with an argument.
fn of_option(alloc: Global, why: &Why<'_>, fault: OptionFault) -> Result<Words, AllocError> {
    let args = slices(alloc, why.args)?;
    option_words(alloc, fault, args.as_slice())
}

/// Returns the words after the name of the cache and the number of the line that is wrong.
fn at_line(alloc: Global, cache: &[u8], line: u64, words: &[u8]) -> Result<Bytes, AllocError> {
    let number = format!(in alloc; ":{line}: ")?;
    let mut out = Vec::from_slice(alloc, cache)?;
    out.extend_from_slice(number.as_bytes())?;
    out.extend_from_slice(words)?;
    Ok(Bytes::from_vec(out))
}

/// Returns what is wrong with the cache, and in which line.
fn of_cache(alloc: Global, given: &Given<'_>, fault: CacheFault) -> Result<Words, AllocError> {
    let words = cache_words(alloc, fault, given.cache)?;
    match (fault, &given.settings.cache_name) {
        (CacheFault::BadLine(line) | CacheFault::BadName(line), Some(name)) => {
            let message = at_line(alloc, name.as_slice(), line, words.message.as_slice())?;
            Ok(Words {
                message,
                help: words.help,
            })
        }
        _ => Ok(words),
    }
}

/// Says what is wrong with the cache or with a precious variable, after the line of the fault.
#[tactic(auto, using(cmd_call::proofs::Pages::says_nothing))]
fn explain_given<E: Hears>(alloc: Global, given: &Given<'_>, errors: &mut E, fault: &Fault)
    ensures paged { SaysLines E.contents E.has_failed errors.old errors.new true [] }
{
    match fault {
        Fault::Cache(fault) => put_words(alloc, of_cache(alloc, given, *fault), errors),
        Fault::Precious(fault) => put_words(alloc, of_precious(alloc, given, *fault), errors),
        _ => {}
    }
}

/// Says what is wrong with what a run is given, after the line of the fault, if it is asked. If the
/// source was judged before the fault was found, `given` is what the run was given then.
#[tactic(auto, using(cmd_call::proofs::Pages::says_nothing, crate::proofs::Pages::asked_pages))]
pub fn explain_fault<D: Disk, E: Hears>(
    alloc: Global,
    disk: &D,
    why: &Why<'_>,
    given: Option<&Given<'_>>,
    errors: &mut E,
    fault: &Fault,
)
    ensures silent { why.now.is_asked ≡ false → errors.new ≡ errors.old }
    ensures paged { SaysLines E.contents E.has_failed errors.old errors.new why.now.is_asked [] }
{
    if why.is_asked {
        match fault {
            Fault::Option(fault) => put_words(alloc, of_option(alloc, why, *fault), errors),
            Fault::Cache(_) | Fault::Precious(_) => {
                if let Some(given) = given {
                    explain_given(alloc, given, errors, fault);
                }
            }
            Fault::NoTemplate(name) => explain_template(alloc, disk, why, name.as_slice(), errors),
            _ => explain_source(alloc, why, errors, fault),
        }
    }
}
