//! Why outputs are not made again.

ghost use Rattle.std.specs.Prelude.{◌≡◌, true, false, []};
ghost use Rattle.cmd_call.specs.Lines.{SaysLines};

use crate::page::{numbered, put_words};
use crate::{Why, explain_template, explain_words};
use cmd_call::Hears;
use engine_frame::RemakeFault;
use file_disk::Disk;
use lint_table::Words;
use output_list::Output;
use run_words::{record_words, tag_words};
use status_record::Record;
use std::alloc::{AllocError, Global};

/// Appends the names of outputs.
fn push_names<'a>(outputs: &'a [Output], names: &mut Vec<&'a [u8]>) -> Result<(), AllocError> {
    for output in outputs {
        names.push(output.name.as_slice())?;
    }
    Ok(())
}

/// Returns that a name is that of no output of a record.
fn of_record_tag(alloc: Global, record: &Record, name: &[u8]) -> Result<Words, AllocError> {
    let mut names = Vec::new(alloc);
    push_names(record.files.as_slice(), &mut names)?;
    push_names(record.headers.as_slice(), &mut names)?;
    tag_words(alloc, name, names.as_slice())
}

/// Says that a name is that of no output of a record.
#[tactic(auto, using(cmd_call::proofs::Pages::says_nothing))]
fn explain_tag<E: Hears>(alloc: Global, recorded: Option<&Record>, name: &[u8], errors: &mut E)
    ensures paged { SaysLines E.contents E.has_failed errors.old errors.new true [] }
{
    if let Some(recorded) = recorded {
        put_words(alloc, of_record_tag(alloc, recorded, name), errors);
    }
}

/// Says more of why outputs are not made again, after its line, if it is asked. `recorded` is the
/// record, if it was read. If a put was refused, `cause` says why.
#[tactic(auto, using(cmd_call::proofs::Pages::says_nothing, crate::proofs::Pages::asked_pages))]
pub fn explain_remake<D: Disk, E: Hears>(
    alloc: Global,
    disk: &D,
    why: &Why<'_>,
    recorded: Option<&Record>,
    cause: &[u8],
    errors: &mut E,
    fault: &RemakeFault,
)
    ensures silent { why.now.is_asked ≡ false → errors.new ≡ errors.old }
    ensures paged { SaysLines E.contents E.has_failed errors.old errors.new why.now.is_asked [] }
{
    if why.is_asked {
        match fault {
            RemakeFault::Record(fault) => {
                put_words(alloc, record_words(alloc, *fault, why.text), errors)
            }
            RemakeFault::UnknownTag(number) => {
                let name = numbered(why.args, *number);
                explain_tag(alloc, recorded, name, errors)
            }
            RemakeFault::NoTemplate(name) => {
                explain_template(alloc, disk, why, name.as_slice(), errors)
            }
            RemakeFault::PutRefused(_number) => explain_words(alloc, true, cause, errors),
            _ => {}
        }
    }
}
