//! Makes the record of a run.

ghost use Rattle.std.specs.Prelude.{◌≡◌, ◌==◌, not, length, IfOk};
ghost use Rattle.output_make.specs.Making as words;
ghost use Rattle.output_make.specs.Variables.{AreOutputVariables};
ghost use Rattle.output_list.specs.Output.{AreOutputs};
ghost use Rattle.status_record.specs.RecordText.{IsRecord};

use crate::variables::output_variables;
use deftable::{Bytes, Defs, SubstList, Texts, Vars};
use output_list::OutputList;
use status_record::Record;
use std::alloc::{AllocError, Global};

/// Copies outputs.
fn copy_of_outputs(alloc: Global, outputs: &OutputList) -> Result<OutputList, AllocError>
    ensures { IfOk result (λ copy. copy ≡ outputs.now) }
{
    let mut copy = OutputList::new(alloc);
    copy.push_copies(alloc, outputs.as_slice())?;
    Ok(copy)
}

/// Returns the record of a run that ends with these variables and definitions: its arguments, the
/// output variables with their values, the definitions, and the files and headers.
///
/// `names` are the source's own output variables (Autoconf's manual, "Setting Output Variables").
/// `srcdir` is the directory of the source, absolute or relative to the directory of the build. If
/// there is a header, DEFS is an output variable, and its value is `-DHAVE_CONFIG_H` (Autoconf's
/// manual, "Preset Output Variables"). The record takes the definitions, and copies all else.
///
/// # Errors
///
/// Fails only if memory runs out.
#[tactic(auto, unfolding(crate::specs::Making::record_of_run))]
pub fn record_of(
    alloc: Global,
    vars: &Vars,
    defs: Defs,
    names: &SubstList,
    srcdir: &[u8],
    args: &Texts,
    files: &OutputList,
    headers: &OutputList,
) -> Result<Record, AllocError>
    ensures record { IfOk result (λ r.
        r
        ≡ words.record_of_run vars.now defs names.now srcdir.now args.now files.now
        headers.now) }
    // It has each output variable once, with its value, and no other variable.
    ensures variables { IfOk result (λ r.
        AreOutputVariables vars.now (not (length headers.now == 0)) names.now r.vars) }
    // The record may be written.
    ensures writable { AreOutputs files.now headers.now → IfOk result IsRecord }
{
    let vars = output_variables(alloc, vars, !headers.is_empty(), names)?;
    let files = copy_of_outputs(alloc, files)?;
    let headers = copy_of_outputs(alloc, headers)?;
    let srcdir = Bytes::from_slice(alloc, srcdir)?;
    let args = args.copy(alloc)?;
    Ok(Record {
        srcdir,
        args: Some(args),
        vars,
        defs,
        files,
        headers,
    })
}
