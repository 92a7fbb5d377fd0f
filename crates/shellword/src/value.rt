//! The values of parts.

ghost use Rattle.std.specs.Prelude.{◌≡◌, ◌∷◌, [], ◌++◌, IfOk, OnOk};
ghost use Rattle.shellword.specs.declared.part.Part.TheVariants.{Variable};
ghost use Rattle.shellword.specs.Value.{part_value, word_value};

use crate::part::Part;
use deftable::{Bytes, Vars};
use std::alloc::{AllocError, Global};

/// Appends a variable's value to `out`, or nothing if the variable is unset.
fn push_variable(out: &mut Vec<u8>, name: &Bytes, vars: &Vars) -> Result<(), AllocError>
    ensures { OnOk result (
        out.new.items ≡ out.old.items ++ part_value vars.now (Variable name.now)) }
{
    match vars.get(name.as_slice()) {
        Some(value) => out.extend_from_slice(value.as_slice()),
        None => Ok(()),
    }
}

fn push_byte(out: &mut Vec<u8>, byte: u8) -> Result<(), AllocError>
    ensures { OnOk result (out.new.items ≡ out.old.items ++ byte ∷ []) }
{
    match out.push(byte) {
        Ok(()) => Ok(()),
        Err(_) => Err(AllocError),
    }
}

fn push_value(out: &mut Vec<u8>, part: &Part, vars: &Vars) -> Result<(), AllocError>
    ensures { OnOk result (out.new.items ≡ out.old.items ++ part_value vars.now part.now) }
{
    match part {
        Part::Plain(byte) | Part::Quoted(byte) => push_byte(out, *byte),
        Part::Variable(name) => push_variable(out, name, vars),
    }
}

/// Returns the values of the parts, joined.
pub(crate) fn value_of_parts(
    alloc: Global,
    parts: &[Part],
    vars: &Vars,
) -> Result<Bytes, AllocError>
    ensures { IfOk result (λ v. v ≡ word_value parts.now vars.now) }
{
    let mut out = Vec::new(alloc);
    for part in parts {
        push_value(&mut out, part, vars)?;
    }
    Ok(Bytes::from_vec(out))
}
