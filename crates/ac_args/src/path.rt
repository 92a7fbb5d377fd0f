//! What a field of a list of outputs names.

ghost use Rattle.std.specs.Prelude.{◌≡◌, ℕ, List, length, IfOk, IfSome, ◌++◌, ◌<◌, ◌==◌, position, codes};
ghost use Rattle.ac_args.specs.Path as specs;

use deftable::Bytes;
use output_list::Output;
use std::alloc::{AllocError, Global};

/// Returns the offset of the first colon.
fn colon(field: &[u8]) -> Option<usize>
    ensures value { result ≡ position (λ b. b == 58) field.now }
    ensures within { IfSome result (λ i. i < length field.now) }
{
    field.iter().position(|byte| *byte == b':')
}

/// Returns the template of an output that names none: the field followed by `.in`.
fn default_template(alloc: Global, field: &[u8]) -> Result<Bytes, AllocError>
    ensures { IfOk result (λ v. v ≡ field.now ++ codes ".in") }
{
    let mut template = Vec::from_slice(alloc, field)?;
    template.extend_from_slice(b".in")?;
    Ok(Bytes::from_vec(template))
}

/// Returns the output that a field names.
pub(crate) fn output_in(alloc: Global, field: &[u8]) -> Result<Output, AllocError>
    ensures { IfOk result (λ o. o ≡ specs.output_in field.now) }
{
    match colon(field) {
        None => {
            let name = Bytes::from_slice(alloc, field)?;
            let template = default_template(alloc, field)?;
            Ok(Output { name, template })
        }
        Some(i) => {
            let name = Bytes::from_slice(alloc, &field[..i])?;
            let template = Bytes::from_slice(alloc, &field[i + 1..])?;
            Ok(Output { name, template })
        }
    }
}
