//! The words of a command.

ghost use Rattle.std.specs.Prelude.{◌≡◌, ◌++◌, map, OnOk};

use deftable::Texts;
use std::alloc::AllocError;

/// Appends all fields, in order.
pub fn push_all(words: &mut Texts, fields: &[&[u8]]) -> Result<(), AllocError>
    ensures { OnOk result (words.new ≡ words.old ++ map (λ field. field.now) fields.now) }
{
    for field in fields {
        words.push(field)?;
    }
    Ok(())
}
