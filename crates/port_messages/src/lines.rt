//! What takes the place of a command, and the comment above it.

ghost use Rattle.std.specs.Prelude.{◌≡◌, IfOk};
ghost use Rattle.port_messages.specs.Told as specs;

use std::alloc::{AllocError, Global};

/// What takes the place of a command.
#[derive(Drop)]
pub(crate) struct Line {
    /// In what it differs from the command.
    pub said: &'static [u8],
    pub put: Vec<u8>,
}

/// What the comments begin with.
const FRONT: &[u8] = b"dnl acrun: in place of ";

/// Returns a comment with the words of a line and its text, each after the indent.
#[tactic(auto, unfolding(crate::specs::Told::noted))]
pub(crate) fn noted(alloc: Global, indent: &[u8], line: &Line) -> Result<Vec<u8>, AllocError>
    ensures { IfOk result (λ v. v.items ≡ specs.noted indent.now line.now.said.now line.now.put.items) }
{
    let mut out = Vec::from_slice(alloc, indent)?;
    out.extend_from_slice(FRONT)?;
    out.extend_from_slice(line.said)?;
    out.push(b'\n')?;
    out.extend_from_slice(indent)?;
    out.extend_from_slice(line.put.as_slice())?;
    Ok(out)
}
