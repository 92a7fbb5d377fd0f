//! What the templates of a source want of it, and what is left to do in them.

ghost use Rattle.std.specs.Prelude.{Option, None, IfOk};
ghost use Rattle.cmd_port.specs.Served as specs;

use deftable::Bytes;
use file_disk::Disk;
use lint_findings::Finding;
use lint_sources::{Linted, Wanted, left_of, wanted_of};
use std::alloc::{AllocError, Global};

/// The templates of a source, which are read for each text that it gets.
pub(crate) trait Templates {
    // What they want and what is left to do in them, if that is known.
    ghost known: { Self → Option specs.Templates } = { λ _. None };

    /// Returns what the templates want of the source, once it has this text.
    fn wanted(&self, alloc: Global, text: &[u8]) -> Result<Wanted, AllocError>
        ensures { IfOk result (λ w. specs.IsWanted (known self.now) text.now w) };

    /// Returns what is left to do in the templates, once the source has this text.
    fn left(&self, alloc: Global, text: &[u8]) -> Result<Vec<Finding>, AllocError>
        ensures { IfOk result (λ v. specs.IsLeft (known self.now) text.now v.items) };
}

/// The templates in the directory of a source.
#[derive(Clone, Copy)]
pub(crate) struct Nearby<'a, D: Disk> {
    pub(crate) disk: &'a D,
    pub(crate) linted: &'a Linted,
}

/// Returns a source with this text in place of its own.
fn with_text(alloc: Global, linted: &Linted, text: &[u8]) -> Result<Linted, AllocError> {
    Ok(Linted {
        name: linted.name.copy(alloc)?,
        directory: linted.directory.copy(alloc)?,
        text: Bytes::from_slice(alloc, text)?,
    })
}

impl<'a, D: Disk> Templates for Nearby<'a, D> {
    fn wanted(&self, alloc: Global, text: &[u8]) -> Result<Wanted, AllocError> {
        let next = with_text(alloc, self.linted, text)?;
        wanted_of(alloc, self.disk, &next)
    }

    fn left(&self, alloc: Global, text: &[u8]) -> Result<Vec<Finding>, AllocError> {
        let next = with_text(alloc, self.linted, text)?;
        left_of(alloc, self.disk, &next)
    }
}
