//! A finding.

ghost use Rattle.std.specs.Prelude.{◌≡◌, IfOk};

use deftable::Bytes;
use std::alloc::{AllocError, Global};

/// How grave a finding is.
#[derive(Clone, Copy, Debug, PartialEq, Eq)]
pub enum Severity {
    /// The source is refused.
    Error,
    /// The source is accepted, and may mean something else than it seems to.
    Warning,
}

/// A part of a file.
#[derive(Clone, Copy, Debug, PartialEq, Eq)]
pub struct Span {
    /// The number of the file: 0 for the source, and 1 and more for its templates in the order in
    /// which it names them.
    pub file: usize,
    /// The offset of the first byte.
    pub start: usize,
    /// The offset after the last byte.
    pub end: usize,
}

/// Something that is wrong, or may be wrong, at a place.
#[derive(Debug, Drop)]
pub struct Finding {
    /// The number of the file: 0 for the source, and 1 and more for its templates in the order in
    /// which it names them.
    pub file: usize,
    /// The offset of the first byte that it is about.
    pub start: usize,
    /// The offset after the last byte that it is about.
    pub end: usize,
    /// How grave it is.
    pub severity: Severity,
    /// A short name of what is wrong, such as `parse-2`. It stays the same when the words change.
    pub code: Bytes,
    /// What is wrong, in one line.
    pub message: Bytes,
    /// What to do, in any number of lines. If it is empty, there is no advice.
    pub help: Bytes,
}

impl Finding {
    /// Returns a finding with copies of the texts.
    ///
    /// # Errors
    ///
    /// Fails only if memory runs out.
    pub fn from_slices(
        alloc: Global,
        span: Span,
        severity: Severity,
        code: &[u8],
        message: &[u8],
        help: &[u8],
    ) -> Result<Finding, AllocError>
        ensures { IfOk result (λ finding. finding ≡ record {
          file = span.file;
          start = span.start;
          end = span.end;
          severity = severity;
          code = code.now;
          message = message.now;
          help = help.now;
        }) }
    {
        let code = Bytes::from_slice(alloc, code)?;
        let message = Bytes::from_slice(alloc, message)?;
        let help = Bytes::from_slice(alloc, help)?;
        Ok(Finding {
            file: span.file,
            start: span.start,
            end: span.end,
            severity,
            code,
            message,
            help,
        })
    }

    /// Returns the place of the finding.
    pub fn span(&self) -> Span
        ensures { result
            ≡ record { file = self.now.file; start = self.now.start; end = self.now.end } }
    {
        Span {
            file: self.file,
            start: self.start,
            end: self.end,
        }
    }
}
