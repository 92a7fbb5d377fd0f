//! The trait of what receives artifacts.

ghost use Rattle.std.specs.Prelude.{◌≡◌, ◌+◌, ◌^◌, ◌<◌, OnOk, OnErr};
ghost use Rattle.output_put.specs.Receipt.{Receipt, with_artifact, with_refusal};

use crate::artifact::Kind;
use std::error::Error;
use std::fmt;

/// The error of a put that was refused.
#[derive(Clone, Copy, Debug, PartialEq, Eq)]
pub struct PutRefused;

impl fmt::Display for PutRefused {
    fn fmt<W: fmt::Write>(&self, f: &mut fmt::Formatter<W>) -> fmt::Result {
        f.write_str("put refused")
    }
}

impl Error for PutRefused {}

/// Receives artifacts, one after the other. The meaning of a receiver is its receipt: what it took,
/// and how many puts it refused; and what no put changes.
pub trait Outputs {
    ghost receipt: { Self → Receipt };

    // What no put changes.
    ghost Kept: { Type 0 } = { Unit {0} };

    ghost kept: { Self → Self.Kept };

    /// Hands over an artifact, with its whole text (own).
    ///
    /// # Errors
    ///
    /// Returns [`PutRefused`] if the artifact isn't taken. Nothing of it is then handed over.
    fn put(&mut self, kind: Kind, name: &[u8], text: &[u8]) -> Result<(), PutRefused>
        requires failures { (receipt self.old).failures < 2 ^ 62 }
        ensures taken { OnOk result (
            receipt self.new
            ≡ with_artifact (receipt self.old)
            (record { kind = kind; name = name.now; text = text.now })) }
        ensures refused { OnErr result (receipt self.new ≡ with_refusal (receipt self.old)) }
        ensures kept { kept self.new ≡ kept self.old };
}
