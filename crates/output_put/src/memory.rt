//! A receiver that keeps what it takes.

ghost use Rattle.std.specs.Prelude.{◌≡◌, ◌+◌, ◌^◌, ◌<◌, [], OnOk, OnErr, is_err, true};
ghost use Rattle.output_put.specs.Receipt.{with_artifact, with_refusal};
ghost use Rattle.output_put.specs.Kept.{number_of};

use crate::artifact::{Artifact, Artifacts, Kind};
use crate::receiver::{Outputs, PutRefused};
use std::alloc::Global;
use std::marker::Model;

/// A receiver in memory: takes a copy of each artifact, and refuses the put with a given number.
///
/// If memory runs out in a put, it refuses that put too. It refuses no other.
pub struct MemoryOutputs {
    alloc: Global,
    handed: Artifacts,
    failures: u64,
    refuse: u64,
}

impl Drop for MemoryOutputs {
    fn drop(self) {
        let MemoryOutputs {
            alloc: _alloc,
            handed: _handed,
            failures: _failures,
            refuse: _refuse,
        } = self;
    }
}

impl Model for MemoryOutputs {
    ghost use Rattle.output_put.specs.Kept.{Kept};

    ghost Value = { Kept };

    ghost view = { λ m. record { receipt = record { handed = m.handed; failures = m.failures }; refuse = m.refuse } };
}

impl MemoryOutputs {
    /// Returns a receiver that has taken nothing, and refuses put number `refuse`, counted from 1.
    /// If `refuse` is 0, it refuses none. It doesn't allocate.
    pub fn new(alloc: Global, refuse: u64) -> MemoryOutputs
        ensures { result
            ≡ record { receipt = record { handed = []; failures = 0 }; refuse = refuse } }
    {
        MemoryOutputs {
            alloc,
            handed: Artifacts::new(alloc),
            failures: 0,
            refuse,
        }
    }

    /// Returns the artifacts that were taken, in order.
    pub fn handed(&self) -> &[Artifact]
        ensures { result.now ≡ self.now.receipt.handed }
    {
        self.handed.as_slice()
    }

    /// Takes a copy of an artifact. If the put is refused, it isn't counted yet.
    fn take(&mut self, kind: Kind, name: &[u8], text: &[u8]) -> Result<(), PutRefused>
        requires { self.old.receipt.failures < 2 ^ 62 }
        ensures taken { OnOk result (
            self.new
            ≡ record self.old {
              receipt = with_artifact self.old.receipt
                  (record { kind = kind; name = name.now; text = text.now });
            }) }
        ensures refused { OnErr result (self.new ≡ self.old) }
        ensures chosen { number_of self.old.receipt ≡ self.old.refuse → is_err result ≡ true }
    {
        let number = self.handed().len() as u64 + self.failures + 1;
        if number == self.refuse {
            return Err(PutRefused);
        }
        let Ok(artifact) = Artifact::from_slices(self.alloc, kind, name, text) else {
            return Err(PutRefused);
        };
        match self.handed.push(artifact) {
            Ok(()) => Ok(()),
            Err(_) => Err(PutRefused),
        }
    }
}

impl Outputs for MemoryOutputs {
    ghost receipt = { λ m. m.receipt };

    ghost kept = { λ _. tt };

    fn put(&mut self, kind: Kind, name: &[u8], text: &[u8]) -> Result<(), PutRefused>
        requires failures { self.old.receipt.failures < 2 ^ 62 }
        ensures taken { OnOk result (
            self.new.receipt
            ≡ with_artifact self.old.receipt
            (record { kind = kind; name = name.now; text = text.now })) }
        ensures refused { OnErr result (self.new.receipt ≡ with_refusal self.old.receipt) }
        ensures unchanged { self.new.refuse ≡ self.old.refuse }
        ensures chosen { number_of self.old.receipt ≡ self.old.refuse → is_err result ≡ true }
    {
        let answer = self.take(kind, name, text);
        if answer.is_err() {
            self.failures += 1;
        }
        answer
    }
}
