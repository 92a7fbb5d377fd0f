//! The children of a crew in memory.

ghost use Rattle.std.specs.Prelude.{◌≡◌};

use crew_trait::Reply;
use std::marker::Model;

/// A child of a crew in memory, with the reply that it will give, once for the caller and once for
/// the account.
#[derive(Drop)]
pub struct Flight {
    slot: usize,
    reply: Reply,
    copy: Reply,
}

impl Model for Flight {
    ghost use Rattle.std.specs.Prelude.{◌≡◌};
    ghost use Rattle.crew.specs.Child.{Child};

    ghost Value = { Child };

    ghost view = { λ f. record { slot = f.slot; reply = f.reply } };

    ghost invariant = { λ f. f.copy ≡ f.reply };
}

impl Flight {
    pub(crate) fn new(slot: usize, reply: Reply, copy: Reply) -> Flight
        requires { copy ≡ reply }
        ensures { result ≡ record { slot = slot; reply = reply } }
    {
        Flight { slot, reply, copy }
    }

    pub(crate) fn slot(&self) -> usize
        ensures { result ≡ self.now.slot }
    {
        self.slot
    }

    /// Returns the slot, and the reply twice.
    pub(crate) fn into_parts(self) -> (usize, Reply, Reply)
        ensures slot { result.0 ≡ self.slot }
        ensures reply { result.1 ≡ self.reply }
        ensures copy { result.2 ≡ self.reply }
    {
        let Flight { slot, reply, copy } = self;
        (slot, reply, copy)
    }
}
