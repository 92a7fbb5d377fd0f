//! A reply that is taken.

ghost use Rattle.std.specs.Prelude.{◌≡◌};
ghost use Rattle.crew_trait.specs.declared.reply.Reply.TheVariants.{Answer};

use crew_trait::Reply;
use deftable::Bytes;
use std::marker::Model;

/// A reply, and a copy of it for the account.
pub(crate) struct Taken {
    status: u32,
    text: Bytes,
    copy: Bytes,
}

impl Drop for Taken {
    fn drop(self) {
        let Taken {
            status: _status,
            text: _text,
            copy: _copy,
        } = self;
    }
}

impl Model for Taken {
    ghost use Rattle.std.specs.Prelude.{◌≡◌};
    ghost use Rattle.std.specs.Coded.{codes};
    ghost use Rattle.crew_trait.specs.declared.reply.Reply.{Reply};
    ghost use Rattle.crew_trait.specs.declared.reply.Reply.TheVariants.{Answer};
    ghost use Rattle.crew_trait.specs.contracts.reply.Reply as reply;

    ghost Value = { Reply };

    ghost coded = { Prim.hlevel (codes, reply.the_row.coded) };

    ghost view = { λ t. Answer t.status t.text };

    ghost invariant = { λ t. t.copy ≡ t.text };
}

impl Taken {
    /// Returns the reply of this status and this text.
    pub(crate) fn new(status: u32, text: Bytes, copy: Bytes) -> Taken
        requires { copy ≡ text }
        ensures { result ≡ Answer status text }
    {
        Taken { status, text, copy }
    }

    /// Returns the reply, twice.
    pub(crate) fn both(self) -> (Reply, Reply)
        ensures first { result.0 ≡ self }
        ensures second { result.1 ≡ self }
    {
        let Taken { status, text, copy } = self;
        let reply = Reply::Answer { status, text };
        let copy = Reply::Answer { status, text: copy };
        (reply, copy)
    }
}
