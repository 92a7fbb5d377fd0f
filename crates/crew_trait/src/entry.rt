//! The log of a run.

ghost use Rattle.std.specs.Prelude.{◌≡◌, List, [], ◌∷◌, ◌++◌, OnOk, OnErr};
ghost use Rattle.crew_trait.specs.declared.entry.Entry.{Entry};

use crate::reply::Reply;
use crew_jobs::Job;
use deftable::Note;
use std::alloc::{AllocError, Global};
use std::marker::Model;

/// What the log has of a run, besides its order.
#[derive(Drop)]
pub enum Entry {
    /// A piece of text that was printed.
    Said(Note),
    /// A job that was asked for, and the reply to it.
    Child { job: Job, reply: Reply },
}

/// The number of entries for which a log takes room at its first one, so that the entries of most
/// runs are never moved.
const FIRST_ROOM: usize = 1024;

/// The pieces that a run printed and the children that it asked for, in order.
pub struct Log {
    entries: Vec<Entry>,
}

impl Drop for Log {
    fn drop(self) {
        let Log { entries: _entries } = self;
    }
}

impl Model for Log {
    ghost use Rattle.std.specs.Prelude.{List};
    ghost use Rattle.std.specs.Coded.{codes};
    ghost use Rattle.crew_trait.specs.declared.entry.Entry.{Entry};
    ghost use Rattle.crew_trait.specs.contracts.entry.Entry as entry;

    ghost Value = { List Entry };

    ghost coded = { Prim.hlevel (codes, entry.the_row.coded) };

    ghost view = { λ l. l.entries.items };
}

impl Log {
    /// Returns a log without entries.
    pub fn new(alloc: Global) -> Log
        ensures { result ≡ [] }
    {
        Log {
            entries: Vec::new(alloc),
        }
    }

    /// Appends an entry.
    ///
    /// # Errors
    ///
    /// Fails only if memory runs out, and then drops the entry.
    pub fn push(&mut self, entry: Entry) -> Result<(), AllocError>
        ensures ok { OnOk result (self.new ≡ self.old ++ entry ∷ []) }
        ensures err { OnErr result (self.new ≡ self.old) }
    {
        if self.entries.is_empty() {
            self.entries.reserve(FIRST_ROOM)?;
        }
        self.entries.push(entry)?;
        Ok(())
    }

    /// Returns the entries, in order.
    pub fn as_slice(&self) -> &[Entry]
        ensures { result.now ≡ self.now }
    {
        self.entries.as_slice()
    }
}
