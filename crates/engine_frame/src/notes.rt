//! Pieces and entries of the log, joined.

ghost use Rattle.std.specs.Prelude.{◌≡◌, ◌++◌, ◌∷◌, [], IfOk, OnOk};
ghost use Rattle.crew_trait.specs.declared.entry.Entry.TheVariants.{Said};
ghost use Rattle.engine_frame.specs.Told.{entries_of};

use crew_trait::{Entry, Log};
use deftable::{Note, Notes};
use std::alloc::{AllocError, Global};

fn copied(alloc: Global, note: &Note) -> Result<Note, AllocError>
    ensures { IfOk result (λ n. n ≡ note.now) }
{
    let text = note.text.copy(alloc)?;
    Ok(Note {
        stream: note.stream,
        text,
    })
}

fn add_notes(alloc: Global, notes: &mut Notes, more: &[Note]) -> Result<(), AllocError>
    ensures { OnOk result (notes.new ≡ notes.old ++ more.now) }
{
    for note in more {
        notes.push(copied(alloc, note)?)?;
    }
    Ok(())
}

/// Returns notes, followed by others. If there are none, it is the others themselves.
pub fn joined(alloc: Global, first: &Notes, second: Notes) -> Result<Notes, AllocError>
    ensures { IfOk result (λ n. n ≡ first.now ++ second) }
{
    if first.as_slice().is_empty() {
        return Ok(second);
    }
    let mut all = Notes::new(alloc);
    add_notes(alloc, &mut all, first.as_slice())?;
    add_notes(alloc, &mut all, second.as_slice())?;
    Ok(all)
}

fn add_pieces(alloc: Global, log: &mut Log, notes: &[Note]) -> Result<(), AllocError>
    ensures { OnOk result (log.new ≡ log.old ++ entries_of notes.now) }
{
    for note in notes {
        log.push(Entry::Said(copied(alloc, note)?))?;
    }
    Ok(())
}

fn copied_entry(alloc: Global, entry: &Entry) -> Result<Entry, AllocError>
    ensures { IfOk result (λ e. e ≡ entry.now) }
{
    match entry {
        Entry::Said(note) => {
            let note = copied(alloc, note)?;
            Ok(Entry::Said(note))
        }
        Entry::Child { job, reply } => {
            let job = job.copy(alloc)?;
            let reply = reply.copy(alloc)?;
            Ok(Entry::Child { job, reply })
        }
    }
}

fn add_entries(alloc: Global, log: &mut Log, entries: &[Entry]) -> Result<(), AllocError>
    ensures { OnOk result (log.new ≡ log.old ++ entries.now) }
{
    for entry in entries {
        log.push(copied_entry(alloc, entry)?)?;
    }
    Ok(())
}

/// Returns a log that begins with notes. If there are none, it is the log itself.
pub fn with_notes(alloc: Global, notes: &Notes, log: Log) -> Result<Log, AllocError>
    ensures { IfOk result (λ l. l ≡ entries_of notes.now ++ log) }
{
    if notes.as_slice().is_empty() {
        return Ok(log);
    }
    let mut all = Log::new(alloc);
    add_pieces(alloc, &mut all, notes.as_slice())?;
    add_entries(alloc, &mut all, log.as_slice())?;
    Ok(all)
}
