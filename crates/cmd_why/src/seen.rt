//! What config.status and the cache that its arguments name show of a run.

ghost use Rattle.std.specs.Prelude.{◌≡◌, List, ℕ, IfOk};
ghost use Rattle.cmd_why.specs.Origins.{cache_of as cache_of_args};
ghost use Rattle.cmd_why.specs.Sources as specs;

use crate::origins::cache_of;
use crate::record::kept_in;
use cmd_call::LOG;
use deftable::{Bytes, Defs, Texts};
use file_disk::Disk;
use file_texts::read_text;
use std::alloc::{AllocError, Global};

/// The name of the record.
pub(crate) const RECORD: &[u8] = b"config.status";

/// What is seen of where an answer may be from.
#[derive(Drop)]
pub(crate) enum Seen {
    /// Nothing is looked at, since another log than `config.log` is named.
    Unlooked,
    /// No record with arguments can be read.
    Unrecorded,
    /// The arguments of the record, the name and the text of the cache that they name, if it can be
    /// read, and the definitions of the record.
    Recorded(Texts, Option<(Bytes, Bytes)>, Defs),
}

/// Returns the cache of this name, with its text, if it can be read.
fn cache_at<D: Disk>(
    alloc: Global,
    disk: &D,
    name: &[u8],
) -> Result<Option<(Bytes, Bytes)>, AllocError>
    ensures { IfOk result (λ cache. specs.IsCacheAt (D.known disk.now) name.now cache) }
{
    match read_text(alloc, disk, name)? {
        Some(text) => Ok(Some((Bytes::from_slice(alloc, name)?, text))),
        None => Ok(None),
    }
}

/// Returns the cache that arguments name, if they name one that can be read.
fn cache_named<D: Disk>(
    alloc: Global,
    disk: &D,
    args: &[Bytes],
) -> Result<Option<(Bytes, Bytes)>, AllocError>
    ensures { IfOk result (λ cache.
        specs.IsCacheNamed (D.known disk.now) (cache_of_args args.now) cache) }
{
    match cache_of(args) {
        Some(name) => cache_at(alloc, disk, name),
        None => Ok(None),
    }
}

/// Returns what is seen by these arguments and these definitions.
fn seen_of<D: Disk>(alloc: Global, disk: &D, args: Texts, defs: Defs) -> Result<Seen, AllocError>
    ensures { IfOk result (specs.IsSeenOf (D.known disk.now) (args, defs)) }
{
    let cache = cache_named(alloc, disk, args.as_slice())?;
    Ok(Seen::Recorded(args, cache, defs))
}

/// Returns what is seen by the record in this text.
fn seen_in<D: Disk>(alloc: Global, disk: &D, text: &[u8]) -> Result<Seen, AllocError>
    ensures { IfOk result (specs.IsSeenIn (D.known disk.now) text.now) }
{
    match kept_in(alloc, text)? {
        Some((args, defs)) => seen_of(alloc, disk, args, defs),
        None => Ok(Seen::Unrecorded),
    }
}

/// Returns what is seen by the record.
#[tactic(auto, using(crate::proofs::Explained::looked))]
fn seen_now<D: Disk>(alloc: Global, disk: &D) -> Result<Seen, AllocError>
    ensures { IfOk result (specs.IsSeen (D.known disk.now)) }
{
    match read_text(alloc, disk, RECORD) {
        Ok(Some(text)) => seen_in(alloc, disk, text.as_slice()),
        Ok(None) => Ok(Seen::Unrecorded),
        Err(error) => Err(error),
    }
}

/// Returns what is seen of where an answer in the log of this name may be from.
pub(crate) fn seen_for<D: Disk>(alloc: Global, disk: &D, name: &[u8]) -> Result<Seen, AllocError>
    ensures { IfOk result (specs.IsSeenFor (D.known disk.now) name.now) }
{
    if name == LOG.as_bytes() {
        return seen_now(alloc, disk);
    }
    Ok(Seen::Unlooked)
}
