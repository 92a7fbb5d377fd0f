//! The calls that answers make, each in a function without a contract: what is proved of them is
//! not needed here, and would make each function that calls them slow to check. The crate
//! `test_runs` has those that read and run a source.

use crate::pieces::Pieces;
use acparse::{Source, is_resumable};
use cmd_call::Heard;
use cmd_filter::{FilterFault, Filtered, filter, tell};
use deftable::Bytes;
use options::{help_text, srcdir_of};
use std::alloc::{AllocError, Global};

pub fn can_resume(source: &Source) -> bool {
    is_resumable(source)
}

pub fn help_of(alloc: Global, source: &Source) -> Result<Bytes, AllocError> {
    help_text(alloc, source)
}

pub fn srcdir_in(arguments: &[Bytes]) -> &[u8] {
    srcdir_of(arguments)
}

/// What the filter answers to a text, and what it writes to `written`. Each read gives at most
/// `piece` bytes, or what it has room for if that is 0.
pub fn run_filter(
    alloc: Global,
    text: &[u8],
    piece: usize,
    written: &mut Vec<u8>,
) -> Result<Filtered, FilterFault> {
    let size = if piece == 0 { usize::MAX } else { piece };
    filter(alloc, &mut Pieces { text, size }, written)
}

/// The fault line.
pub fn put_fault_line(out: &mut Vec<u8>, fault: &FilterFault) {
    tell(&mut Heard::new(out), fault);
}
