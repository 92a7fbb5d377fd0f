//! The mask of the modes of new files.

use std::alloc::Global;
use std::fs;
use std::io::Read;
use std::rt::Files;

/// The text of the system on the process (proc(5)).
const STATUS: &str = "/proc/self/status";

/// The most bytes of it that are read.
const MOST: u64 = 65_536;

/// What the line of the mask begins with.
const FRONT: &[u8] = b"Umask:";

/// Returns the number that octal digits are of, after blanks.
fn octal(text: &[u8]) -> u32 {
    let mut number: u32 = 0;
    for byte in text {
        if matches!(*byte, b'0'..=b'7') {
            number = number.wrapping_mul(8).wrapping_add(u32::from(*byte - b'0'));
        }
    }
    number
}

/// Returns the mask that a text of the system has, if there is one.
fn mask_in(text: &[u8]) -> Option<u32> {
    for line in text.split(|byte| *byte == b'\n') {
        if let Some(digits) = line.strip_prefix(FRONT) {
            return Some(octal(digits));
        }
    }
    None
}

/// Returns the mask of the modes of the files that the process makes, if the system says it (own).
pub(crate) fn mask_here<F: Files>(alloc: Global, files: &F) -> Option<u32> {
    let mut file = fs::open(files, STATUS).ok()?;
    let mut text = Vec::new(alloc);
    file.by_ref().take(MOST).read_to_end(&mut text).ok()?;
    mask_in(text.as_slice())
}
