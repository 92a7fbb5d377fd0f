//! Reading all that a reader gives.

ghost use Rattle.std.specs.Prelude.{◌≡◌, IfOk, IfSome};

use crate::input_fault::ReadFault;
use std::alloc::Global;
use std::io::{self, ErrorKind};

/// The largest number of reads of an input.
const MAX_READS: u32 = 65_536;

/// The largest number of bytes of one read.
const READ_SIZE: usize = 4096;

/// Returns all that a reader gives, by at most 65,536 reads of at most 4,096 bytes. A read that a
/// signal interrupts counts, and is tried again (own).
///
/// # Errors
///
/// - `Read`, if a read fails, or if the input doesn't end within these reads.
/// - `OutOfMemory`, if memory runs out.
pub fn read_input<R: io::Read>(alloc: Global, reader: &mut R) -> Result<Vec<u8>, ReadFault>
    ensures ok { IfOk result (λ v. IfSome (R.remaining reader.old) (λ text. v.items ≡ text)) }
{
    let mut text = Vec::new(alloc);
    let mut piece = [0u8; READ_SIZE];
    for _ in 0..MAX_READS {
        match reader.read(&mut piece) {
            Ok(0) => return Ok(text),
            Ok(n) => text.extend_from_slice(&piece[..n])?,
            Err(e) if e.kind() == ErrorKind::Interrupted => {}
            Err(_) => return Err(ReadFault::Read),
        }
    }
    Err(ReadFault::Read)
}
