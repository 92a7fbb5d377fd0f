//! The diagnostics of a real child: what it writes to standard error.

ghost use Rattle.std.specs.Prelude.{◌≡◌, ◌≤◌, ◌++◌, length, take, IfOk, OnOk};
ghost use Rattle.crew_launch.specs.Ending.{IsKept};
ghost use Rattle.crew_launch.specs.Piped.{IsReadThrough, IsUnread};

use crate::pipe::Pipe;
use std::alloc::{AllocError, Global};
use std::io::{self, Read};

/// The largest number of pieces that are read. So at most 4 MiB are.
const MOST_READS: u32 = 1024;

const MOST_KEPT: usize = 65_536;

const PIECE_SIZE: usize = 4096;

/// Reads what a child wrote, up to its end or for 4 MiB, and returns at most the first 65,536
/// bytes. Fails if a read fails or memory runs out.
pub(crate) fn diagnostics<R: Read + Drop>(alloc: Global, pipe: &mut Pipe<R>) -> io::Result<Vec<u8>>
    requires { IsUnread pipe.old }
    ensures kept { IfOk result (λ text. IsKept pipe.old.left text.items) }
    ensures through { IfOk result (λ _. IsReadThrough pipe.new) }
{
    let mut text = Vec::new(alloc);
    let mut piece = [0u8; PIECE_SIZE];
    for _ in 0..MOST_READS {
        let n = pipe.read(&mut piece)?;
        keep(&mut text, &piece[..n])?;
        if n < PIECE_SIZE {
            return Ok(text);
        }
    }
    Ok(text)
}

/// Appends the piece, as far as the limit allows.
fn keep(text: &mut Vec<u8>, piece: &[u8]) -> Result<(), AllocError>
    requires { length text.old.items ≤ 65536 }
    ensures { OnOk result (text.new.items ≡ take 65536 (text.old.items ++ piece.now)) }
{
    let kept = (MOST_KEPT - text.len()).min(piece.len());
    text.extend_from_slice(&piece[..kept])
}
