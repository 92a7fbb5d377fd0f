//! Ends a real child.

ghost use Rattle.std.specs.Prelude.{◌≡◌, true, false, codes, option_map, vec_items, IfErr, IfSome};
ghost use Rattle.std.specs.Result.{result_ok};
ghost use Rattle.crew_refusals.specs.Shown.{IsCauseOf};
ghost use Rattle.crew_launch.specs.Ending as specs;
ghost use Rattle.crew_launch.specs.Ending.{Answers, IsCauseOfEnd, IsExplained, IsKept, status_number};
ghost use Rattle.crew_launch.specs.Piped.{IsReadThrough, IsUnread};

use crate::started::Started;
use crew_refusals::Cause;
use crew_trait::Reply;
use deftable::Bytes;
use std::alloc::Global;
use std::io;
use std::process::{ExitStatus, OpenProcess};

/// Reads what the child writes to standard error, and then waits for the child, even if the reads
/// failed.
///
/// The pipe is closed before the wait. Returns its reply, and if that is [`Reply::EndRefused`] the
/// cause.
pub fn end_child<P: OpenProcess + Drop>(
    alloc: Global,
    child: &mut Started<P>,
) -> (Reply, Option<Cause>)
    requires unread { IsUnread child.old.pipe }
    // An answer has the status that the wait gave, or 256 if a signal ended the child. Its text is
    // the first 65,536 bytes of what was read: the pipe was read to its end, or for 4 MiB, and no
    // read failed.
    ensures answer { Answers result.0 child.new.status
        (λ text. IsKept child.old.pipe.left text × IsReadThrough child.new.pipe) }
    // Without a pipe the end is refused.
    ensures piped { child.old.pipe.is_open ≡ false → result.0 ≡ Reply.EndRefused }
    // A refused end has a cause, which is about the read or the wait, and an answer has none.
    ensures explained { IsExplained result.0 result.1 }
    // The pipe is closed, so a child that writes more than is read doesn't wait for a reader.
    ensures closed { child.new.pipe.is_open ≡ false }
    // The child was waited for, whatever the reply is.
    ensures awaited { child.new.is_awaited ≡ true }
{
    let text = child.read(alloc);
    let waited = child.wait();
    reply_of(alloc, waited, text)
}

/// Returns the reply after a wait and a read, and if that is [`Reply::EndRefused`] the cause: that
/// of the wait if it failed, and otherwise that of the read.
#[tactic(auto, using(crate::proofs::Explaining::explained))]
fn reply_of(
    alloc: Global,
    waited: io::Result<ExitStatus>,
    text: Result<Vec<u8>, Cause>,
) -> (Reply, Option<Cause>)
    requires { IfErr text (λ cause. IfSome cause (IsCauseOf (codes "read"))) }
    ensures reply { result.0 ≡ specs.reply_of waited (option_map vec_items (result_ok text)) }
    ensures cause { IsCauseOfEnd waited text result.1 }
    ensures explained { IsExplained result.0 result.1 }
{
    match (waited, text) {
        (Ok(status), Ok(text)) => {
            let reply = Reply::Answer {
                status: status_of(status),
                text: Bytes::from_vec(text),
            };
            (reply, None)
        }
        (Ok(_), Err(cause)) => (Reply::EndRefused, Some(cause)),
        (Err(error), _) => {
            let cause = Cause::of_error(alloc, b"wait", &error);
            (Reply::EndRefused, Some(cause))
        }
    }
}

/// Returns the exit status, or 256 if a signal ended the child.
fn status_of(status: ExitStatus) -> u32
    ensures { result ≡ status_number status }
{
    match status.code() {
        Some(code) => code.unsigned_abs(),
        None => 256,
    }
}
