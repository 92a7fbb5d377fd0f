//! A child that was started.

ghost use Rattle.std.specs.Prelude.{◌≡◌, Some, true, false, negsuc, codes, IfErr, IfOk, IfSome, IsErr};
ghost use Rattle.crew_refusals.specs.Shown.{IsCauseOf};
ghost use Rattle.crew_launch.specs.Ending.{IsKept};
ghost use Rattle.crew_launch.specs.Piped.{IsReadThrough, IsUnread};

use crate::diagnostics::diagnostics;
use crate::pipe::Pipe;
use crate::pipe_end::PipeEnd;
use crate::queued::Queued;
use crew_refusals::Cause;
use std::alloc::Global;
use std::io::{self, Read};
use std::marker::Model;
use std::os::fd::RawFd;
use std::process::{Child, ExitStatus, OpenProcess};

/// A child that was started, with the pipe of its diagnostics, and whether it was waited for.
#[derive(Drop)]
pub struct Started<P: OpenProcess + Drop> {
    child: Child<P>,
    pipe: Pipe<Queued<P::Stderr>>,
    is_awaited: bool,
}

impl<P: OpenProcess + Drop> Model for Started<P> {
    ghost use Rattle.std.specs.Process.{child_status};
    ghost use Rattle.crew_launch.specs.Piped.{Running};

    ghost Value = { Running };

    ghost view = { λ s. record { pipe = s.pipe; status = child_status s.child; is_awaited = s.is_awaited } };
}

impl<P: OpenProcess + Drop> Started<P> {
    /// Returns a child that was just started.
    pub(crate) fn new(alloc: Global, mut child: Child<P>) -> Started<P>
        ensures { IsUnread result.pipe }
    {
        let pipe = Pipe::new(queued(alloc, child.stderr.take()));
        Started {
            child,
            pipe,
            is_awaited: false,
        }
    }

    /// Reads what the child writes to standard error, and closes the pipe. Returns the text to
    /// keep.
    pub(crate) fn read(&mut self, alloc: Global) -> Result<Vec<u8>, Cause>
        requires { IsUnread self.old.pipe }
        ensures kept { IfOk result (λ text. IsKept self.old.pipe.left text.items) }
        ensures through { IfOk result (λ _. IsReadThrough self.new.pipe) }
        ensures piped { self.old.pipe.is_open ≡ false → IsErr result }
        ensures closed { self.new.pipe.is_open ≡ false }
        ensures cause { IfErr result (λ cause. IfSome cause (IsCauseOf (codes "read"))) }
    {
        if !self.pipe.is_open() {
            return Err(Cause::of_words(alloc, b"read", b"no pipe"));
        }
        let text = diagnostics(alloc, &mut self.pipe);
        self.pipe.close();
        match text {
            Ok(text) => Ok(text),
            Err(error) => Err(Cause::of_error(alloc, b"read", &error)),
        }
    }

    /// Waits for the child. Its pipe is closed, so that the child doesn't wait until it is read.
    pub(crate) fn wait(&mut self) -> io::Result<ExitStatus>
        requires { self.old.pipe.is_open ≡ false }
        ensures status { IfOk result (λ status. self.new.status ≡ Some status) }
        ensures pipe { self.new.pipe ≡ self.old.pipe }
        ensures awaited { self.new.is_awaited ≡ true }
    {
        self.is_awaited = true;
        self.child.wait()
    }
}

impl<P: OpenProcess + Drop> Started<P>
where
    P::Stderr: PipeEnd,
{
    /// Returns the descriptor of its pipe, or a negative number if there is none.
    pub fn descriptor(&self) -> RawFd
        // Without a pipe it is -1.
        ensures { self.now.pipe.is_open ≡ false → result ≡ negsuc 0 }
    {
        self.pipe.descriptor()
    }

    /// Reads once of its pipe, for the time when it is to end. Returns whether nothing more can be
    /// read ahead: there is no pipe, it is at its end, the read fails, 4 MiB were read, or memory
    /// runs out.
    pub fn read_ahead(&mut self) -> bool
        ensures { self.new.pipe ≡ self.old.pipe }
    {
        self.pipe.read_ahead()
    }
}

/// Returns the reader with an empty queue, if there is one.
fn queued<R: Read + Drop>(alloc: Global, reader: Option<R>) -> Option<Queued<R>> {
    match reader {
        Some(reader) => Some(Queued::new(alloc, reader)),
        None => None,
    }
}
