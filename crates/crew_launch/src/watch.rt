//! Waits for whichever of several pipes has something to read.

ghost use Rattle.std.specs.Prelude.{◌<◌};

use libc::net::{POLLIN, poll};
use libc::types::pollfd;
use std::os::fd::RawFd;

const SLOTS: usize = 16;

const UNUSED: pollfd = pollfd {
    fd: -1,
    events: POLLIN,
    revents: 0,
};

/// The pipes of up to 16 children, by their slots. Of what the system answers nothing is known.
#[derive(Clone, Copy)]
pub struct Watch {
    entries: [pollfd; SLOTS],
}

impl Watch {
    /// Returns a watch of no pipe.
    pub fn new() -> Watch {
        Watch {
            entries: [UNUSED; SLOTS],
        }
    }

    /// Adds the pipe with this descriptor. A negative number is none.
    pub fn add(&mut self, slot: usize, descriptor: RawFd)
        requires { slot < 16 }
    {
        self.entries[slot].fd = descriptor;
    }

    /// Waits until there is something to read in a pipe, or one has ended. Returns `false` if there
    /// is no pipe, or if the system refuses to wait.
    pub fn wait(&mut self) -> bool {
        if self.entries.iter().all(|entry| entry.fd < 0) {
            return false;
        }
        poll(&mut self.entries, -1) > 0
    }

    /// Returns whether the last wait found something to read in the pipe of a slot, or its end.
    pub fn is_ready(&self, slot: usize) -> bool
        requires { slot < 16 }
    {
        self.entries[slot].revents != 0
    }
}
