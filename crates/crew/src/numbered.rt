//! A child with the number of its start.

ghost use Rattle.std.specs.Prelude.{◌≡◌, IsSome, None, Some};
ghost use Rattle.crew_launch.specs.Ending.{IsExplained};
ghost use Rattle.crew_launch.specs.Piped.{IsUnread};
ghost use Rattle.crew.specs.Holding.{IsEndOf, number_of};

use crew_launch::{PipeEnd, Started, end_child};
use crew_refusals::Cause;
use crew_trait::Reply;
use std::alloc::Global;
use std::marker::Model;
use std::os::fd::RawFd;
use std::process::OpenProcess;

/// A child in flight, known by the number of its start. Nothing puts another child in its place.
#[derive(Drop)]
pub(crate) struct Numbered<P: OpenProcess + Drop> {
    number: u64,
    child: Started<P>,
}

impl<P: OpenProcess + Drop> Model for Numbered<P> {
    ghost use Rattle.crew.specs.Holding.{Flying};
    ghost use Rattle.crew_launch.specs.Piped.{IsUnread};

    ghost Value = { Flying };

    ghost view = { λ n. record { number = n.number; left = n.child.pipe.left } };

    ghost invariant = { λ n. IsUnread n.child.pipe };
}

impl<P: OpenProcess + Drop> Numbered<P> {
    pub(crate) fn new(number: u64, child: Started<P>) -> Numbered<P>
        requires { IsUnread child.pipe }
        ensures { result ≡ record { number = number; left = child.pipe.left } }
    {
        Numbered { number, child }
    }

    /// Returns the number of its start.
    pub(crate) fn number(&self) -> u64
        ensures { result ≡ self.now.number }
    {
        self.number
    }
}

impl<P: OpenProcess + Drop> Numbered<P>
where
    P::Stderr: PipeEnd,
{
    /// Returns the descriptor of its pipe, or a negative number if there is none.
    pub(crate) fn descriptor(&self) -> RawFd {
        self.child.descriptor()
    }

    /// Reads once of its pipe, for the time when it is to end. Returns whether nothing more can be
    /// read ahead.
    pub(crate) fn read_ahead(&mut self) -> bool
        ensures { self.new ≡ self.old }
    {
        self.child.read_ahead()
    }
}

/// A child after its end, known by the number of its start.
#[derive(Drop)]
pub(crate) struct Finished<P: OpenProcess + Drop> {
    number: u64,
    child: Started<P>,
}

impl<P: OpenProcess + Drop> Model for Finished<P> {
    ghost use Rattle.crew.specs.Holding.{Over};

    ghost Value = { Over };

    ghost view = { λ f. record { number = f.number; running = f.child } };
}

/// Waits for the end of a child, and keeps it as the one that ended last. Returns its reply, and
/// why its end was refused.
fn end_of<P: OpenProcess + Drop>(
    child: Numbered<P>,
    last: &mut Option<Finished<P>>,
    alloc: Global,
) -> (Reply, Option<Cause>)
    ensures end { IsEndOf child.number (Some child) last.new result.0 }
    ensures explained { IsExplained result.0 result.1 }
{
    let Numbered { number, mut child } = child;
    let (reply, cause) = end_child(alloc, &mut child);
    *last = Some(Finished { number, child });
    (reply, cause)
}

/// Waits for the end of the child in a slot, takes it out, and keeps it as the one that ended last.
/// Returns its reply, and why its end was refused.
pub(crate) fn end_in<P: OpenProcess + Drop>(
    child: &mut Option<Numbered<P>>,
    last: &mut Option<Finished<P>>,
    alloc: Global,
) -> (Reply, Option<Cause>)
    requires { IsSome child.old }
    ensures end { IsEndOf (number_of child.old) child.old last.new result.0 }
    ensures explained { IsExplained result.0 result.1 }
    ensures left { child.new ≡ None }
{
    end_of(taken(child), last, alloc)
}

/// Takes a child out of its slot.
fn taken<P: OpenProcess + Drop>(child: &mut Option<Numbered<P>>) -> Numbered<P>
    requires { IsSome child.old }
    ensures taken { Some result ≡ child.old }
    ensures left { child.new ≡ None }
{
    child.take().unwrap()
}
