//! The slots of a crew of real children.

ghost use Rattle.std.specs.Prelude.{◌≡◌, ◌⊎◌, ◌<◌, [], None, Some, IfOk, IfSome, IsSome, length, option_map, slice_set, vec_len};
ghost use Rattle.crew_refusals.specs.Known.{cause_of, with_cause};
ghost use Rattle.crew_refusals.specs.Shown.{IsShown};
ghost use Rattle.crew_launch.specs.Ending.{IsExplained};
ghost use Rattle.crew_launch.specs.Piped.{IsUnread};
ghost use Rattle.crew.specs.Holding.{Ends, IsEndOf, IsEndTold, child_in, number_of, with_told};
ghost use Rattle.crew_trait.specs.declared.reply.Reply.TheVariants.{EndRefused};

use crate::numbered::{Finished, Numbered, end_in};
use crew_launch::{PipeEnd, Started};
use crew_refusals::{Cause, CauseList};
use crew_trait::Reply;
use std::alloc::{AllocError, Global};
use std::marker::Model;
use std::os::fd::RawFd;
use std::process::OpenProcess;

const SLOTS: usize = 16;

/// The child of each slot that is in use, the child that ended last, and why starts and ends were
/// refused.
#[derive(Drop)]
pub(crate) struct SlotTable<P: OpenProcess + Drop> {
    children: Vec<Option<Numbered<P>>>,
    last: Option<Finished<P>>,
    causes: CauseList,
}

impl<P: OpenProcess + Drop> Model for SlotTable<P> {
    ghost use Rattle.std.specs.Prelude.{◌≡◌, vec_len};
    ghost use Rattle.crew.specs.Holding.{Table};

    ghost Value = { Table };

    ghost view = { λ t. record { children = t.children.items; last = t.last; causes = t.causes } };

    ghost invariant = { λ t. vec_len t.children ≡ 16 };
}

impl<P: OpenProcess + Drop> SlotTable<P> {
    /// Returns a table without children.
    pub(crate) fn new(alloc: Global) -> Result<SlotTable<P>, AllocError>
        ensures slots { IfOk result (λ t. length t.children ≡ 16) }
        ensures last { IfOk result (λ t. t.last ≡ None) }
        ensures causes { IfOk result (λ t. t.causes ≡ []) }
    {
        let children = no_children(alloc)?;
        let causes = CauseList::new(alloc)?;
        Ok(SlotTable {
            children,
            last: None,
            causes,
        })
    }

    /// Puts the child of this number into a slot.
    pub(crate) fn put(&mut self, slot: usize, number: u64, child: Started<P>)
        requires slot { slot < 16 }
        requires unread { IsUnread child.pipe }
        ensures { self.new ≡ record self.old {
          children = slice_set self.old.children slot
              (Some (record { number = number; left = child.pipe.left }));
        } }
    {
        self.children[slot] = Some(Numbered::new(number, child));
    }

    /// Keeps why the start of this number was refused.
    pub(crate) fn refuse(&mut self, number: u64, cause: Cause)
        ensures { self.new ≡ record self.old { causes = with_cause self.old.causes number cause } }
    {
        self.causes.put(number, cause);
    }

    /// Waits for the end of the child in a slot, and takes it out. Returns its reply twice.
    pub(crate) fn end(&mut self, slot: usize, alloc: Global) -> (Reply, Reply)
        requires slot { slot < 16 }
        requires taken { IsSome (child_in self.old slot) }
        ensures end { Ends self.old self.new slot (number_of (child_in self.old slot)) result.0 }
        ensures copy { result.1 ≡ result.0 }
    {
        end_told(
            &mut self.children[slot],
            &mut self.last,
            &mut self.causes,
            alloc,
        )
    }

    /// Returns why the start or the end of a child was refused, if that is known.
    pub(crate) fn cause(&self, child: u64) -> Option<&[u8]>
        ensures cause { option_map (λ line. line.now) result ≡ cause_of child self.now.causes }
        ensures shown { IfSome result (λ line. IsShown line.now) }
    {
        self.causes.cause(child)
    }
}

impl<P: OpenProcess + Drop> SlotTable<P>
where
    P::Stderr: PipeEnd,
{
    /// Returns the descriptor of the pipe of the child in a slot, or a negative number if there is
    /// none.
    pub(crate) fn descriptor(&self, slot: usize) -> RawFd
        requires { slot < 16 }
    {
        match &self.children[slot] {
            Some(child) => child.descriptor(),
            None => -1,
        }
    }

    /// Reads once of the pipe of the child in a slot, for the time when it is to end. Returns
    /// whether nothing more can be read ahead.
    #[tactic(auto, using(crate::proofs::Holding::kept_at))]
    pub(crate) fn read_ahead(&mut self, slot: usize) -> bool
        requires { slot < 16 }
        ensures { self.new ≡ self.old }
    {
        read_ahead(&mut self.children[slot])
    }
}

/// Returns a list with one entry per slot, all empty.
fn no_children<P: OpenProcess + Drop>(alloc: Global) -> Result<Vec<Option<Numbered<P>>>, AllocError>
    ensures { IfOk result (λ v. vec_len v ≡ 16) }
{
    let mut children = Vec::with_capacity(alloc, SLOTS)?;
    for _ in 0..SLOTS {
        children.push(None)?;
    }
    Ok(children)
}

/// Reads once of the pipe of a child. Returns whether nothing more can be read ahead.
fn read_ahead<P: OpenProcess + Drop>(child: &mut Option<Numbered<P>>) -> bool
where
    P::Stderr: PipeEnd,
    ensures { child.new ≡ child.old }
{
    match child {
        Some(child) => child.read_ahead(),
        None => true,
    }
}

/// Returns the number of a child, or 0 if there is none.
fn number_of<P: OpenProcess + Drop>(child: &Option<Numbered<P>>) -> u64
    ensures { result ≡ number_of child.now }
{
    match child {
        Some(child) => child.number(),
        None => 0,
    }
}

/// Waits for the end of the child in a slot, takes it out, and keeps it, and why its end was
/// refused. Returns its reply twice.
#[tactic(auto, using(crate::proofs::Holding::end_doubled, crate::proofs::Holding::told_end))]
fn end_told<P: OpenProcess + Drop>(
    child: &mut Option<Numbered<P>>,
    last: &mut Option<Finished<P>>,
    causes: &mut CauseList,
    alloc: Global,
) -> (Reply, Reply)
    requires { IsSome child.old }
    ensures end { IsEndOf (number_of child.old) child.old last.new result.0 }
    ensures told { IsEndTold (number_of child.old) result.0 causes.old causes.new }
    ensures left { child.new ≡ None }
    ensures copy { result.1 ≡ result.0 }
{
    let number = number_of(child);
    let (reply, cause) = end_in(child, last, alloc);
    let (reply, kept, cause) = doubled(alloc, reply, cause);
    put_cause(causes, number, cause);
    (reply, kept)
}

/// Keeps why the end of this number was refused, if it was.
fn put_cause(causes: &mut CauseList, number: u64, cause: Option<Cause>)
    ensures { causes.new ≡ with_told causes.old number cause }
{
    if let Some(cause) = cause {
        causes.put(number, cause);
    }
}

/// Returns a reply twice, and its cause. If memory runs out, both are [`Reply::EndRefused`].
#[tactic(auto, using(crate::proofs::Holding::of_read))]
fn doubled(alloc: Global, reply: Reply, cause: Option<Cause>) -> (Reply, Reply, Option<Cause>)
    requires { IsExplained reply cause }
    ensures reply { (result.0 ≡ reply) ⊎ (result.0 ≡ EndRefused) }
    ensures copy { result.1 ≡ result.0 }
    ensures explained { IsExplained result.0 result.2 }
{
    match reply.copy(alloc) {
        Ok(kept) => (reply, kept, cause),
        Err(_) => {
            let cause = Cause::of_words(alloc, b"read", b"out of memory");
            (Reply::EndRefused, Reply::EndRefused, Some(cause))
        }
    }
}
