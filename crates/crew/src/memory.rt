//! A crew that answers from a list of replies.

ghost use Rattle.std.specs.Prelude.{◌≡◌, ◌≢◌, ◌+◌, ◌*◌, ◌^◌, ◌<◌, ◌≤◌, [], ◌∷◌, ◌++◌, true, false, None, IfOk, IfSome, IfNone, OnOk, OnErr, is_ok, length, reverse, vec_capacity, MatchOption};
ghost use Rattle.crew_trait.specs.Events.{busy, IsSomeBusy, failure_of};
ghost use Rattle.crew_trait.specs.declared.event.CrewEvent.TheVariants.{Started, Ended};
ghost use Rattle.crew.specs.Counting.{started_in};
ghost use Rattle.crew.specs.Scripted.{after_start, after_next, ending, is_taken, is_start_refused};

use crate::counting::started_in;
use crate::event::Event;
use crate::failures::{failures_after, refusal};
use crate::flight::Flight;
use crate::order::{Order, next_place};
use crate::room::{put, put_end};
use crew_jobs::Job;
use crew_refusals::Causes;
use crew_tally::Children;
use crew_trait::{Crew, CrewEvent, Refused, Reply};
use std::alloc::{AllocError, Global};
use std::marker::Model;

/// A crew for tests: answers the n-th attempted start with the n-th reply of a list, and ends its
/// children in a given order.
///
/// A start is refused if its reply is [`Reply::StartRefused`] or the list has no more replies, and
/// only then. The calls of [`Crew`] don't allocate.
#[derive(Drop)]
pub struct MemoryCrew {
    // The replies to come, the next one last. `copies` is equal, for the account.
    replies: Vec<Reply>,
    copies: Vec<Reply>,
    children: Vec<Flight>,
    order: Order,
    events: Vec<CrewEvent>,
    listed: Vec<Event>,
    attempts: u64,
    failures: u64,
}

impl Model for MemoryCrew {
    ghost use Rattle.std.specs.Prelude.{◌≡◌, vec_capacity, reverse};
    ghost use Rattle.crew.specs.Scripted.{Scripted};
    ghost use Rattle.crew.specs.Sound.{IsReady};

    ghost Value = { Scripted };

    ghost view = { λ m. record {
      account = record { events = m.events.items; attempts = m.attempts; failures = m.failures };
      listed = m.listed.items;
      replies = reverse m.replies.items;
      children = m.children.items;
      order = m.order;
    } };

    ghost invariant = { λ m. (m.copies.items ≡ m.replies.items)
        × IsReady m.replies.items m.children.items m.events.items m.listed.items (vec_capacity m.children) (vec_capacity m.events) (vec_capacity m.listed) };
}

impl MemoryCrew {
    /// Returns a crew that has done nothing, with room for all that its calls will record.
    ///
    /// # Errors
    ///
    /// Fails only if memory runs out.
    pub fn new(alloc: Global, replies: Vec<Reply>, order: Order) -> Result<MemoryCrew, AllocError>
        ensures { IfOk result (λ m. m ≡ record {
          account = record { events = []; attempts = 0; failures = 0 };
          listed = [];
          replies = replies.items;
          children = [];
          order = order;
        }) }
    {
        let (replies, copies) = reversed_twice(alloc, replies)?;
        let (children, events, listed) = with_room(alloc, replies.len())?;
        Ok(MemoryCrew {
            replies,
            copies,
            children,
            order,
            events,
            listed,
            attempts: 0,
            failures: 0,
        })
    }

    /// Returns the calls so far, in order. Starts after the end of the list of replies are left
    /// out.
    pub fn events(&self) -> &[Event]
        ensures listed { result.now ≡ self.now.listed }
        // If no call is listed, no start was taken.
        ensures not_started { result.now ≡ [] → self.now.account.events ≡ [] }
    {
        self.listed.as_slice()
    }
}

/// Returns empty lists of children, events and calls, with room for `count` starts and their ends.
fn with_room(
    alloc: Global,
    count: usize,
) -> Result<(Vec<Flight>, Vec<CrewEvent>, Vec<Event>), AllocError>
    ensures children { IfOk result (λ r. (r.0.items ≡ []) × (count ≤ vec_capacity r.0)) }
    ensures events { IfOk result (λ r. (r.1.items ≡ []) × (2 * count ≤ vec_capacity r.1)) }
    ensures listed { IfOk result (λ r. (r.2.items ≡ []) × (2 * count ≤ vec_capacity r.2)) }
{
    let Some(twice) = count.checked_mul(2) else {
        return Err(AllocError);
    };
    let children = Vec::with_capacity(alloc, count)?;
    let events = Vec::with_capacity(alloc, twice)?;
    let listed = Vec::with_capacity(alloc, twice)?;
    Ok((children, events, listed))
}

/// Returns the replies from the last to the first, twice.
fn reversed_twice(
    alloc: Global,
    mut replies: Vec<Reply>,
) -> Result<(Vec<Reply>, Vec<Reply>), AllocError>
    ensures replies { IfOk result (λ r. r.0.items ≡ reverse replies.items) }
    ensures copies { IfOk result (λ r. r.1.items ≡ r.0.items) }
{
    replies.reverse();
    let copies = copied(alloc, replies.as_slice())?;
    Ok((replies, copies))
}

fn copied(alloc: Global, replies: &[Reply]) -> Result<Vec<Reply>, AllocError>
    ensures { IfOk result (λ v. v.items ≡ replies.now) }
{
    let mut all = Vec::new(alloc);
    for reply in replies {
        all.push(reply.copy(alloc)?)?;
    }
    Ok(all)
}

/// Returns the reply to the next start, twice, or `None` if there is none.
fn next_pair(replies: &mut Vec<Reply>, copies: &mut Vec<Reply>) -> Option<(Reply, Reply)>
    requires { copies.old.items ≡ replies.old.items }
    ensures pair { MatchOption result
        ((reverse replies.old.items ≡ []) × (reverse replies.new.items ≡ []))
        (λ p. reverse replies.old.items ≡ p.0 ∷ reverse replies.new.items) }
    ensures copy { IfSome result (λ p. p.1 ≡ p.0) }
    ensures len { IfSome result (λ p. length replies.old.items ≡ length replies.new.items + 1) }
    ensures unchanged { IfNone result (replies.new.items ≡ replies.old.items) }
    ensures copies { copies.new.items ≡ replies.new.items }
{
    let reply = replies.pop()?;
    let copy = copies.pop()?;
    Some((reply, copy))
}

fn is_start_refused(reply: &Reply) -> bool
    ensures { result ≡ is_start_refused reply.now }
{
    matches!(reply, Reply::StartRefused)
}

impl Crew for MemoryCrew {
    ghost account = { λ m. m.account };

    fn start(&mut self, slot: usize, job: Job) -> Result<(), Refused>
        requires slot { slot < 16 }
        requires free { busy slot self.old.account.events ≡ false }
        requires attempts { self.old.account.attempts < 2 ^ 62 }
        requires failures { self.old.account.failures < 2 ^ 62 }
        ensures number { self.new.account.attempts ≡ self.old.account.attempts + 1 }
        ensures taken { OnOk result (self.new.account.events
            ≡ self.old.account.events ++ Started slot job (self.old.account.attempts + 1) ∷ []) }
        ensures taken_count { OnOk result (self.new.account.failures ≡ self.old.account.failures) }
        ensures refused { OnErr result (self.new.account.events ≡ self.old.account.events) }
        ensures refused_count { OnErr result (
            self.new.account.failures ≡ self.old.account.failures + 1) }
        ensures after { self.new ≡ after_start slot job self.old }
        // The start is taken exactly if the list has a reply for it that isn't a refused start.
        ensures answer { is_ok result ≡ is_taken self.old.replies }
    {
        self.attempts += 1;
        let number = self.attempts;
        let Some((reply, copy)) = next_pair(&mut self.replies, &mut self.copies) else {
            return Err(refusal(&mut self.failures));
        };
        if is_start_refused(&reply) {
            put(&mut self.listed, Event::Refused(slot));
            return Err(refusal(&mut self.failures));
        }
        put(&mut self.listed, Event::Started(slot));
        put(&mut self.children, Flight::new(slot, reply, copy));
        put(&mut self.events, CrewEvent::Started { slot, job, number });
        Ok(())
    }

    fn next(&mut self) -> (usize, Reply)
        requires flying { IsSomeBusy self.old.account.events }
        requires failures { self.old.account.failures < 2 ^ 62 }
        ensures was_busy { busy result.0 self.old.account.events ≡ true }
        ensures ended { self.new.account.events
            ≡ self.old.account.events ++ Ended result.0 result.1 self.old.account.attempts ∷ [] }
        ensures number { self.new.account.attempts ≡ self.old.account.attempts }
        ensures reply { result.1 ≢ Reply.StartRefused }
        ensures count { self.new.account.failures
            ≡ self.old.account.failures + failure_of result.1 }
        ensures after { self.new ≡ after_next self.old }
        // The child is the one that the order gives, and the reply that of the list for its start.
        ensures answer { result ≡ ((ending self.old).slot, (ending self.old).reply) }
    {
        let at = next_place(&mut self.order, self.children.as_slice());
        let child = self.children.remove(at);
        let (slot, reply, kept) = child.into_parts();
        self.failures = failures_after(&reply, self.failures);
        put(&mut self.listed, Event::Ended(slot));
        put_end(&mut self.events, slot, kept, self.attempts);
        (slot, reply)
    }
}

impl Causes for MemoryCrew {
    ghost known = { λ m child. None };

    /// Returns nothing, because the list of replies has no causes.
    fn cause(&self, _child: u64) -> Option<&[u8]> {
        None
    }
}

impl Children for MemoryCrew {
    ghost started = { λ m. started_in m.account.events };

    fn children(&self) -> u64 {
        started_in(self.events.as_slice())
    }
}
