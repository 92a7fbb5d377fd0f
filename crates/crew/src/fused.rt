//! A crew around a crew, which refuses one call.

ghost use Rattle.std.specs.Prelude.{◌≡◌, ◌≢◌, ◌+◌, ◌^◌, ◌<◌, ◌≤◌, [], ◌∷◌, ◌++◌, true, false, None, OnOk, OnErr, is_ok};
ghost use Rattle.std.specs.Bool.{OnTrue};
ghost use Rattle.crew_trait.specs.Events.{IsIdle, IsSomeBusy, busy, failure_of};
ghost use Rattle.crew.specs.Fused.{account_of, counted, is_due, is_same, is_unseen, known_of, later_after, later_of, left_after};
ghost use Rattle.crew.specs.declared.fused.FuseKind.TheVariants.{Start, End};
ghost use Rattle.crew_trait.specs.declared.reply.Reply.TheVariants.{EndRefused, StartRefused};
ghost use Rattle.crew_trait.specs.declared.event.CrewEvent.TheVariants.{Started, Ended};

use crew_jobs::Job;
use crew_refusals::Causes;
use crew_tally::Children;
use crew_trait::{Crew, Refused, Reply};
use std::marker::Model;

/// The kind of the call that a [`Fused`] crew refuses.
#[derive(Clone, Copy)]
pub enum FuseKind {
    /// A start. The crew inside doesn't see it.
    Start,
    /// An end. The child ends in the crew inside, and the reply is [`Reply::EndRefused`].
    End,
}

/// A crew around a crew, for tests: refuses one call, and passes on all the others.
///
/// The calls of [`Crew`] don't allocate, apart from those of the crew inside.
#[derive(Drop)]
pub struct Fused<C: Crew + Drop> {
    inner: C,
    kind: FuseKind,
    // The calls of this kind up to and including the one to refuse, or 0 if none is to be refused.
    left: u64,
    // The events of `inner` since the refused call, if there was one.
    later: Option<u64>,
}

impl<C: Crew + Drop> Model for Fused<C> {
    ghost use Rattle.crew.specs.Fused.{IsCounted, WithFuse};

    ghost Value = { WithFuse C };

    ghost view = { λ f. record { inner = f.inner; kind = f.kind; left = f.left; later = f.later } };

    ghost invariant = { λ f. IsCounted f.left f.later (C.account f.inner) };
}

impl<C: Crew + Drop> Fused<C> {
    /// Returns a crew around `inner`, which refuses the `k`-th call of this kind from now on,
    /// counted from 1.
    ///
    /// If `k` is 0, it passes on all calls.
    pub fn new(inner: C, kind: FuseKind, k: u64) -> Fused<C>
        requires idle { IsIdle (C.account inner).events }
        requires attempts { (C.account inner).attempts ≤ 2 ^ 62 }
        ensures fused { result ≡ record { inner = inner; kind = kind; left = k; later = None } }
        ensures account { account_of C.account result ≡ C.account inner }
    {
        Fused {
            inner,
            kind,
            left: k,
            later: None,
        }
    }

    /// Returns the crew inside.
    pub fn inner(&self) -> &C
        ensures { result.now ≡ self.now.inner }
    {
        &self.inner
    }
}

impl<C: Crew + Drop> Crew for Fused<C> {
    ghost account = { λ f. account_of C.account f };

    fn start(&mut self, slot: usize, job: Job) -> Result<(), Refused>
        requires slot { slot < 16 }
        requires free { busy slot (account_of C.account self.old).events ≡ false }
        requires attempts { (account_of C.account self.old).attempts < 2 ^ 62 }
        requires failures { (account_of C.account self.old).failures < 2 ^ 62 }
        ensures number { (account_of C.account self.new).attempts
            ≡ (account_of C.account self.old).attempts + 1 }
        ensures taken { OnOk result (
            (account_of C.account self.new).events
            ≡ (account_of C.account self.old).events
            ++ Started slot job ((account_of C.account self.old).attempts + 1) ∷ []) }
        ensures taken_count { OnOk result
            ((account_of C.account self.new).failures ≡ (account_of C.account self.old).failures) }
        ensures refused { OnErr result
            ((account_of C.account self.new).events ≡ (account_of C.account self.old).events) }
        ensures refused_count { OnErr result (
            (account_of C.account self.new).failures
            ≡ (account_of C.account self.old).failures + 1) }
        ensures is_refused { OnTrue (is_due Start self.old.kind self.old.left)
            (is_ok result ≡ false) }
        ensures unseen { OnTrue (is_due Start self.old.kind self.old.left)
            (self.new.inner ≡ self.old.inner) }
        ensures kind { self.new.kind ≡ self.old.kind }
        ensures left { self.new.left ≡ left_after Start self.old.kind self.old.left }
        ensures later { self.new.later
            ≡ later_after (is_due Start self.old.kind self.old.left) (is_ok result) self.old.later }
    {
        if is_due(FuseKind::Start, self.kind, &mut self.left) {
            self.later = Some(0);
            return Err(Refused);
        }
        let Ok(()) = self.inner.start(slot, job) else {
            return Err(Refused);
        };
        count(&mut self.later);
        Ok(())
    }

    fn next(&mut self) -> (usize, Reply)
        requires flying { IsSomeBusy (account_of C.account self.old).events }
        requires failures { (account_of C.account self.old).failures < 2 ^ 62 }
        ensures was_busy { busy result.0 (account_of C.account self.old).events ≡ true }
        ensures ended { (account_of C.account self.new).events
            ≡ (account_of C.account self.old).events
            ++ Ended result.0 result.1 (account_of C.account self.old).attempts ∷ [] }
        ensures number { (account_of C.account self.new).attempts
            ≡ (account_of C.account self.old).attempts }
        ensures reply { result.1 ≢ StartRefused }
        ensures count { (account_of C.account self.new).failures
            ≡ (account_of C.account self.old).failures + failure_of result.1 }
        ensures is_refused { OnTrue (is_due End self.old.kind self.old.left)
            (result.1 ≡ EndRefused) }
        ensures kind { self.new.kind ≡ self.old.kind }
        ensures left { self.new.left ≡ left_after End self.old.kind self.old.left }
        ensures later { self.new.later
            ≡ later_after (is_due End self.old.kind self.old.left) true self.old.later }
    {
        let (slot, reply) = self.inner.next();
        if is_due(FuseKind::End, self.kind, &mut self.left) {
            self.later = Some(0);
            return (slot, Reply::EndRefused);
        }
        count(&mut self.later);
        (slot, reply)
    }
}

impl<C: Crew + Causes + Drop> Causes for Fused<C> {
    ghost known = { known_of C.known };

    /// Returns what the crew inside knows. After a start that it didn't see nothing is known,
    /// because it counts its children otherwise.
    fn cause(&self, child: u64) -> Option<&[u8]> {
        if is_unseen(self.kind, self.later) {
            return None;
        }
        self.inner.cause(child)
    }
}

impl<C: Crew + Children + Drop> Children for Fused<C> {
    // A start that is refused isn't counted, and all others are those of the crew inside.
    ghost started = { λ f. C.started f.inner };

    fn children(&self) -> u64 {
        self.inner.children()
    }
}

/// Returns whether the crew inside numbers its children otherwise.
fn is_unseen(kind: FuseKind, later: Option<u64>) -> bool
    ensures { result ≡ is_unseen kind later }
{
    match kind {
        FuseKind::Start => later.is_some(),
        FuseKind::End => false,
    }
}

fn is_same(call: FuseKind, kind: FuseKind) -> bool
    ensures { result ≡ is_same call kind }
{
    match call {
        FuseKind::Start => matches!(kind, FuseKind::Start),
        FuseKind::End => matches!(kind, FuseKind::End),
    }
}

/// Counts a call. Returns whether it is the one to refuse.
fn is_due(call: FuseKind, kind: FuseKind, left: &mut u64) -> bool
    ensures value { result ≡ is_due call kind left.old }
    ensures left { left.new ≡ left_after call kind left.old }
{
    if !is_same(call, kind) {
        return false;
    }
    let due = *left == 1;
    *left = left.saturating_sub(1);
    due
}

/// Counts an event, if a call was refused before it.
fn count(later: &mut Option<u64>)
    requires { later_of later.old < 2 ^ 63 + 1 }
    ensures { later.new ≡ counted later.old }
{
    if let Some(n) = *later {
        *later = Some(n + 1);
    }
}
