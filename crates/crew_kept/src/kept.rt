//! A crew that takes replies from the records of an earlier run.

ghost use Rattle.std.specs.Prelude.{◌≡◌, ◌≢◌, ◌+◌, ◌^◌, ◌<◌, ◌≤◌, false, true, [], ◌∷◌, ◌++◌, OnOk, OnErr, IfNone, IfOk, IfSome, OnSome, Some, None, ◌⊎◌, length, vec_capacity};
ghost use Rattle.crew_trait.specs.Events.{busy, IsSomeBusy, failure_of};
ghost use Rattle.crew_kept.specs.Records.{MayPass, answer_of};
ghost use Rattle.crew_kept.specs.Taking.{AreTaken, account_with, asked_with};
ghost use Rattle.crew_kept.specs.declared.placed.Step.TheVariants.{Happened, Refusal};
ghost use Rattle.crew_kept.specs.declared.state.State.TheVariants.{Open, Lacked};
ghost use Rattle.crew_trait.specs.declared.event.CrewEvent.TheVariants.{Started, Ended};

use crate::links::{after_asked, after_taken, is_refused};
use crate::placed::{Placed, Step, Waiting};
use crate::room::put;
use crate::supply::Supply;
use crate::taken::Taken;
use answers_text::Record;
use crew_jobs::Job;
use crew_trait::{Crew, CrewEvent, Refused, Reply};
use std::alloc::{AllocError, Global};
use std::marker::Model;

/// A crew that takes replies from the records of an earlier run, and gives other jobs to the crew
/// inside (own).
///
/// The reply to a start is taken if the records have one for an equal job at its number. If they have
/// several records of one number, the first of them counts. From the first job on that differs from
/// the one that the records have at its number, nothing is taken. If memory runs out, the crew inside
/// gets the job, and nothing more is taken.
///
/// A link is taken only if the records have the start after it too, which may run the program. If the
/// link that was started last was taken, a start that may run a program is taken or refused, and never
/// reaches the crew inside: the program is of another link, or gone. A refusal cuts the run, so it ends
/// this.
#[derive(Drop)]
pub struct Kept<C: Crew + Drop> {
    pub(crate) crew: C,
    alloc: Global,
    supply: Supply,
    // What was done without the crew inside, with room for the ends of the replies that wait, and for
    // the refusal of a start that may run the program of a link that was taken.
    pub(crate) placed: Vec<Placed>,
    waiting: Vec<Waiting>,
    // Whether the link that was started last was taken.
    linked: bool,
    // The number of events of the crew inside, and of starts that were tried here.
    events: u64,
    attempts: u64,
}

impl<C: Crew + Drop> Model for Kept<C> {
    ghost use Rattle.std.specs.Prelude.{◌+◌, ◌≤◌, if◌then◌else◌, length, vec_capacity};
    ghost use Rattle.crew_kept.specs.Taking.{IsKeeping, Keeping};

    ghost Value = { Keeping C };

    ghost view = { λ k. record { crew = k.crew; records = k.supply.records; placed = k.placed.items; waiting = k.waiting.items; linked = k.linked; state = k.supply.state } };

    ghost invariant = { λ k. IsKeeping (C.account k.crew) k.supply.records k.placed.items k.waiting.items k.linked k.supply.state k.events k.attempts
        × (length k.placed.items + length k.waiting.items + (if k.linked then 1 else 0) ≤ vec_capacity k.placed) };
}

/// Makes room for a start, the end of it, the refusal of a later one, and the ends of those that
/// wait.
fn make_room(placed: &mut Vec<Placed>, waiting: &mut Vec<Waiting>) -> Result<(), AllocError>
    ensures placed { placed.new.items ≡ placed.old.items }
    ensures waiting { waiting.new.items ≡ waiting.old.items }
    ensures grown { vec_capacity placed.old ≤ vec_capacity placed.new }
    ensures room { OnOk result (
        length placed.new.items + length waiting.new.items + 3 ≤ vec_capacity placed.new) }
    ensures place { OnOk result (length waiting.new.items < vec_capacity waiting.new) }
{
    placed.reserve(waiting.len() + 3)?;
    waiting.reserve(1)?;
    Ok(())
}

/// Returns the reply that is taken for a job, if one is and there is room for its events.
fn take(
    alloc: Global,
    supply: &mut Supply,
    placed: &mut Vec<Placed>,
    waiting: &mut Vec<Waiting>,
    number: u64,
    job: &Job,
) -> Option<Taken>
    requires { number < 2 ^ 63 }
    ensures records { supply.new.records ≡ supply.old.records }
    ensures placed { placed.new.items ≡ placed.old.items }
    ensures waiting { waiting.new.items ≡ waiting.old.items }
    ensures grown { vec_capacity placed.old ≤ vec_capacity placed.new }
    ensures taken { IfSome result (λ taken.
        answer_of supply.old.state supply.old.records number job.now ≡ Some taken) }
    ensures same { IfSome result (λ taken. supply.new ≡ supply.old) }
    ensures none { IfNone result (
        MayPass supply.old.records number job.now supply.old.state supply.new.state) }
    ensures room { OnSome result (
        length placed.new.items + length waiting.new.items + 3 ≤ vec_capacity placed.new) }
    ensures place { OnSome result (length waiting.new.items < vec_capacity waiting.new) }
{
    let Some(taken) = supply.taken(alloc, number, job) else {
        return None;
    };
    match make_room(placed, waiting) {
        Ok(()) => Some(taken),
        Err(_) => {
            supply.lack();
            None
        }
    }
}

/// Adds the start of a job, and the reply that was taken for it.
fn put_start(
    placed: &mut Vec<Placed>,
    waiting: &mut Vec<Waiting>,
    place: u64,
    slot: usize,
    job: Job,
    number: u64,
    taken: Taken,
)
    requires room { length placed.old.items + length waiting.old.items + 3 ≤ vec_capacity placed.old }
    requires place { length waiting.old.items < vec_capacity waiting.old }
    ensures placed { placed.new.items ≡ placed.old.items
        ++ record { place = place; step = Happened (Started slot job number) } ∷ [] }
    ensures waiting { waiting.new.items ≡ waiting.old.items ++ record { slot = slot; taken = taken } ∷ [] }
    ensures room { length placed.new.items + length waiting.new.items + 1 ≤ vec_capacity placed.new }
{
    let event = CrewEvent::Started { slot, job, number };
    let step = Step::Happened(event);
    put(placed, Placed { place, step });
    put(waiting, Waiting { slot, taken });
}

/// Adds the refusal of the start of this number.
fn put_refusal(placed: &mut Vec<Placed>, place: u64, number: u64)
    requires { length placed.old.items < vec_capacity placed.old }
    ensures placed { placed.new.items
        ≡ placed.old.items ++ record { place = place; step = Refusal number } ∷ [] }
    ensures room { vec_capacity placed.old ≤ vec_capacity placed.new }
{
    let step = Step::Refusal(number);
    put(placed, Placed { place, step });
}

/// Returns the reply that was taken last of those that wait, and adds its end.
fn put_end(
    placed: &mut Vec<Placed>,
    waiting: &mut Vec<Waiting>,
    place: u64,
    number: u64,
) -> Option<(usize, Reply)>
    requires room { length placed.old.items + length waiting.old.items ≤ vec_capacity placed.old }
    ensures none { IfNone result (waiting.old.items ≡ []) }
    ensures left { IfNone result (waiting.new.items ≡ []) }
    ensures kept { IfNone result (placed.new.items ≡ placed.old.items) }
    ensures waiting { IfSome result (λ end. waiting.old.items
        ≡ waiting.new.items ++ record { slot = end.0; taken = end.1 } ∷ []) }
    ensures placed { IfSome result (λ end. placed.new.items ≡ placed.old.items
        ++ record { place = place; step = Happened (Ended end.0 end.1 number) } ∷ []) }
    ensures count { length placed.new.items + length waiting.new.items
        ≤ length placed.old.items + length waiting.old.items }
    ensures grown { vec_capacity placed.old ≤ vec_capacity placed.new }
{
    let Some(Waiting { slot, taken }) = waiting.pop() else {
        return None;
    };
    let (reply, copy) = taken.both();
    let event = CrewEvent::Ended {
        slot,
        reply: copy,
        number,
    };
    let step = Step::Happened(event);
    put(placed, Placed { place, step });
    Some((slot, reply))
}

/// Returns whether nothing was started yet.
#[tactic(auto, using(crate::proofs::Fresh::no_items))]
fn is_fresh(
    placed: &Vec<Placed>,
    waiting: &Vec<Waiting>,
    linked: bool,
    events: u64,
    attempts: u64,
) -> bool
    ensures placed { result ≡ true → placed.now.items ≡ [] }
    ensures waiting { result ≡ true → waiting.now.items ≡ [] }
    ensures linked { result ≡ true → linked ≡ false }
    ensures events { result ≡ true → events ≡ 0 }
    ensures attempts { result ≡ true → attempts ≡ 0 }
{
    if linked || events != 0 || attempts != 0 {
        return false;
    }
    placed.is_empty() && waiting.is_empty()
}

impl<C: Crew + Drop> Kept<C> {
    /// Returns a crew around one that has started nothing, which takes replies from these records. If
    /// memory runs out, it takes none.
    pub fn new(alloc: Global, crew: C, records: Vec<Record>) -> Kept<C>
        requires events { (C.account crew).events ≡ [] }
        requires attempts { (C.account crew).attempts ≡ 0 }
        ensures crew { result.crew ≡ crew }
        ensures records { result.records ≡ records.items }
        ensures placed { result.placed ≡ [] }
        ensures waiting { result.waiting ≡ [] }
        ensures linked { result.linked ≡ false }
        ensures state { (result.state ≡ Open) ⊎ (result.state ≡ Lacked) }
        ensures account { account_with result.placed (C.account result.crew) ≡ C.account crew }
        ensures asked { asked_with result.placed (C.account result.crew) ≡ [] }
    {
        let supply = Supply::new(alloc, records);
        Kept {
            crew,
            alloc,
            supply,
            placed: Vec::new(alloc),
            waiting: Vec::new(alloc),
            linked: false,
            events: 0,
            attempts: 0,
        }
    }

    /// Takes replies from these records, in place of those that it had. If a start was tried before,
    /// nothing changes. Returns whether they are taken.
    pub fn supply(&mut self, records: Vec<Record>) -> bool
        ensures crew { self.new.crew ≡ self.old.crew }
        ensures placed { self.new.placed ≡ self.old.placed }
        ensures begun { result ≡ true → (C.account self.new.crew).events ≡ [] }
        ensures unplaced { result ≡ true → self.new.placed ≡ [] }
        ensures records { result ≡ true → self.new.records ≡ records.items }
        ensures same { result ≡ false → self.new ≡ self.old }
    {
        if !is_fresh(
            &self.placed,
            &self.waiting,
            self.linked,
            self.events,
            self.attempts,
        ) {
            return false;
        }
        self.supply = Supply::new(self.alloc, records);
        true
    }

    /// Returns the crew inside.
    pub fn crew(&self) -> &C
        ensures inner { result.now ≡ self.now.crew }
        // Each start for which the records have a reply is taken, with that reply, and no other one
        // is. If the link that was started last was taken, no start that may run a program reaches
        // the crew inside.
        ensures taken { AreTaken self.now.records self.now.placed self.now.waiting
            (C.account self.now.crew).events
            (account_with self.now.placed (C.account self.now.crew)).attempts self.now.linked
            self.now.state }
        // Without records nothing is taken, and the account is that of the crew inside.
        ensures alone { self.now.records ≡ []
            → account_with self.now.placed (C.account self.now.crew) ≡ C.account self.now.crew }
    {
        &self.crew
    }

    /// Starts a job in a free slot. Returns the number of the start, or `None` if its reply was taken
    /// from the records.
    ///
    /// # Errors
    ///
    /// Returns [`Refused`] if the job isn't started. The slot stays free, and the job is dropped.
    pub fn begin(&mut self, slot: usize, job: Job) -> Result<Option<u64>, Refused>
        requires slot { slot < 16 }
        requires free { busy slot (account_with self.old.placed (C.account self.old.crew)).events ≡ false }
        requires attempts { (account_with self.old.placed (C.account self.old.crew)).attempts < 2 ^ 62 }
        requires failures { (account_with self.old.placed (C.account self.old.crew)).failures < 2 ^ 62 }
        ensures number { (account_with self.new.placed (C.account self.new.crew)).attempts
            ≡ (account_with self.old.placed (C.account self.old.crew)).attempts + 1 }
        ensures taken { OnOk result (
            (account_with self.new.placed (C.account self.new.crew)).events
            ≡ (account_with self.old.placed (C.account self.old.crew)).events
            ++ Started slot job ((account_with self.old.placed (C.account self.old.crew)).attempts + 1)
            ∷ []) }
        ensures taken_count { OnOk result (
            (account_with self.new.placed (C.account self.new.crew)).failures
            ≡ (account_with self.old.placed (C.account self.old.crew)).failures) }
        ensures refused { OnErr result (
            (account_with self.new.placed (C.account self.new.crew)).events
            ≡ (account_with self.old.placed (C.account self.old.crew)).events) }
        ensures refused_count { OnErr result (
            (account_with self.new.placed (C.account self.new.crew)).failures
            ≡ (account_with self.old.placed (C.account self.old.crew)).failures + 1) }
        // A number is that of a start of the crew inside.
        ensures asked { IfOk result (λ found. IfSome found (λ number.
            asked_with self.new.placed (C.account self.new.crew)
            ≡ asked_with self.old.placed (C.account self.old.crew)
            ++ Started slot job number ∷ [])) }
        ensures asked_number { IfOk result (λ found. IfSome found (λ number.
            number ≡ (account_with self.new.placed (C.account self.new.crew)).attempts)) }
        ensures unasked { IfOk result (λ found. IfNone found (
            asked_with self.new.placed (C.account self.new.crew)
            ≡ asked_with self.old.placed (C.account self.old.crew))) }
        ensures not_started { OnErr result (
            asked_with self.new.placed (C.account self.new.crew)
            ≡ asked_with self.old.placed (C.account self.old.crew)) }
    {
        self.attempts += 1;
        match take(
            self.alloc,
            &mut self.supply,
            &mut self.placed,
            &mut self.waiting,
            self.attempts,
            &job,
        ) {
            Some(taken) => {
                self.linked = after_taken(self.linked, &job);
                put_start(
                    &mut self.placed,
                    &mut self.waiting,
                    self.events,
                    slot,
                    job,
                    self.attempts,
                    taken,
                );
                Ok(None)
            }
            None => {
                if is_refused(self.linked, &job) {
                    self.linked = false;
                    put_refusal(&mut self.placed, self.events, self.attempts);
                    return Err(Refused);
                }
                let linked = after_asked(self.linked, &job);
                self.crew.start(slot, job)?;
                self.linked = linked;
                self.events += 1;
                Ok(Some(self.attempts))
            }
        }
    }

    /// Waits for the end of a child, frees its slot, and returns the slot with the reply, and whether
    /// the reply was taken from the records.
    pub fn end(&mut self) -> (usize, Reply, bool)
        requires flying { IsSomeBusy (account_with self.old.placed (C.account self.old.crew)).events }
        requires failures { (account_with self.old.placed (C.account self.old.crew)).failures < 2 ^ 62 }
        ensures was_busy { busy result.0 (account_with self.old.placed (C.account self.old.crew)).events ≡ true }
        ensures ended { (account_with self.new.placed (C.account self.new.crew)).events
            ≡ (account_with self.old.placed (C.account self.old.crew)).events
            ++ Ended result.0 result.1 (account_with self.old.placed (C.account self.old.crew)).attempts
            ∷ [] }
        ensures number { (account_with self.new.placed (C.account self.new.crew)).attempts
            ≡ (account_with self.old.placed (C.account self.old.crew)).attempts }
        ensures reply { result.1 ≢ Reply.StartRefused }
        ensures count { (account_with self.new.placed (C.account self.new.crew)).failures
            ≡ (account_with self.old.placed (C.account self.old.crew)).failures + failure_of result.1 }
        // A reply that wasn't taken is one of the crew inside.
        ensures asked { result.2 ≡ false
            → asked_with self.new.placed (C.account self.new.crew)
            ≡ asked_with self.old.placed (C.account self.old.crew)
            ++ Ended result.0 result.1 (account_with self.old.placed (C.account self.old.crew)).attempts
            ∷ [] }
        ensures unasked { result.2 ≡ true
            → asked_with self.new.placed (C.account self.new.crew)
            ≡ asked_with self.old.placed (C.account self.old.crew) }
    {
        match put_end(
            &mut self.placed,
            &mut self.waiting,
            self.events,
            self.attempts,
        ) {
            Some(end) => (end.0, end.1, true),
            None => {
                let end = self.crew.next();
                self.events += 1;
                (end.0, end.1, false)
            }
        }
    }
}

impl<C: Crew + Drop> Crew for Kept<C> {
    ghost account = { λ k. account_with k.placed (C.account k.crew) };

    fn start(&mut self, slot: usize, job: Job) -> Result<(), Refused> {
        match self.begin(slot, job) {
            Ok(_) => Ok(()),
            Err(_) => Err(Refused),
        }
    }

    fn next(&mut self) -> (usize, Reply) {
        let (slot, reply, _) = self.end();
        (slot, reply)
    }
}
