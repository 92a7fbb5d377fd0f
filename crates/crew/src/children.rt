//! A crew of real children that a launcher starts.

ghost use Rattle.std.specs.Prelude.{◌≡◌, ◌≢◌, ◌⊎◌, ◌+◌, ◌^◌, ◌<◌, ◌≤◌, [], ◌∷◌, ◌++◌, false, true, IfOk, IfSome, None, OnErr, OnOk, All, get_or, length, option_map, remove, vec_capacity};
ghost use Rattle.std.specs.Bool.{OnTrue};
ghost use Rattle.std.specs.VecDeque.{deque_capacity};
ghost use Rattle.crew_refusals.specs.Known.{cause_of};
ghost use Rattle.crew_refusals.specs.Shown.{IsShown};
ghost use Rattle.crew_trait.specs.Events.{IsSomeBusy, busy, failure_of, slots_in_flight};
ghost use Rattle.crew.specs.Counting as counting;
ghost use Rattle.crew.specs.Holding.{Ends, RefusesStart, Starts, number_in};
ghost use Rattle.crew.specs.Runs.{Runs};
ghost use Rattle.crew_launch.specs.Launch.{Adds, IsClearing, failing, launch};
ghost use Rattle.crew_trait.specs.declared.reply.Reply.TheVariants.{StartRefused};
ghost use Rattle.crew_trait.specs.declared.event.CrewEvent.TheVariants.{Started, Ended};

use crate::counting::started_in;
use crate::failures::{failures_after, refusal};
use crate::room::{put, put_end};
use crate::table::SlotTable;
use crew_jobs::Job;
use crew_launch::{Launcher, PipeEnd, Watch, start_child};
use crew_refusals::{Cause, Causes};
use crew_trait::{Crew, CrewEvent, Refused, Reply};
use std::alloc::{AllocError, Global};
use std::collections::VecDeque;
use std::marker::Model;
use std::process::OpenProcess;

/// How often the pipes are waited for at most: once for each byte of 16 queues of 4 MiB.
const MOST_TURNS: u32 = 67_108_864;

/// A crew of the children that a launcher starts, whose `next` takes the oldest.
#[derive(Drop)]
pub(crate) struct Children<L: Launcher + Drop> {
    launcher: L,
    alloc: Global,
    table: SlotTable<L::Process>,
    // The slots in use, in the order in which their children were started.
    slots: VecDeque<usize>,
    events: Vec<CrewEvent>,
    attempts: u64,
    failures: u64,
}

impl<L: Launcher + Drop> Model for Children<L> {
    ghost use Rattle.std.specs.Prelude.{◌≡◌, ◌+◌, ◌≤◌, ◌<◌, vec_capacity, All, length};
    ghost use Rattle.crew_trait.specs.Events.{slots_in_flight};
    ghost use Rattle.crew.specs.Holding.{HaveChildren, RealCrew};
    ghost use Rattle.crew.specs.Runs.{Runs};
    ghost use Rattle.crew.specs.Sound.{ListsBusy};

    ghost Value = { RealCrew };

    ghost view = { λ c. record {
      account = record { events = c.events.items; attempts = c.attempts; failures = c.failures };
      table = c.table;
      stale = L.stale c.launcher;
    } };

    ghost invariant = { λ c. (length c.table.children ≡ 16)
        × (c.slots.items ≡ slots_in_flight c.events.items)
        × ListsBusy c.slots.items c.events.items
        × All (λ s. s < 16) c.slots.items
        × (length c.events.items + length c.slots.items ≤ vec_capacity c.events)
        × Runs (L.calls c.launcher) c.events.items
        × HaveChildren c.table.children c.events.items c.slots.items };
}

impl<L: Launcher + Drop> Children<L> {
    /// Returns a crew that has started nothing.
    pub(crate) fn new(launcher: L, alloc: Global) -> Result<Children<L>, AllocError>
        requires { Runs (L.calls launcher) [] }
        ensures account { IfOk result (λ c. c.account
            ≡ record { events = []; attempts = 0; failures = 0 }) }
        ensures causes { IfOk result (λ c. c.table.causes ≡ []) }
        ensures stale { IfOk result (λ c. c.stale ≡ L.stale launcher) }
    {
        let table = SlotTable::new(alloc)?;
        Ok(Children {
            launcher,
            alloc,
            table,
            slots: VecDeque::new(alloc),
            events: Vec::new(alloc),
            attempts: 0,
            failures: 0,
        })
    }

    /// Returns the number of starts that were taken.
    pub(crate) fn started(&self) -> u64
        ensures { result ≡ counting.started_in self.now.account.events }
    {
        started_in(self.events.as_slice())
    }

    /// Waits for the end of the child in a place, counted from 0 in the order in which the children
    /// in flight were started. Frees its slot, and returns the slot with the reply.
    pub(crate) fn end_at(&mut self, place: usize) -> (usize, Reply)
        requires flying { IsSomeBusy self.old.account.events }
        requires place { 0 < place → place < length (slots_in_flight self.old.account.events) }
        requires failures { self.old.account.failures < 2 ^ 62 }
        ensures was_busy { busy result.0 self.old.account.events ≡ true }
        ensures ended { self.new.account.events
            ≡ self.old.account.events ++ Ended result.0 result.1 self.old.account.attempts ∷ [] }
        ensures number { self.new.account.attempts ≡ self.old.account.attempts }
        ensures reply { result.1 ≢ StartRefused }
        ensures count { self.new.account.failures
            ≡ self.old.account.failures + failure_of result.1 }
        ensures slot { result.0 ≡ get_or (slots_in_flight self.old.account.events) place result.0 }
        ensures others { slots_in_flight self.new.account.events
            ≡ remove (slots_in_flight self.old.account.events) place }
        ensures oldest { place ≡ 0 → slots_in_flight self.old.account.events
            ≡ result.0 ∷ slots_in_flight self.new.account.events }
        // The reply is that of the child of the slot.
        ensures child { Ends self.old.table self.new.table result.0
            (number_in result.0 self.old.account.events) result.1 }
        ensures stale { self.new.stale ≡ self.old.stale }
    {
        let slot = take_slot(&mut self.slots, place);
        let (reply, kept) = self.table.end(slot, self.alloc);
        put_end(&mut self.events, slot, kept, self.attempts);
        self.failures = failures_after(&reply, self.failures);
        (slot, reply)
    }
}

impl<L: Launcher + Drop> Children<L>
where
    <L::Process as OpenProcess>::Stderr: PipeEnd,
{
    /// Waits until the pipe of a child ends, and returns the place of the child, counted from 0 in
    /// the order in which the children in flight were started.
    ///
    /// Meanwhile it reads all pipes ahead. If there is one child alone, or if the system refuses to
    /// wait, it returns 0 at once.
    pub(crate) fn place_of_ended(&mut self) -> usize
        requires { IsSomeBusy self.old.account.events }
        ensures within { result < length (slots_in_flight self.new.account.events) }
        ensures unchanged { self.new ≡ self.old }
    {
        place_of_ended(&mut self.table, &self.slots)
    }
}

impl<L: Launcher + Drop> Causes for Children<L> {
    ghost known = { λ c child. cause_of child c.table.causes };

    fn cause(&self, child: u64) -> Option<&[u8]> {
        self.table.cause(child)
    }
}

impl<L: Launcher + Drop> Crew for Children<L> {
    ghost account = { λ c. c.account };

    fn start(&mut self, slot: usize, job: Job) -> Result<(), Refused>
        requires slot { slot < 16 }
        requires free { busy slot self.old.account.events ≡ false }
        requires attempts { self.old.account.attempts < 2 ^ 62 }
        requires failures { self.old.account.failures < 2 ^ 62 }
        ensures number { self.new.account.attempts ≡ self.old.account.attempts + 1 }
        ensures taken { OnOk result (self.new.account.events
            ≡ self.old.account.events ++ Started slot job (self.old.account.attempts + 1) ∷ []) }
        ensures taken_count { OnOk result (self.new.account.failures ≡ self.old.account.failures) }
        ensures refused { OnErr result (self.new.account.events ≡ self.old.account.events) }
        ensures refused_count { OnErr result
            (self.new.account.failures ≡ self.old.account.failures + 1) }
        ensures child { OnOk result
            (Starts self.old.table self.new.table slot (self.old.account.attempts + 1)) }
        ensures cause { OnErr result
            (RefusesStart self.old.table self.new.table (self.old.account.attempts + 1) job) }
        ensures cleared { OnOk result (self.new.stale ≡ None) }
        ensures stale { OnErr result (IsClearing self.old.stale self.new.stale) }
    {
        self.attempts += 1;
        let number = self.attempts;
        let Ok(()) = launched(
            &mut self.launcher,
            self.alloc,
            &mut self.events,
            &mut self.slots,
            &mut self.table,
            &job,
            slot,
            number,
        ) else {
            return Err(refusal(&mut self.failures));
        };
        put(&mut self.events, CrewEvent::Started { slot, job, number });
        put_slot(&mut self.slots, slot);
        Ok(())
    }

    fn next(&mut self) -> (usize, Reply)
        requires flying { IsSomeBusy self.old.account.events }
        requires failures { self.old.account.failures < 2 ^ 62 }
        ensures was_busy { busy result.0 self.old.account.events ≡ true }
        ensures ended { self.new.account.events
            ≡ self.old.account.events ++ Ended result.0 result.1 self.old.account.attempts ∷ [] }
        ensures number { self.new.account.attempts ≡ self.old.account.attempts }
        ensures reply { result.1 ≢ StartRefused }
        ensures count { self.new.account.failures
            ≡ self.old.account.failures + failure_of result.1 }
        ensures child { Ends self.old.table self.new.table result.0
            (number_in result.0 self.old.account.events) result.1 }
        ensures stale { self.new.stale ≡ self.old.stale }
    {
        self.end_at(0)
    }
}

/// Reads all pipes ahead until one ends, and returns the place of its child. If there is one child
/// alone, its place is 0 in any case, and no pipe is waited for.
fn place_of_ended<P: OpenProcess + Drop>(table: &mut SlotTable<P>, slots: &VecDeque<usize>) -> usize
where
    P::Stderr: PipeEnd,
    requires not_empty { 0 < length slots.now.items }
    requires within { All (λ s. s < 16) slots.now.items }
    ensures within { result < length slots.now.items }
    ensures kept { table.new ≡ table.old }
{
    if slots.len() == 1 {
        return 0;
    }
    'turns: for _ in 0..MOST_TURNS {
        let mut watch = watch_of(table, slots);
        if !watch.wait() {
            return 0;
        }
        if let Some(place) = read_ready(table, slots, &watch) {
            return place;
        }
    }
    0
}

/// Returns a watch of the pipes of the children in these slots.
fn watch_of<P: OpenProcess + Drop>(table: &SlotTable<P>, slots: &VecDeque<usize>) -> Watch
where
    P::Stderr: PipeEnd,
    requires { All (λ s. s < 16) slots.now.items }
{
    let mut watch = Watch::new();
    for place in 0..slots.len() {
        let slot = slots[place];
        watch.add(slot, table.descriptor(slot));
    }
    watch
}

/// Reads once of each pipe that is ready. Returns the place of the first child whose pipe has ended,
/// and reads no further pipe then.
fn read_ready<P: OpenProcess + Drop>(
    table: &mut SlotTable<P>,
    slots: &VecDeque<usize>,
    watch: &Watch,
) -> Option<usize>
where
    P::Stderr: PipeEnd,
    requires { All (λ s. s < 16) slots.now.items }
    ensures within { IfSome result (λ place. place < length slots.now.items) }
    ensures kept { table.new ≡ table.old }
{
    for place in 0..slots.len() {
        let slot = slots[place];
        if watch.is_ready(slot) && table.read_ahead(slot) {
            return Some(place);
        }
    }
    None
}

/// Reserves room for the records of a start, and starts the child of this number in a slot.
fn launched<L: Launcher>(
    launcher: &mut L,
    alloc: Global,
    events: &mut Vec<CrewEvent>,
    slots: &mut VecDeque<usize>,
    table: &mut SlotTable<L::Process>,
    job: &Job,
    slot: usize,
    number: u64,
) -> Result<(), Refused>
    requires { slot < 16 }
    ensures taken { OnOk result (
        Adds (L.calls launcher.old) (L.calls launcher.new) (launch job.now)) }
    ensures child { OnOk result (Starts table.old table.new slot number) }
    ensures refused { OnErr result (Adds (L.calls launcher.old) (L.calls launcher.new) []
        ⊎ Adds (L.calls launcher.old) (L.calls launcher.new) (failing job.now)) }
    ensures cause { OnErr result (RefusesStart table.old table.new number job.now) }
    ensures cleared { OnOk result (L.stale launcher.new ≡ None) }
    ensures stale { OnErr result (IsClearing (L.stale launcher.old) (L.stale launcher.new)) }
    ensures events { events.new.items ≡ events.old.items }
    ensures slots { slots.new.items ≡ slots.old.items }
    ensures grown { vec_capacity events.old ≤ vec_capacity events.new }
    ensures room { OnOk result (
        length events.new.items + length slots.new.items + 2 ≤ vec_capacity events.new) }
    ensures slot { OnOk result (length slots.new.items < deque_capacity slots.new) }
{
    if !make_room(events, slots) {
        let cause = Cause::of_words(alloc, b"start", b"out of memory");
        table.refuse(number, cause);
        return Err(Refused);
    }
    match start_child(launcher, alloc, job) {
        Ok(child) => {
            table.put(slot, number, child);
            Ok(())
        }
        Err(cause) => {
            table.refuse(number, cause);
            Err(Refused)
        }
    }
}

/// Reserves room for the event of a start, and for the ends of its child and of those in flight.
/// Returns whether there is room.
fn make_room(events: &mut Vec<CrewEvent>, slots: &mut VecDeque<usize>) -> bool
    ensures events { events.new.items ≡ events.old.items }
    ensures slots { slots.new.items ≡ slots.old.items }
    ensures grown { vec_capacity events.old ≤ vec_capacity events.new }
    ensures room { OnTrue result (
        length events.new.items + length slots.new.items + 2 ≤ vec_capacity events.new) }
    ensures slot { OnTrue result (length slots.new.items < deque_capacity slots.new) }
{
    let room = slots.len() + 2;
    if events.reserve(room).is_err() {
        return false;
    }
    slots.reserve(1).is_ok()
}

fn put_slot(slots: &mut VecDeque<usize>, slot: usize)
    requires { length slots.old.items < deque_capacity slots.old }
    ensures { slots.new.items ≡ slots.old.items ++ slot ∷ [] }
{
    let pushed = slots.push_back(slot);
    pushed.unwrap();
}

fn take_slot(slots: &mut VecDeque<usize>, place: usize) -> usize
    requires place { place < length slots.old.items }
    requires within { All (λ s. s < 16) slots.old.items }
    ensures inside { place < length slots.old.items }
    ensures slot { result ≡ get_or slots.old.items place result }
    ensures others { slots.new.items ≡ remove slots.old.items place }
    ensures low { result < 16 }
    ensures within { All (λ s. s < 16) slots.new.items }
{
    slots.remove(place).unwrap()
}
