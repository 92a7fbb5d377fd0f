//! A crew whose replies are appended to a file.

ghost use Rattle.std.specs.Prelude.{◌≡◌, ◌≢◌, ◌+◌, ◌^◌, ◌<◌, ℕ, List, [], ◌∷◌, ◌++◌, false, true, OnOk, OnErr, IfOk, IfSome};
ghost use Rattle.crew_jobs.specs.declared.job.Job.{Job as JobValue};
ghost use Rattle.crew_trait.specs.Events.{busy, IsSomeBusy, failure_of};
ghost use Rattle.crew_trait.specs.declared.event.CrewEvent.{CrewEvent};
ghost use Rattle.crew_trait.specs.declared.event.CrewEvent.TheVariants.{Started, Ended};
ghost use Rattle.answers_text.specs.Texts.{job_text};
ghost use Rattle.crew_kept.specs.Taking.{account_with, asked_with};
ghost use Rattle.crew_journal.specs.Book.{records_of};
ghost use Rattle.crew_journal.specs.Journal.{IsJournal};
ghost use Rattle.crew_journal.specs.Texts.{IsPen, IsWritten};

use crate::file::AnswerFile;
use crate::flight::{Flights, no_flights, put_flight, record_of, take_flight};
use crate::pen::Pen;
use answers_text::{Record, job_text as text_of};
use crew_jobs::Job;
use crew_kept::Kept;
use crew_trait::{Crew, Refused, Reply};
use deftable::Bytes;
use std::alloc::Global;
use std::marker::Model;

/// A crew that appends the reply to each child to a file (own). A reply that is taken from the records
/// of an earlier run is not appended.
#[derive(Drop)]
pub struct Journal<C: Crew + Drop, F: AnswerFile + Drop> {
    pub(crate) kept: Kept<C>,
    alloc: Global,
    pen: Pen<F>,
    flights: Flights,
    // The digest before the first record that is appended, and how many bytes the file had then.
    first: [u8; 32],
    before: u64,
}

impl<C: Crew + Drop, F: AnswerFile + Drop> Model for Journal<C, F> {
    ghost use Rattle.crew_kept.specs.Taking.{asked_with};
    ghost use Rattle.crew_journal.specs.Journal.{IsJournal, Journaling};

    ghost Value = { Journaling C F };

    ghost view = { λ j. record { kept = j.kept; file = j.pen.file; first = j.first; before = j.before; is_on = j.pen.is_on } };

    ghost invariant = { λ j. IsJournal j.first j.before (asked_with j.kept.placed (C.account j.kept.crew)) (F.texts j.pen.file) j.pen.digest j.pen.left j.pen.is_on j.flights.items };
}

/// Returns what a record has of a job, if records are still appended and memory suffices.
fn text_if(alloc: Global, is_on: bool, job: &Job) -> Option<Bytes>
    ensures { IfSome result (λ text. text ≡ job_text job.now) }
{
    if !is_on {
        return None;
    }
    match text_of(alloc, job) {
        Ok(text) => Some(text),
        Err(_) => None,
    }
}

/// Notes the start of a child.
#[tactic(auto, using(crate::proofs::Noting::noted_off, crate::proofs::Noting::noted_start))]
fn note_start<F: AnswerFile + Drop>(
    pen: &mut Pen<F>,
    flights: &mut Flights,
    slot: usize,
    number: u64,
    text: Option<Bytes>,
)
    ensures file { pen.new.file ≡ pen.old.file }
    ensures note { (first : List ℕ) (before : ℕ) (events : List CrewEvent) (job : JobValue)
        → IfSome text (λ t. t ≡ job_text job)
        → IsJournal first before events (F.texts pen.old.file) pen.old.digest pen.old.left
        pen.old.is_on flights.old.items
        → IsJournal first before (events ++ Started slot job number ∷ []) (F.texts pen.new.file)
        pen.new.digest pen.new.left pen.new.is_on flights.new.items }
{
    let Some(job) = text else {
        pen.stop();
        return;
    };
    if slot >= flights.len() {
        pen.stop();
        return;
    }
    put_flight(flights, slot, number, job);
}

/// Notes the end of a child, and appends the record of its reply.
#[tactic(auto, using(crate::proofs::Noting::noted_off, crate::proofs::Noting::noted_end))]
fn note_end<F: AnswerFile + Drop>(
    alloc: Global,
    pen: &mut Pen<F>,
    flights: &mut Flights,
    slot: usize,
    reply: &Reply,
)
    ensures { (first : List ℕ) (before number : ℕ) (events : List CrewEvent)
        → IsJournal first before events (F.texts pen.old.file) pen.old.digest pen.old.left
        pen.old.is_on flights.old.items
        → IsJournal first before (events ++ Ended slot reply.now number ∷ [])
        (F.texts pen.new.file) pen.new.digest pen.new.left pen.new.is_on flights.new.items }
{
    if !pen.is_on {
        pen.stop();
        return;
    }
    if slot >= flights.len() {
        pen.stop();
        return;
    }
    let flight = take_flight(flights, slot);
    let made = record_of(alloc, flight, reply);
    pen.put_made(alloc, made);
}

/// Returns free slots, or no slot if memory runs out. Nothing is appended then.
#[tactic(auto, using(crate::proofs::Noting::journal_begun, crate::proofs::Noting::journal_off))]
fn flights_or_stop<F: AnswerFile + Drop>(alloc: Global, pen: &mut Pen<F>) -> Flights
    ensures file { pen.new.file ≡ pen.old.file }
    ensures journal { (first : List ℕ) (before : ℕ)
        → IsPen first before [] (F.texts pen.old.file) pen.old.digest pen.old.left pen.old.is_on
        → IsJournal first before [] (F.texts pen.new.file) pen.new.digest pen.new.left
        pen.new.is_on result.items }
{
    match no_flights(alloc) {
        Ok(flights) => flights,
        Err(_) => {
            pen.stop();
            Vec::new(alloc)
        }
    }
}

impl<C: Crew + Drop, F: AnswerFile + Drop> Journal<C, F> {
    /// Returns a crew around one that has started nothing, which appends to a file that has so many
    /// bytes. `digest` is that of the last record in it, or of its first line.
    pub fn new(alloc: Global, kept: Kept<C>, file: F, digest: [u8; 32], used: u64) -> Journal<C, F>
        requires events { asked_with kept.placed (C.account kept.crew) ≡ [] }
        requires texts { IfSome (F.texts file) (λ texts. texts ≡ []) }
        ensures kept { result.kept ≡ kept }
        ensures file { result.file ≡ file }
        ensures first { result.first ≡ digest }
        ensures before { result.before ≡ used }
        ensures account { account_with result.kept.placed (C.account result.kept.crew)
            ≡ account_with kept.placed (C.account kept.crew) }
    {
        let mut pen = Pen::new(file, digest, used);
        let flights = flights_or_stop(alloc, &mut pen);
        Journal {
            kept,
            alloc,
            pen,
            flights,
            first: digest,
            before: used,
        }
    }

    /// Takes replies from these records, and appends to this file, which has so many bytes, in place
    /// of those that it had. `digest` is that of the last record in it, or of its first line. If a
    /// start was tried before, nothing changes. Returns whether they are taken.
    pub fn restart(&mut self, records: Vec<Record>, file: F, digest: [u8; 32], used: u64) -> bool
        requires texts { IfSome (F.texts file) (λ texts. texts ≡ []) }
        ensures crew { self.new.kept.crew ≡ self.old.kept.crew }
        ensures placed { self.new.kept.placed ≡ self.old.kept.placed }
        ensures records { result ≡ true → self.new.kept.records ≡ records.items }
        ensures file { result ≡ true → self.new.file ≡ file }
        ensures same { result ≡ false → self.new ≡ self.old }
    {
        if !self.kept.supply(records) {
            return false;
        }
        let mut pen = Pen::new(file, digest, used);
        self.flights = flights_or_stop(self.alloc, &mut pen);
        self.pen = pen;
        self.first = digest;
        self.before = used;
        true
    }

    /// Returns the crew inside.
    pub fn kept(&self) -> &Kept<C>
        ensures { result.now ≡ self.now.kept }
    {
        &self.kept
    }

    /// Returns the file.
    pub fn file(&self) -> &F
        ensures inner { result.now ≡ self.now.file }
        // The records of the replies of the crew inside were appended, in order and one text for each,
        // up to the first one that couldn't be.
        ensures written { IfSome (F.texts self.now.file) (λ texts.
            IsWritten self.now.first self.now.before self.now.is_on
            (records_of (asked_with self.now.kept.placed (C.account self.now.kept.crew))) texts) }
    {
        &self.pen.file
    }
}

impl<C: Crew + Drop, F: AnswerFile + Drop> Crew for Journal<C, F> {
    ghost account = { λ j. account_with j.kept.placed (C.account j.kept.crew) };

    fn start(&mut self, slot: usize, job: Job) -> Result<(), Refused> {
        let text = text_if(self.alloc, self.pen.is_on, &job);
        let Ok(found) = self.kept.begin(slot, job) else {
            return Err(Refused);
        };
        if let Some(number) = found {
            note_start(&mut self.pen, &mut self.flights, slot, number, text);
        }
        Ok(())
    }

    fn next(&mut self) -> (usize, Reply) {
        let (slot, reply, is_taken) = self.kept.end();
        if is_taken {
            return (slot, reply);
        }
        note_end(self.alloc, &mut self.pen, &mut self.flights, slot, &reply);
        (slot, reply)
    }
}
