//! The records of an earlier run, and what is taken of them.

ghost use Rattle.std.specs.Prelude.{◌≡◌, ◌+◌, ◌^◌, ◌<◌, Some, None, IfOk, IfNone, IfSome, OnOk, ◌⊎◌, is_some, bytes_eq, drop, length};
ghost use Rattle.std.specs.BTreeMap as tree;
ghost use Rattle.std.specs.Ordering.{nat_cmp};
ghost use Rattle.answers_text.specs.Texts as texts;
ghost use Rattle.crew_kept.specs.Index.{IsIndex, IsIndexFrom};
ghost use Rattle.crew_kept.specs.Links as links;
ghost use Rattle.crew_kept.specs.Offers.{IsOffer};
ghost use Rattle.crew_kept.specs.Records.{MayPass, answer_of, first_of, is_followed as followed};
ghost use Rattle.crew_trait.specs.declared.reply.Reply.TheVariants.{Answer};
ghost use Rattle.crew_kept.specs.declared.state.State.TheVariants.{Open, Lacked};

use crate::links::is_link;
use crate::state::State;
use crate::taken::Taken;
use answers_text::{Record, job_text};
use crew_jobs::Job;
use std::alloc::{AllocError, Global};
use std::collections::BTreeMap;
use std::marker::Model;

/// What the records have for a start.
#[derive(Drop)]
pub(crate) enum Offer {
    /// Nothing that is taken.
    Nothing,
    /// Another job.
    Differs,
    /// A reply.
    Answer(Taken),
}

/// The records of an earlier run.
pub(crate) struct Supply {
    records: Vec<Record>,
    // Where the first record of each number is.
    places: BTreeMap<u64, usize>,
    state: State,
}

impl Drop for Supply {
    fn drop(self) {
        let Supply {
            records: _records,
            places: _places,
            state: _state,
        } = self;
    }
}

impl Model for Supply {
    ghost use Rattle.crew_kept.specs.Index.{IsSupplied};
    ghost use Rattle.crew_kept.specs.Taking.{Supplied};

    ghost Value = { Supplied };

    ghost view = { λ s. record { records = s.records.items; state = s.state } };

    ghost invariant = { λ s. IsSupplied s.records.items s.places s.state };
}

/// Adds the place of a record, which comes before those that are there.
#[tactic(auto, using(crate::proofs::Indexed::one_more))]
fn put_place(
    places: &mut BTreeMap<u64, usize>,
    records: &[Record],
    place: usize,
) -> Result<(), AllocError>
    requires { place < length records.now }
    ensures { OnOk result (IsIndexFrom (place + 1) (drop (place + 1) records.now) places.old
        → IsIndexFrom place (drop place records.now) places.new) }
{
    let answer = &records[place];
    places.insert(answer.number, place)?;
    Ok(())
}

/// Returns where the first record of each number is.
fn index_of(alloc: Global, records: &[Record]) -> Result<BTreeMap<u64, usize>, AllocError>
    ensures { IfOk result (λ places. IsIndex records.now places) }
{
    let mut places = BTreeMap::new(alloc);
    let mut left = records.len();
    'records: while left > 0 {
        left -= 1;
        put_place(&mut places, records, left)?;
    }
    Ok(places)
}

/// Returns where the first record of a number is.
fn place_in(places: &BTreeMap<u64, usize>, number: u64) -> Option<usize>
    ensures { result ≡ tree.get nat_cmp places.now number }
{
    places.get(&number).copied()
}

/// Returns the first record of a number.
#[tactic(auto, using(crate::proofs::Indexed::low_at, crate::proofs::Indexed::found_at, crate::proofs::Indexed::none_at))]
fn record_of<'a>(
    records: &'a [Record],
    places: &BTreeMap<u64, usize>,
    number: u64,
) -> Option<&'a Record>
    requires { IsIndex records.now places.now }
    ensures found { IfSome result (λ r. first_of number records.now ≡ Some r.now) }
    ensures none { IfNone result (first_of number records.now ≡ None) }
{
    match place_in(places, number) {
        Some(place) => Some(&records[place]),
        None => None,
    }
}

/// Returns whether the start of this number is recorded.
fn is_recorded(records: &[Record], places: &BTreeMap<u64, usize>, number: u64) -> bool
    requires { IsIndex records.now places.now }
    ensures { result ≡ is_some (first_of number records.now) }
{
    match record_of(records, places, number) {
        Some(_) => true,
        None => false,
    }
}

/// Returns whether a record is of an equal job.
fn is_equal(alloc: Global, job: &Job, answer: &Record) -> Result<bool, AllocError>
    ensures { IfOk result (λ same. same ≡ bytes_eq (texts.job_text job.now) answer.now.job) }
{
    let text = job_text(alloc, job)?;
    Ok(text.as_slice() == answer.job.as_slice())
}

/// Returns whether the reply to a job is taken if the records have one: if the job links a program,
/// the start after it is recorded too.
fn is_followed(records: &[Record], places: &BTreeMap<u64, usize>, number: u64, job: &Job) -> bool
    requires small { number < 2 ^ 63 }
    requires index { IsIndex records.now places.now }
    ensures { result ≡ followed records.now number job.now }
{
    if is_link(job) {
        return is_recorded(records, places, number + 1);
    }
    true
}

/// Returns the reply of a record.
fn reply_of(alloc: Global, answer: &Record) -> Result<Taken, AllocError>
    ensures { IfOk result (λ taken. taken ≡ Answer answer.now.status answer.now.text) }
{
    let text = answer.text.copy(alloc)?;
    let copy = answer.text.copy(alloc)?;
    Ok(Taken::new(answer.status, text, copy))
}

/// Returns what the records have for the job at the start of this number.
fn offered(
    alloc: Global,
    records: &[Record],
    places: &BTreeMap<u64, usize>,
    number: u64,
    job: &Job,
) -> Result<Offer, AllocError>
    requires small { number < 2 ^ 63 }
    requires index { IsIndex records.now places.now }
    ensures { IfOk result (λ offer. IsOffer records.now number job.now offer) }
{
    let Some(answer) = record_of(records, places, number) else {
        return Ok(Offer::Nothing);
    };
    let same = is_equal(alloc, job, answer)?;
    if !same {
        return Ok(Offer::Differs);
    }
    let taken = is_followed(records, places, number, job);
    if !taken {
        return Ok(Offer::Nothing);
    }
    let reply = reply_of(alloc, answer)?;
    Ok(Offer::Answer(reply))
}

impl Supply {
    /// Returns the supply of these records. If memory runs out, nothing is taken of them.
    pub(crate) fn new(alloc: Global, records: Vec<Record>) -> Supply
        ensures records { result.records ≡ records.items }
        ensures state { (result.state ≡ Open) ⊎ (result.state ≡ Lacked) }
    {
        match index_of(alloc, records.as_slice()) {
            Ok(places) => Supply {
                records,
                places,
                state: State::Open,
            },
            Err(_) => Supply {
                records,
                places: BTreeMap::new(alloc),
                state: State::Lacked,
            },
        }
    }

    /// Ends the taking of replies, since memory ran out.
    pub(crate) fn lack(&mut self)
        ensures { self.new ≡ record self.old { state = Lacked } }
    {
        self.state = State::Lacked;
    }

    /// Returns the reply that is taken for the job at the start of this number, if one is. If memory
    /// runs out, none is.
    pub(crate) fn taken(&mut self, alloc: Global, number: u64, job: &Job) -> Option<Taken>
        requires { number < 2 ^ 63 }
        ensures taken { IfSome result (λ taken.
            answer_of self.old.state self.old.records number job.now ≡ Some taken) }
        ensures same { IfSome result (λ taken. self.new ≡ self.old) }
        ensures none { IfNone result (
            MayPass self.old.records number job.now self.old.state self.new.state) }
        ensures kept { self.new.records ≡ self.old.records }
    {
        match self.state {
            State::Open => {}
            _ => return None,
        }
        match offered(alloc, self.records.as_slice(), &self.places, number, job) {
            Ok(Offer::Answer(taken)) => Some(taken),
            Ok(Offer::Differs) => {
                self.state = State::Differed;
                None
            }
            Ok(Offer::Nothing) => None,
            Err(_) => {
                self.state = State::Lacked;
                None
            }
        }
    }
}
