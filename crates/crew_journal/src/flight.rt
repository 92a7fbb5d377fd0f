//! The children that are in flight.

ghost use Rattle.std.specs.Prelude.{◌≡◌, ◌<◌, Some, None, IfOk, length, option_to_list, replicate, slice_index_or, slice_set};
ghost use Rattle.crew_journal.specs.Book.{no_flights, record_at};

use answers_text::Record;
use crew_trait::Reply;
use deftable::Bytes;
use std::alloc::{AllocError, Global};

/// A child in flight.
#[derive(Drop)]
pub(crate) struct Flight {
    /// The number of its start.
    pub(crate) number: u64,
    /// Its job, as a record has it.
    pub(crate) job: Bytes,
}

/// The children in flight, by their slots.
pub(crate) type Flights = Vec<Option<Flight>>;

/// Returns sixteen free slots.
#[tactic(auto, using(std::proofs::lemmas::List::replicate_more))]
pub(crate) fn no_flights(alloc: Global) -> Result<Flights, AllocError>
    ensures { IfOk result (λ flights. flights.items ≡ no_flights) }
{
    let mut flights = Vec::new(alloc);
    for _ in 0..16usize {
        flights.push(None)?;
    }
    Ok(flights)
}

/// Puts a child into a slot.
pub(crate) fn put_flight(flights: &mut Flights, slot: usize, number: u64, job: Bytes)
    requires { slot < length flights.old.items }
    ensures { flights.new.items
        ≡ slice_set flights.old.items slot (Some (record { number = number; job = job })) }
{
    flights[slot] = Some(Flight { number, job });
}

/// Takes the child out of a slot.
pub(crate) fn take_flight(flights: &mut Flights, slot: usize) -> Option<Flight>
    requires { slot < length flights.old.items }
    ensures value { result ≡ slice_index_or flights.old.items slot None }
    ensures free { flights.new.items ≡ slice_set flights.old.items slot None }
{
    flights[slot].take()
}

/// Returns the record of the reply to a child, or `None` if there is none.
pub(crate) fn record_of(
    alloc: Global,
    flight: Option<Flight>,
    reply: &Reply,
) -> Result<Option<Record>, AllocError>
    ensures { IfOk result (λ made. option_to_list made ≡ record_at flight reply.now) }
{
    let Some(Flight { number, job }) = flight else {
        return Ok(None);
    };
    match reply {
        Reply::Answer { status, text } => {
            let text = text.copy(alloc)?;
            Ok(Some(Record {
                number,
                job,
                status: *status,
                text,
            }))
        }
        _ => Ok(None),
    }
}
