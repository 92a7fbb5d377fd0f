//! Records: what is made again of them, and how they are read and written.

ghost use Rattle.std.specs.Prelude.{◌≡◌};

use crate::answers::{Right, Told, Verdict, found_of, told_of};
use crate::given::{Pair, joined, pairs_of, texts_of};
use deftable::Bytes;
use engine::{MemoryOutputs, Outputs, remake};
use status_record::{RecordFault, read_record, write_record};
use std::alloc::Global;

/// A record whose outputs are made again, and what is right for it.
#[derive(Clone, Copy)]
pub struct Remake<'a> {
    /// The parts of its text.
    pub text: &'a [&'a [u8]],
    pub templates: &'a [Pair<'a>],
    /// The tag, or nothing if there is none.
    pub tag: &'a [u8],
    pub right: Right<'a>,
}

/// Returns what `remake` answers over a receiver that has done nothing.
fn told_over<O: Outputs>(
    alloc: Global,
    call: &Remake,
    text: &[u8],
    templates: &[(Bytes, Bytes)],
    tags: &[Bytes],
    outputs: &mut O,
) -> Told
    requires puts { (O.receipt outputs.old).failures ≡ 0 }
{
    let answer = remake(alloc, text, templates, tags, outputs);
    told_of(answer, call.right.answer)
}

fn found_given(
    alloc: Global,
    call: &Remake,
    text: &[u8],
    templates: &[(Bytes, Bytes)],
    tags: &[Bytes],
) -> Verdict {
    let mut outputs = MemoryOutputs::new(alloc, call.right.refused);
    let told = told_over(alloc, call, text, templates, tags, &mut outputs);
    found_of(told, outputs.handed(), &call.right)
}

/// Returns what is found of outputs that are made again.
pub fn found_of_remake(alloc: Global, call: &Remake) -> Verdict {
    let text = joined(alloc, call.text);
    let templates = pairs_of(alloc, call.templates);
    let tags = texts_of(alloc, call.tag);
    match (&text, &templates, &tags) {
        (Ok(text), Ok(templates), Ok(tags)) => found_given(
            alloc,
            call,
            text.as_slice(),
            templates.as_slice(),
            tags.as_slice(),
        ),
        _ => Verdict::NotCalled,
    }
}

/// Returns what is found of a record that is read and written again. Its variable A has this value.
pub fn found_of_record(alloc: Global, text: &[u8], value: &[u8]) -> Verdict {
    let record = match read_record(alloc, text) {
        Ok(record) => record,
        Err(RecordFault::OutOfMemory) => return Verdict::OutOfMemory,
        Err(_) => return Verdict::Wrong,
    };
    let is_right = record
        .vars
        .get(b"A")
        .is_some_and(|found| found.as_slice() == value);
    match write_record(alloc, &record) {
        Ok(written) if is_right && written.as_slice() == text => Verdict::Whole,
        Ok(_) => Verdict::Wrong,
        Err(_) => Verdict::OutOfMemory,
    }
}
