//! Whole runs in which a start or an end is refused, each in turn.

ghost use Rattle.std.specs.Prelude.{◌≡◌, []};

use crate::given::{Given, add, order_in, replies_in};
use crate::left::{View, put_artifacts, put_events};
use crate::whole::{How, Inputs, how_at, how_of, inputs_of, put_made, put_over};
use crew::{Crew, Event, FuseKind, Fused, MemoryCrew};
use engine::{Artifact, Kind, MemoryOutputs, Outputs};
use test_rows::{Page, cut, number_of};

/// Returns replies, of which the one with this number, counted from 1, is another word. Without a
/// word it is left out.
fn with_reply(page: &Page, replies: &[u8], number: usize, word: &[u8]) -> Page {
    let mut made = Page::new(page.alloc());
    let mut count: usize = 0;
    for reply in replies.split(|byte| *byte == b'\n') {
        count = count.saturating_add(1);
        made.put(if count == number { word } else { reply });
        made.put(b"\n");
    }
    made
}

fn count_of(replies: &[u8]) -> usize {
    let mut count: usize = 0;
    for _ in replies.split(|byte| *byte == b'\n') {
        count = count.saturating_add(1);
    }
    count
}

// ---- the calls of the crew inside

/// Returns the number of the last start in a slot, or 0 if there is none.
fn last_start(events: &[Event], slot: usize) -> usize {
    let mut count: usize = 0;
    let mut number = 0;
    for event in events {
        if let Event::Started(other) = *event {
            count = count.saturating_add(1);
            if other == slot {
                number = count;
            }
        }
    }
    number
}

/// Returns the number of the start whose child is the `k`-th to end, or 0 if there is none.
fn child_of_end(events: &[Event], k: usize) -> usize {
    let mut count: usize = 0;
    for at in 0..events.len() {
        if let Event::Ended(slot) = events[at] {
            count = count.saturating_add(1);
            if count == k {
                return last_start(&events[..at], slot);
            }
        }
    }
    0
}

/// Returns whether as many children ended as were started.
fn all_ended(events: &[Event]) -> bool {
    let mut flying: usize = 0;
    for event in events {
        match event {
            Event::Started(_) => flying = flying.saturating_add(1),
            Event::Refused(_) => {}
            Event::Ended(_) => flying = flying.wrapping_sub(1),
        }
    }
    flying == 0
}

// ---- one refused call

/// The `k`-th call of a kind, which is refused.
#[derive(Clone, Copy)]
struct Cut {
    kind: FuseKind,
    k: usize,
}

/// Puts what a run leaves over a crew that refuses a call, around one that has done nothing.
/// Returns that crew.
fn put_over_fused<C: Crew + Drop, O: Outputs>(
    page: &mut Page,
    source: &[u8],
    inputs: &Inputs,
    cache: Option<&[u8]>,
    how: &How,
    inner: C,
    refused: Cut,
    outputs: &mut O,
) -> Fused<C>
    requires crew { C.account inner ≡ record { events = []; attempts = 0; failures = 0 } }
    requires puts { (O.receipt outputs.old).failures ≡ 0 }
{
    let mut crew = Fused::new(inner, refused.kind, refused.k as u64);
    put_over(page, source, inputs, cache, how, &mut crew, outputs);
    crew
}

/// Returns the number of the child that a refused call is about, or 0 if there was no such call.
/// `bound` is more than the number of starts.
fn child_of(events: &[Event], refused: Cut, bound: usize) -> usize {
    match refused.kind {
        FuseKind::Start => { if refused.k < bound { refused.k } else { 0 } }
        FuseKind::End => child_of_end(events, refused.k),
    }
}

fn has_output(artifacts: &[Artifact]) -> bool {
    for artifact in artifacts {
        if artifact.kind != Kind::Cache {
            return true;
        }
    }
    false
}

/// Puts what is wrong with a cut run: that a child is left, or that a file, a header or a record
/// was handed over.
fn put_faults(page: &mut Page, events: &[Event], artifacts: &[Artifact], child: usize) {
    if !all_ended(events) {
        page.put(b"a child is left\n");
    }
    if child != 0 && has_output(artifacts) {
        page.put(b"an output is handed over\n");
    }
}

/// Puts what a run leaves and hands over if a call is refused, and what is wrong with that. Returns
/// the number of the child that the call is about, as [`child_of`] has it.
fn put_cut(
    page: &mut Page,
    given: &Given,
    inputs: &Inputs,
    how: &How,
    refused: Cut,
    bound: usize,
) -> usize {
    let mut outputs = MemoryOutputs::new(page.alloc(), how.refuse);
    let replies = replies_in(page, how.replies);
    let order = order_in(page, how.order);
    match MemoryCrew::new(page.alloc(), replies, order) {
        Ok(inner) => {
            let source = given.source();
            let cache = inputs.cache();
            let crew = put_over_fused(
                page,
                source,
                inputs,
                cache,
                how,
                inner,
                refused,
                &mut outputs,
            );
            let events = crew.inner().events();
            if how.view == View::Told {
                put_events(page, events);
            }
            put_artifacts(page, outputs.handed(), how.view);
            let child = child_of(events, refused, bound);
            put_faults(page, events, outputs.handed(), child);
            child
        }
        Err(_) => {
            page.cut();
            0
        }
    }
}

// ---- each call refused in turn

/// Windows, each with an order of ends.
const WAYS: &[u8] = b"1 oldest,2 oldest,2 youngest,16 oldest,16 youngest";

/// Returns the replies of the crew inside: a start that is refused takes none.
fn replies_inside(page: &Page, replies: &[u8], refused: Cut) -> Page {
    let left_out = match refused.kind {
        FuseKind::Start => refused.k,
        FuseKind::End => 0,
    };
    with_reply(page, replies, left_out, b"")
}

/// Returns what a run leaves and hands over with one child at a time, if the start or the end of
/// this child is refused. If it isn't cut at this child, that is put, too.
fn wanted_of(
    page: &mut Page,
    given: &Given,
    inputs: &Inputs,
    kind: FuseKind,
    child: usize,
) -> Page {
    let word = match kind {
        FuseKind::Start => b"S".as_slice(),
        FuseKind::End => b"E".as_slice(),
    };
    let replies = with_reply(page, given.case.words(b"replies"), child, word);
    let mut wanted = Page::new(page.alloc());
    let how = how_at(&given.case, b"1 oldest", replies.text());
    put_made(&mut wanted, given, inputs, &how);
    let mut beginning = Page::new(page.alloc());
    beginning.put(b"cut ");
    beginning.put_number(child);
    beginning.put(b"\n");
    if child != 0 && !wanted.text().starts_with(beginning.text()) {
        wanted.put(b"no cut\n");
    }
    wanted
}

fn put_refused(page: &mut Page, refused: Cut) {
    page.put(match refused.kind {
        FuseKind::Start => b", but not with start ".as_slice(),
        FuseKind::End => b", but not with end ".as_slice(),
    });
    page.put_number(refused.k);
}

/// Returns what a run leaves and hands over with one child at a time, first if none is refused, and
/// then with each child refused.
fn wanted_of_each(
    page: &mut Page,
    given: &Given,
    inputs: &Inputs,
    kind: FuseKind,
    count: usize,
) -> Vec<Page> {
    let mut all = Vec::new(page.alloc());
    for child in 0..count.saturating_add(1) {
        let wanted = wanted_of(page, given, inputs, kind, child);
        add(page, &mut all, wanted);
    }
    all
}

/// Returns whether this is the text of a page of the list.
fn is_at(pages: &[Page], at: usize, text: &[u8]) -> bool {
    match pages.get(at) {
        Some(page) => !page.is_cut() && page.text() == text,
        None => false,
    }
}

/// Puts the call and the way if, with that call refused, something else is left or handed over than
/// wanted.
fn put_if_other(
    page: &mut Page,
    given: &Given,
    inputs: &Inputs,
    way: &[u8],
    refused: Cut,
    wanted: &[Page],
) {
    let replies = replies_inside(page, given.case.words(b"replies"), refused);
    let mut whole = Page::new(page.alloc());
    let how = how_at(&given.case, way, replies.text());
    let child = put_cut(&mut whole, given, inputs, &how, refused, wanted.len());
    if whole.is_cut() || !is_at(wanted, child, whole.text()) {
        put_refused(page, refused);
        page.put(b" at ");
        page.put(way);
    }
}

/// Puts which calls of a kind leave something else than wanted, if each is refused in turn.
fn put_each_at(
    page: &mut Page,
    given: &Given,
    inputs: &Inputs,
    way: &[u8],
    kind: FuseKind,
    wanted: &[Page],
) {
    for k in 1..wanted.len() {
        put_if_other(page, given, inputs, way, Cut { kind, k }, wanted);
    }
}

/// Puts the same for each way. No call has the number 0, and there is none after the last.
fn put_each_of(page: &mut Page, given: &Given, inputs: &Inputs, kind: FuseKind, count: usize) {
    let pages = wanted_of_each(page, given, inputs, kind, count);
    let wanted = pages.as_slice();
    for way in WAYS.split(|byte| *byte == b',') {
        put_each_at(page, given, inputs, way, kind, wanted);
    }
    put_if_other(
        page,
        given,
        inputs,
        b"16 oldest",
        Cut { kind, k: 0 },
        wanted,
    );
    let k = wanted.len();
    put_if_other(page, given, inputs, b"16 oldest", Cut { kind, k }, wanted);
}

/// Puts `as one by one` if each start and each end of a run, refused in turn, leaves the same as
/// with one child at a time, and else each that leaves something else.
pub fn put_each(page: &mut Page, given: &Given) {
    let inputs = inputs_of(page, &given.case);
    let count = count_of(given.case.words(b"replies"));
    page.put(b"as one by one");
    put_each_of(page, given, &inputs, FuseKind::Start, count);
    put_each_of(page, given, &inputs, FuseKind::End, count);
}

/// Returns the call of these words: `start` or `end`, and its number.
fn cut_of(words: &[u8]) -> Cut {
    let (kind, k) = cut(words, b" ");
    let kind = match kind {
        b"start" => FuseKind::Start,
        _ => FuseKind::End,
    };
    let k = number_of(k);
    Cut { kind, k }
}

/// Puts the run of a case with the call of these words refused, and the calls of the crew inside.
pub fn put_one(page: &mut Page, given: &Given, words: &[u8]) {
    let inputs = inputs_of(page, &given.case);
    let bound = count_of(given.case.words(b"replies")).saturating_add(1);
    let how = how_of(&given.case, View::Told);
    put_cut(page, given, &inputs, &how, cut_of(words), bound);
}
