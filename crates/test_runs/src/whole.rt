//! Whole runs: calls of `configure`, as a case has them.

ghost use Rattle.std.specs.Prelude.{◌≡◌, ◌+◌, ◌^◌, ◌≤◌, []};
ghost use Rattle.proberun.specs.Ran.{IsWindow, MayRun};

use crate::given::{
    Given, add, arguments_of, bytes_of, environment_of, order_in, replies_in, text_of,
};
use crate::left::{View, put_artifacts, put_events, put_found, text_handed};
use crew::{Crew, MemoryCrew};
use deftable::Bytes;
use engine::{Fault, Kind, MemoryOutputs, Outputs, Report, configure};
use test_rows::{Case, Page, cut, next_section, number_of};

/// What a case gives a whole run besides its source.
#[derive(Drop)]
pub struct Inputs {
    args: Vec<Bytes>,
    env: Vec<(Bytes, Bytes)>,
    templates: Vec<(Bytes, Bytes)>,
    cache: Option<Bytes>,
}

impl Inputs {
    /// Returns the text of the cache, if the case gives one.
    pub fn cache(&self) -> Option<&[u8]> {
        match &self.cache {
            Some(text) => Some(text.as_slice()),
            None => None,
        }
    }
}

/// Returns the text of the cache that a case gives.
fn cache_of(page: &mut Page, case: &Case<'_>) -> Option<Bytes> {
    let section = case.section(b"cache")?;
    let text = text_of(page, Some(section));
    Some(bytes_of(page, text.text()))
}

/// Returns the templates of a case, each a section `template NAME`.
pub fn templates_of(page: &mut Page, case: &Case<'_>) -> Vec<(Bytes, Bytes)> {
    let mut templates = Vec::new(page.alloc());
    let mut rest = case.sections;
    for _ in 0..case.sections.len() {
        let Some((section, later)) = next_section(rest) else {
            break;
        };
        if let Some(name) = section.name.strip_prefix(b"template ") {
            let text = text_of(page, Some(section));
            let name = bytes_of(page, name);
            let text = bytes_of(page, text.text());
            add(page, &mut templates, (name, text));
        }
        rest = later;
    }
    templates
}

/// Returns what a case gives a whole run.
pub fn inputs_of(page: &mut Page, case: &Case<'_>) -> Inputs {
    let args = arguments_of(page, case);
    let env = environment_of(page, case);
    let templates = templates_of(page, case);
    let cache = cache_of(page, case);
    Inputs {
        args,
        env,
        templates,
        cache,
    }
}

/// How a run is made, and what is put of it.
#[derive(Clone, Copy)]
pub struct How<'a> {
    /// The replies of the children, in turn.
    pub replies: &'a [u8],
    /// How many children may run at once.
    pub window: usize,
    /// How children end.
    pub order: &'a [u8],
    /// The number of the put that is refused, or 0.
    pub refuse: u64,
    /// What is put.
    pub view: View,
    /// The names of variables.
    pub shown: &'a [u8],
}

/// Returns the number of the put that a case refuses.
fn refused_in(case: &Case<'_>) -> u64 {
    number_of(case.words(b"refused put")) as u64
}

/// Returns how the run of a case is made.
pub fn how_of<'a>(case: &Case<'a>, view: View) -> How<'a> {
    How {
        replies: case.words(b"replies"),
        window: number_of(case.words(b"window")),
        order: case.words(b"order"),
        refuse: refused_in(case),
        view,
        shown: case.words(b"shown"),
    }
}

/// Runs a source. It promises nothing of the answer, so that its caller sees no contract of the
/// engine.
fn answer_of<C: Crew, O: Outputs>(
    page: &Page,
    source: &[u8],
    inputs: &Inputs,
    cache: Option<&[u8]>,
    window: usize,
    crew: &mut C,
    outputs: &mut O,
) -> Result<Report, Fault>
    requires window { IsWindow window }
    requires may_run { MayRun (C.account crew.old) }
    requires puts { (O.receipt outputs.old).failures + 256 ≤ 2 ^ 62 }
{
    configure(
        page.alloc(),
        source,
        inputs.args.as_slice(),
        inputs.env.as_slice(),
        cache,
        inputs.templates.as_slice(),
        crew,
        outputs,
        window,
    )
}

/// Puts what a run leaves over a crew and a receiver that have done nothing.
pub fn put_over<C: Crew, O: Outputs>(
    page: &mut Page,
    source: &[u8],
    inputs: &Inputs,
    cache: Option<&[u8]>,
    how: &How,
    crew: &mut C,
    outputs: &mut O,
)
    requires crew { C.account crew.old ≡ record { events = []; attempts = 0; failures = 0 } }
    requires puts { (O.receipt outputs.old).failures ≡ 0 }
{
    let window = how.window.max(1).min(16);
    let answer = answer_of(page, source, inputs, cache, window, crew, outputs);
    put_found(page, answer, how.view, how.shown);
}

/// Puts what a run leaves over a crew in memory, and the calls of the crew if they are to be seen.
fn put_with_crew<O: Outputs>(
    page: &mut Page,
    source: &[u8],
    inputs: &Inputs,
    cache: Option<&[u8]>,
    how: &How,
    outputs: &mut O,
)
    requires puts { (O.receipt outputs.old).failures ≡ 0 }
{
    let replies = replies_in(page, how.replies);
    let order = order_in(page, how.order);
    match &mut MemoryCrew::new(page.alloc(), replies, order) {
        Ok(crew) => {
            put_over(page, source, inputs, cache, how, crew, outputs);
            if how.view == View::Told {
                put_events(page, crew.events());
            }
        }
        Err(_) => page.cut(),
    }
}

/// Puts what a run leaves and hands over. Returns the receiver.
fn put_run(
    page: &mut Page,
    source: &[u8],
    inputs: &Inputs,
    cache: Option<&[u8]>,
    how: &How,
) -> MemoryOutputs {
    let mut outputs = MemoryOutputs::new(page.alloc(), how.refuse);
    put_with_crew(page, source, inputs, cache, how, &mut outputs);
    put_artifacts(page, outputs.handed(), how.view);
    outputs
}

/// Puts what the run of a case leaves and hands over, made so. Returns the receiver.
pub fn put_made(page: &mut Page, given: &Given, inputs: &Inputs, how: &How) -> MemoryOutputs {
    put_run(page, given.source(), inputs, inputs.cache(), how)
}

/// Puts the run of a case. Returns the receiver.
pub fn put_viewed(page: &mut Page, given: &Given, view: View) -> MemoryOutputs {
    let inputs = inputs_of(page, &given.case);
    put_made(page, given, &inputs, &how_of(&given.case, view))
}

/// Puts the second run of a case, with the cache that the first handed over.
pub fn put_second(page: &mut Page, given: &Given) {
    let inputs = inputs_of(page, &given.case);
    let mut how = how_of(&given.case, View::Told);
    let mut first = Page::new(page.alloc());
    let outputs = put_made(&mut first, given, &inputs, &how);
    how.replies = given.case.words(b"replies again");
    how.refuse = 0;
    let cache = text_handed(outputs.handed(), Kind::Cache);
    put_run(page, given.source(), &inputs, cache, &how);
}

// ---- windows

/// Windows, each with an order of ends.
const WAYS: &[u8] =
    b"1 oldest,2 oldest,2 youngest,2 1 0 1,3 oldest,3 youngest,3 1 2 0,3 2 0 1,16 oldest,16 youngest,16 1 0 2";

/// Returns how the run of a case is made with these replies at a window, with ends in an order, if
/// all of it is put.
pub fn how_at<'a>(case: &Case<'_>, way: &'a [u8], replies: &'a [u8]) -> How<'a> {
    let (window, order) = cut(way, b" ");
    How {
        replies,
        window: number_of(window),
        order,
        refuse: refused_in(case),
        view: View::Whole,
        shown: b"",
    }
}

/// Returns all that the run of a case leaves and hands over at a window, with ends in an order.
fn at_way(page: &mut Page, given: &Given, inputs: &Inputs, way: &[u8]) -> Page {
    let mut whole = Page::new(page.alloc());
    let how = how_at(&given.case, way, given.case.words(b"replies"));
    put_made(&mut whole, given, inputs, &how);
    whole
}

/// Puts `as one by one` if the run of a case leaves and hands over the same at each of [`WAYS`],
/// and else each way with something else.
pub fn put_ways(page: &mut Page, given: &Given) {
    let inputs = inputs_of(page, &given.case);
    let first = at_way(page, given, &inputs, b"1 oldest");
    page.put(b"as one by one");
    for way in WAYS.split(|byte| *byte == b',') {
        let whole = at_way(page, given, &inputs, way);
        if whole.is_cut() || whole.text() != first.text() {
            page.put(b", but not at ");
            page.put(way);
        }
    }
}
