//! Calls of `remake` and `recheck_args`, as a case has them.

ghost use Rattle.std.specs.Prelude.{◌≡◌};

use crate::given::{Given, text_of, texts_in};
use crate::left::{View, put_found, put_whole_artifacts, text_handed};
use crate::whole::{put_viewed, templates_of};
use deftable::Bytes;
use engine::{Kind, MemoryOutputs, Outputs, recheck_args, remake};
use test_rows::{Page, number_of};

/// Returns the text of the record that a case gives, or else of the one that its run hands over:
/// nothing if it hands over none.
fn record_of(page: &mut Page, given: &Given) -> Page {
    if let Some(section) = given.case.section(b"record") {
        return text_of(page, Some(section));
    }
    let mut first = Page::new(page.alloc());
    let outputs = put_viewed(&mut first, given, View::Log);
    let mut record = Page::new(page.alloc());
    record.put(text_handed(outputs.handed(), Kind::Record).unwrap_or(b""));
    record
}

/// Puts the number of outputs that are made again for a receiver that has done nothing, or the
/// fault.
fn put_made_for<O: Outputs>(
    page: &mut Page,
    text: &[u8],
    templates: &[(Bytes, Bytes)],
    tags: &[Bytes],
    outputs: &mut O,
)
    requires puts { (O.receipt outputs.old).failures ≡ 0 }
{
    let answer = remake(page.alloc(), text, templates, tags, outputs);
    put_found(page, answer, View::Whole, b"");
}

/// Puts what is made again of a record: the number of outputs or the fault, and what is handed
/// over.
pub fn put_remade(page: &mut Page, given: &Given) {
    let record = record_of(page, given);
    let templates = templates_of(page, &given.case);
    let tags = texts_in(page, given.case.section(b"tags"));
    let refuse = number_of(given.case.words(b"refused put again")) as u64;
    let mut outputs = MemoryOutputs::new(page.alloc(), refuse);
    put_made_for(
        page,
        record.text(),
        templates.as_slice(),
        tags.as_slice(),
        &mut outputs,
    );
    put_whole_artifacts(page, outputs.handed());
}

/// Puts the arguments with which the run of a record is done again, or the fault.
pub fn put_rechecked(page: &mut Page, given: &Given) {
    let record = record_of(page, given);
    let answer = recheck_args(page.alloc(), record.text());
    put_found(page, answer, View::Whole, b"");
}
