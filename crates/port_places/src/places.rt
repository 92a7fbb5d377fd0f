//! What is open at each place of a list of statements, as `lint_marks` says it.

ghost use Rattle.std.specs.Prelude.{◌≡◌, ◌<◌, true, Contains, All, IfOk, IfSome, OnOk, IsTrue, length, get_or};
ghost use Rattle.lint_marks.specs.Quotes.{is_text};
ghost use Rattle.port_places.specs.Outside as specs;

use ac_calls::{CallAt, Extent};
use lint_marks::TextScan;
use lint_text::part;
use std::alloc::{AllocError, Global};

/// What a place of a list is to a shell.
#[derive(Clone, Copy, PartialEq, Eq)]
pub enum PlaceKind {
    /// Nothing: it is in a call, or m4 takes the byte away.
    Passed,
    /// A call begins here.
    Call,
    /// m4 drops the line from here on.
    Dropped,
    /// It is in a comment.
    Comment,
    /// It is in a here-document.
    Here,
    /// It is in quotes or a substitution, or after a backslash.
    Inside,
    /// A command may have its words here.
    Outside,
}

/// What is known of a place of a list.
#[derive(Clone, Copy)]
pub struct PlaceMark {
    /// What it is to a shell.
    pub kind: PlaceKind,
    /// Whether a command may have its words there, or a call in their place.
    pub is_outside: bool,
    /// Whether it is in quotes of m4.
    pub is_quoted: bool,
    /// Whether a `$` is before it.
    pub is_dollar: bool,
}

/// Returns the index of the first call that doesn't begin before an offset.
fn first_call(calls: &[CallAt], at: usize) -> usize {
    let mut low = 0;
    let mut high = calls.len();
    for _ in 0..64 {
        if high <= low {
            break;
        }
        let middle = low.saturating_add(high.saturating_sub(low) / 2);
        match calls.get(middle) {
            Some(call) if call.start < at => low = middle.saturating_add(1),
            _ => high = middle,
        }
    }
    low
}

/// Returns an index, if the call that has it begins at an offset.
#[tactic(auto, using(crate::proofs::Reached::begins_call))]
fn index_if(calls: &[CallAt], call: &CallAt, index: usize, at: usize) -> Option<usize>
    requires within { index < length calls.now }
    requires call { call.now ≡ get_or calls.now index call.now }
    ensures { IfSome result (λ i. specs.BeginsCall calls.now i at) }
{
    let _ = calls;
    if call.start == at { Some(index) } else { None }
}

/// Returns the index of the call that begins at an offset, if one does. The calls are in order of
/// their offsets.
pub fn call_at(calls: &[CallAt], at: usize) -> Option<usize>
    // The call of the index begins at the offset.
    ensures begins { IfSome result (λ i. specs.BeginsCall calls.now i at) }
{
    let index = first_call(calls, at);
    if index < calls.len() {
        index_if(calls, &calls[index], index, at)
    } else {
        None
    }
}

/// Returns the offset after a call, if the call begins at another offset.
fn end_from(calls: &[CallAt], call: &CallAt, at: usize) -> Option<usize>
    requires { Contains calls.now call.now }
    ensures { IfSome result (λ end. specs.IsCallAt calls.now at end) }
{
    let _ = calls;
    if call.start == at {
        Some(call.end)
    } else {
        None
    }
}

/// Returns the offset after the call of an index, if the call begins at another offset.
#[tactic(auto, using(crate::proofs::Reached::in_list))]
fn end_of(calls: &[CallAt], index: usize, at: usize) -> Option<usize>
    ensures { IfSome result (λ end. specs.IsCallAt calls.now at end) }
{
    if index < calls.len() {
        end_from(calls, &calls[index], at)
    } else {
        None
    }
}

/// Returns what a place outside calls is, at which a text begins.
fn kind_of(scan: &TextScan, rest: &[u8]) -> PlaceKind {
    let Some(byte) = rest.first().copied() else {
        return PlaceKind::Passed;
    };
    let is_outside = scan.is_outside();
    if scan.quotes.begins_dropped(rest) && is_outside {
        PlaceKind::Dropped
    } else if scan.quotes.is_removed(byte, rest) {
        PlaceKind::Passed
    } else if is_outside {
        PlaceKind::Outside
    } else if scan.is_here() {
        PlaceKind::Here
    } else if scan.is_comment() {
        PlaceKind::Comment
    } else {
        PlaceKind::Inside
    }
}

/// Notes what a place is.
fn push_mark(
    marks: &mut Vec<PlaceMark>,
    scan: &TextScan,
    kind: PlaceKind,
) -> Result<(), AllocError> {
    let mark = PlaceMark {
        kind,
        is_outside: scan.is_outside(),
        is_quoted: scan.quotes.depth > 0,
        is_dollar: scan.shell.is_dollar,
    };
    marks.push(mark)?;
    Ok(())
}

/// Notes a place up to which a list was read, if a statement may begin there.
fn note_outside(
    text: &[u8],
    calls: &[CallAt],
    list: Extent,
    at: usize,
    scan: &TextScan,
    outside: &mut Vec<usize>,
) -> Result<(), AllocError>
    requires list { specs.IsList text.now calls.now list }
    requires within { at < list.end }
    requires read { specs.IsRead text.now calls.now list at scan.now }
    requires outside { All (specs.IsOutside text.now calls.now) outside.old.items }
    ensures { OnOk result (All (specs.IsOutside text.now calls.now) outside.new.items) }
{
    let _ = text;
    let _ = calls;
    let _ = list;
    if scan.is_outside() {
        outside.push(at)?;
    }
    Ok(())
}

/// How far a list was read.
#[derive(Drop)]
struct ListWalk {
    /// The offset up to which it was read.
    at: usize,
    scan: TextScan,
    marks: Vec<PlaceMark>,
    /// The offsets of the places outside quotes, comments and the like.
    outside: Vec<usize>,
}

impl ListWalk {
    /// Returns the offset after the call that is at this place, outside quotes and comments of m4.
    fn call_end(&self, calls: &[CallAt]) -> Option<usize>
        ensures call { IfSome result (λ end. specs.IsCallAt calls.now self.now.at end) }
        ensures open { IfSome result (λ end. (self.now.scan.quotes.depth ≡ 0)
            × (is_text self.now.scan.quotes.part ≡ true)) }
    {
        if self.scan.quotes.depth != 0 || !self.scan.quotes.is_text() {
            return None;
        }
        end_of(calls, first_call(calls, self.at), self.at)
    }

    /// Passes a call up to an offset.
    #[tactic(auto, using(crate::proofs::Reached::call_step))]
    fn pass_call(
        &mut self,
        text: &[u8],
        calls: &[CallAt],
        list: Extent,
        end: usize,
    ) -> Result<(), AllocError>
        requires read { specs.IsRead text.now calls.now list self.old.at self.old.scan }
        requires call { specs.IsCallAt calls.now self.old.at end }
        requires open { (self.old.scan.quotes.depth ≡ 0)
            × (is_text self.old.scan.quotes.part ≡ true) }
        ensures read { OnOk result (specs.IsRead text.now calls.now list self.new.at self.new.scan) }
        ensures outside { OnOk result (self.new.outside ≡ self.old.outside) }
    {
        let _ = text;
        let _ = calls;
        let _ = list;
        push_mark(&mut self.marks, &self.scan, PlaceKind::Call)?;
        self.scan.pass_call(end.saturating_sub(self.at));
        self.at = end;
        Ok(())
    }

    /// Reads a byte that begins no call.
    #[tactic(auto, using(crate::proofs::Reached::byte_step))]
    fn read_byte(
        &mut self,
        alloc: Global,
        text: &[u8],
        calls: &[CallAt],
        list: Extent,
    ) -> Result<(), AllocError>
        requires within { self.old.at < list.end }
        requires read { specs.IsRead text.now calls.now list self.old.at self.old.scan }
        ensures read { OnOk result (specs.IsRead text.now calls.now list self.new.at self.new.scan) }
        ensures outside { OnOk result (self.new.outside ≡ self.old.outside) }
    {
        let _ = calls;
        let rest = part(text, self.at, list.end);
        let kind = kind_of(&self.scan, rest);
        push_mark(&mut self.marks, &self.scan, kind)?;
        self.scan.read(alloc, rest)?;
        self.at += 1;
        Ok(())
    }

    /// Reads what begins at this place: a call, or a byte.
    fn read_next(
        &mut self,
        alloc: Global,
        text: &[u8],
        calls: &[CallAt],
        list: Extent,
    ) -> Result<(), AllocError>
        requires list { specs.IsList text.now calls.now list }
        requires within { self.old.at < list.end }
        requires read { specs.IsRead text.now calls.now list self.old.at self.old.scan }
        requires outside { All (specs.IsOutside text.now calls.now) self.old.outside.items }
        ensures read { OnOk result (specs.IsRead text.now calls.now list self.new.at self.new.scan) }
        ensures outside { OnOk result (All (specs.IsOutside text.now calls.now) self.new.outside.items) }
    {
        note_outside(text, calls, list, self.at, &self.scan, &mut self.outside)?;
        match self.call_end(calls) {
            Some(end) => self.pass_call(text, calls, list, end),
            None => self.read_byte(alloc, text, calls, list),
        }
    }

    /// Reads the place of an offset, unless it is in a call.
    fn read(
        &mut self,
        alloc: Global,
        text: &[u8],
        calls: &[CallAt],
        list: Extent,
        at: usize,
    ) -> Result<(), AllocError>
        requires list { specs.IsList text.now calls.now list }
        requires within { at < list.end }
        requires read { specs.IsRead text.now calls.now list self.old.at self.old.scan }
        requires outside { All (specs.IsOutside text.now calls.now) self.old.outside.items }
        ensures read { OnOk result (specs.IsRead text.now calls.now list self.new.at self.new.scan) }
        ensures outside { OnOk result (All (specs.IsOutside text.now calls.now) self.new.outside.items) }
    {
        if self.at != at {
            push_mark(&mut self.marks, &self.scan, PlaceKind::Passed)?;
            return Ok(());
        }
        self.read_next(alloc, text, calls, list)
    }
}

/// What is known of the places of a list.
#[derive(Drop)]
pub struct ListPlaces {
    /// What each place is, from the start of the list on.
    pub marks: Vec<PlaceMark>,
    /// The offsets of those at which a statement may begin, in order.
    pub outside: Vec<usize>,
}

/// Returns what is known of the places of a list, of which `calls` has the calls in order of their
/// offsets.
///
/// # Errors
///
/// Fails if memory runs out.
pub fn places_of(
    alloc: Global,
    text: &[u8],
    calls: &[CallAt],
    list: Extent,
) -> Result<ListPlaces, AllocError>
    requires list { specs.IsList text.now calls.now list }
    // Each offset that is noted is outside quotes, substitutions, comments and here-documents.
    ensures outside { IfOk result (λ p. All (specs.IsOutside text.now calls.now) p.outside.items) }
{
    let mut walk = ListWalk {
        at: list.start,
        scan: TextScan::new(alloc),
        marks: Vec::new(alloc),
        outside: Vec::new(alloc),
    };
    for at in list.start..list.end {
        walk.read(alloc, text, calls, list, at)?;
    }
    let ListWalk { marks, outside, .. } = walk;
    Ok(ListPlaces { marks, outside })
}

/// Returns whether a place of a list is that of an index.
#[tactic(auto, using(crate::proofs::Reached::found_at))]
fn is_at(text: &[u8], calls: &[CallAt], outside: &[usize], index: usize, at: usize) -> bool
    requires { All (specs.IsOutside text.now calls.now) outside.now }
    ensures { IsTrue result → specs.IsOutside text.now calls.now at }
{
    let _ = text;
    let _ = calls;
    index < outside.len() && outside[index] == at
}

impl ListPlaces {
    /// Returns whether a statement may begin at an offset of the text whose places these are.
    pub fn is_outside(&self, text: &[u8], calls: &[CallAt], at: usize) -> bool
        requires places { All (specs.IsOutside text.now calls.now) self.now.outside.items }
        // If so, the offset is outside quotes, substitutions, comments and here-documents.
        ensures outside { IsTrue result → specs.IsOutside text.now calls.now at }
    {
        match self.outside.binary_search(&at) {
            Ok(index) => is_at(text, calls, self.outside.as_slice(), index, at),
            Err(_) => false,
        }
    }
}
