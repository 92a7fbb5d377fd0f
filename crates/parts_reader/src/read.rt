//! The reader: it makes the list of the parts of a source, as it likes.
//!
//! It keeps what is open on a list of its own, so a source may nest as deep as memory allows. A step
//! appends a leaf, or opens or closes a part. What isn't understood is taken up by the nearest list
//! that ends at a known offset: an argument's, or the source's. All of its statement so far, and what is
//! after it in the list, becomes `Other`, in which calls stay parts. So nothing is read twice.

ghost use Rattle.std.specs.Prelude.{IfOk, IfSome};
ghost use Rattle.ac_parts.specs.Trees.{IsTree};

use crate::lengths::{
    after, are_words, assigned_len, blank_len, closing, default_lens, dollar_len, double_len,
    ends_word, entry_len, gap_len, has_dnl, has_reserved, has_word, part_of, plain_len,
    position_of, quoted_len, redirect_len,
};
use ac_calls::CallAt;
use ac_macros::holds_statements;
use ac_parts::{Kind, Part, is_among, is_tree};
use std::alloc::{AllocError, Global};

/// What is open.
#[derive(Clone, Copy)]
enum Doing {
    /// A list that ends at its offset.
    Bounded,
    /// The condition of an `if`.
    Asked,
    /// What is done after `then`.
    Done,
    /// What is done after `else`.
    DoneLast,
    /// A statement that wants a command.
    Wanting,
    /// A statement after a command.
    Wanted,
    /// A statement after an `if`.
    WantedIf,
    /// An `if` after its condition.
    IfAsked,
    /// An `if` after what is done.
    IfDone,
    /// An `if` after what is done last.
    IfLast,
    /// A command of assignments so far that wants a word.
    First,
    /// A command that wants a word.
    Next,
    /// A command of assignments so far, after one.
    Assigned,
    /// A command after a word.
    Worded,
    /// A command that wants what it is redirected to.
    Target,
    /// An assignment after its `=`.
    Value,
    /// An assignment after its word.
    Valued,
    /// A word.
    Word,
    /// A list of words.
    Words,
    /// An argument after what is in it.
    Argument,
    /// A call before an argument.
    Call,
    /// What isn't understood.
    Other,
}

/// A part that is open.
#[derive(Clone, Copy)]
struct Open {
    doing: Doing,
    /// Its index in the list of parts.
    index: usize,
    /// The offset that it may not go past.
    stop: usize,
    /// The index of a call and of an argument; or where the last child begins in the list of parts.
    call: usize,
    child: usize,
}

/// What is read so far.
#[derive(Drop)]
struct Reader {
    parts: Vec<Part>,
    open: Vec<Open>,
    at: usize,
    /// How many calls are behind.
    passed: usize,
}

/// Whether a step was made.
#[derive(Clone, Copy)]
enum Turn {
    Made,
    Failed,
    Ended,
}

impl Reader {
    /// Appends a leaf of so many bytes.
    fn leaf(&mut self, kind: Kind, length: usize) -> Result<Turn, AllocError> {
        if length == 0 {
            return Ok(Turn::Failed);
        }
        let end = self.at.saturating_add(length);
        self.parts.push(Part {
            kind,
            start: self.at,
            end,
            within: 0,
        })?;
        self.at = end;
        Ok(Turn::Made)
    }

    /// Appends a leaf up to an offset, if that is further on.
    fn leaf_to(&mut self, kind: Kind, end: usize) -> Result<Turn, AllocError> {
        if end <= self.at {
            return Ok(Turn::Made);
        }
        self.leaf(kind, end.saturating_sub(self.at))
    }

    /// Opens a part.
    fn begin(
        &mut self,
        kind: Kind,
        doing: Doing,
        stop: usize,
        call: usize,
    ) -> Result<Turn, AllocError> {
        let index = self.parts.len();
        self.parts.push(Part {
            kind,
            start: self.at,
            end: self.at,
            within: 0,
        })?;
        self.open.push(Open {
            doing,
            index,
            stop,
            call,
            child: index.saturating_add(1),
        })?;
        Ok(Turn::Made)
    }

    /// Ends a part that began at an index.
    fn end_part(&mut self, index: usize) {
        let count = self.parts.len();
        if index < count {
            self.parts[index].end = self.at;
            self.parts[index].within = count - index - 1;
        }
    }

    /// Closes the innermost part.
    fn close(&mut self) -> Turn {
        let Some(open) = self.open.pop() else {
            return Turn::Ended;
        };
        self.end_part(open.index);
        if self.open.is_empty() {
            Turn::Ended
        } else {
            Turn::Made
        }
    }

    /// Says what the innermost part does next.
    fn go_on(&mut self, doing: Doing) {
        let count = self.open.len();
        if count > 0 {
            self.open[count - 1].doing = doing;
        }
    }

    /// Says that the next child of the innermost part begins here.
    fn begin_child(&mut self) {
        let count = self.open.len();
        if count > 0 {
            self.open[count - 1].child = self.parts.len();
        }
    }

    /// Returns where the next call begins, if that is before an offset.
    fn next_call(&self, calls: &[CallAt], stop: usize) -> Option<usize> {
        match calls.get(self.passed) {
            Some(call) if call.start < stop => Some(call.start),
            _ => None,
        }
    }

    /// Opens a call, after its name.
    fn begin_call(&mut self, calls: &[CallAt]) -> Result<Turn, AllocError> {
        let Some(call) = calls.get(self.passed) else {
            return Ok(Turn::Failed);
        };
        let index = self.passed;
        self.passed = index.saturating_add(1);
        self.begin(Kind::Call, Doing::Call, call.end, index)?;
        self.count_child(0);
        self.leaf_to(Kind::Name, call.name_end)
    }

    /// Says how many arguments of the innermost call are behind.
    fn count_child(&mut self, number: usize) {
        let count = self.open.len();
        if count > 0 {
            self.open[count - 1].child = number;
        }
    }

    /// Appends blanks, a newline, a comment or a dropped line. A call may cut them off.
    fn space(&mut self, rest: &[u8], is_cut: bool) -> Result<Option<Turn>, AllocError> {
        let blank = blank_len(rest);
        if blank > 0 {
            return Ok(Some(self.leaf(Kind::Blank, blank)?));
        }
        if rest.first() == Some(&b'\n') {
            return Ok(Some(self.leaf(Kind::Newline, 1)?));
        }
        let is_comment = rest.first() == Some(&b'#');
        if !is_comment && !has_dnl(rest) {
            return Ok(None);
        }
        match position_of(b'\n', rest) {
            None if is_cut => Ok(Some(Turn::Failed)),
            None if is_comment => Ok(Some(self.leaf(Kind::Comment, rest.len())?)),
            None => Ok(Some(self.leaf(Kind::Dropped, rest.len())?)),
            Some(newline) if is_comment => Ok(Some(self.leaf(Kind::Comment, newline)?)),
            Some(newline) => Ok(Some(self.leaf(Kind::Dropped, newline.saturating_add(1))?)),
        }
    }

    /// Reads a child of a list.
    fn list(&mut self, place: Place<'_>) -> Result<Turn, AllocError> {
        self.begin_child();
        if place.is_call {
            return self.begin(Kind::Statement, Doing::Wanting, place.stop, 0);
        }
        if let Some(turn) = self.space(place.rest, place.is_cut)? {
            return Ok(turn);
        }
        let is_double = after(place.rest, 1).first() == place.rest.first();
        match place.rest.first() {
            Some(b';' | b'&') if is_double => Ok(Turn::Failed),
            Some(b';') => self.leaf(Kind::Semicolon, 1),
            Some(b'&') => self.leaf(Kind::Background, 1),
            _ if has_reserved(place.rest) => Ok(Turn::Failed),
            _ => self.begin(Kind::Statement, Doing::Wanting, place.stop, 0),
        }
    }

    /// Reads a child of a list that a word ends, or closes it.
    fn list_until(&mut self, place: Place<'_>, is_end: bool) -> Result<Turn, AllocError> {
        if is_end {
            Ok(self.close())
        } else if place.is_end {
            Ok(Turn::Failed)
        } else {
            self.list(place)
        }
    }

    /// Reads a part of a statement that wants a command.
    fn wanting(&mut self, place: Place<'_>) -> Result<Turn, AllocError> {
        if place.is_end {
            return Ok(Turn::Failed);
        }
        if !place.is_call && has_word(place.rest, b"if") {
            self.go_on(Doing::WantedIf);
            self.begin(Kind::If, Doing::IfAsked, place.stop, 0)?;
            self.leaf(Kind::IfWord, 2)?;
            return self.begin(Kind::Condition, Doing::Asked, place.stop, 0);
        }
        if !place.is_call {
            if let Some(turn) = self.space(place.rest, place.is_cut)? {
                return Ok(turn);
            }
            if has_reserved(place.rest) {
                return Ok(Turn::Failed);
            }
        }
        self.go_on(Doing::Wanted);
        self.begin(Kind::Command, Doing::First, place.stop, 0)
    }

    /// Reads what joins a statement's command to the next one, or closes the statement.
    fn wanted(&mut self, place: Place<'_>, is_if: bool) -> Result<Turn, AllocError> {
        if place.is_call {
            return Ok(Turn::Failed);
        }
        let blank = blank_len(place.rest);
        let next = after(place.rest, blank);
        let (kind, length) = if next.starts_with(b"&&") {
            (Kind::And, 2)
        } else if next.starts_with(b"||") {
            (Kind::Or, 2)
        } else if next.first() == Some(&b'|') {
            (Kind::Pipe, 1)
        } else if is_if && !self.ends_if(place, next) {
            return Ok(Turn::Failed);
        } else {
            return Ok(self.close());
        };
        let to = self.at.saturating_add(blank);
        self.leaf_to(Kind::Blank, to)?;
        self.go_on(Doing::Wanting);
        self.leaf(kind, length)
    }

    /// Returns whether an `if` may be followed by this text.
    fn ends_if(&self, place: Place<'_>, next: &[u8]) -> bool {
        match next.first() {
            None => !place.is_cut,
            Some(byte) => is_among(b"\n;&)#", *byte) || has_dnl(next),
        }
    }

    /// Reads a word of an `if`, and opens what is after it.
    fn keyword(
        &mut self,
        place: Place<'_>,
        word: &[u8],
        kind: Kind,
        then: Doing,
    ) -> Result<bool, AllocError> {
        if place.is_call || !has_word(place.rest, word) {
            return Ok(false);
        }
        self.leaf(kind, word.len())?;
        self.go_on(then);
        Ok(true)
    }

    /// Reads what is after a condition.
    fn after_condition(&mut self, place: Place<'_>) -> Result<Turn, AllocError> {
        if self.keyword(place, b"then", Kind::Then, Doing::IfDone)? {
            self.begin(Kind::List, Doing::Done, place.stop, 0)
        } else {
            Ok(Turn::Failed)
        }
    }

    /// Reads what is after what is done.
    fn after_done(&mut self, place: Place<'_>, is_last: bool) -> Result<Turn, AllocError> {
        if self.keyword(place, b"fi", Kind::Fi, Doing::IfLast)? {
            return Ok(self.close());
        }
        if is_last {
            return Ok(Turn::Failed);
        }
        if self.keyword(place, b"elif", Kind::Elif, Doing::IfAsked)? {
            return self.begin(Kind::Condition, Doing::Asked, place.stop, 0);
        }
        if self.keyword(place, b"else", Kind::Else, Doing::IfLast)? {
            return self.begin(Kind::List, Doing::DoneLast, place.stop, 0);
        }
        Ok(Turn::Failed)
    }

    /// Reads a word of a command.
    fn worded(
        &mut self,
        text: &[u8],
        calls: &[CallAt],
        place: Place<'_>,
        is_first: bool,
    ) -> Result<Turn, AllocError> {
        if place.is_end {
            return Ok(Turn::Failed);
        }
        if place.is_call {
            self.go_on(Doing::Worded);
            return if is_alone(text, calls.get(self.passed), place.stop) {
                self.begin_call(calls)
            } else {
                self.begin(Kind::Word, Doing::Word, place.stop, 0)
            };
        }
        let signs = redirect_len(place.rest);
        if place.rest.starts_with(b"<<") {
            return Ok(Turn::Failed);
        }
        if signs > 0 {
            self.go_on(Doing::Target);
            return self.leaf(Kind::Redirect, signs);
        }
        match assigned_len(place.rest) {
            Some(name) if is_first => {
                self.go_on(Doing::Assigned);
                self.begin(Kind::Assignment, Doing::Value, place.stop, 0)?;
                self.leaf(Kind::Variable, name)?;
                self.leaf(Kind::Equals, 1)
            }
            _ => {
                self.go_on(Doing::Worded);
                self.begin(Kind::Word, Doing::Word, place.stop, 0)
            }
        }
    }

    /// Reads the word that a command is redirected to.
    fn target(&mut self, place: Place<'_>) -> Result<Turn, AllocError> {
        let blank = blank_len(place.rest);
        if blank > 0 {
            return self.leaf(Kind::Blank, blank);
        }
        self.go_on(Doing::Worded);
        self.begin(Kind::Word, Doing::Word, place.stop, 0)
    }

    /// Reads what is after a word of a command, or closes the command.
    fn after_word(&mut self, place: Place<'_>, then: Doing) -> Result<Turn, AllocError> {
        if place.is_call {
            return Ok(Turn::Failed);
        }
        let blank = blank_len(place.rest);
        let next = after(place.rest, blank);
        let is_last = match next.first() {
            None => !place.is_cut,
            Some(b'#') => blank > 0,
            Some(byte) => is_among(b"\n;&|)", *byte) || has_dnl(next),
        };
        if is_last {
            return Ok(self.close());
        }
        if blank == 0 && redirect_len(next) == 0 {
            return Ok(Turn::Failed);
        }
        let to = self.at.saturating_add(blank);
        self.go_on(then);
        self.leaf_to(Kind::Blank, to)
    }

    /// Reads the word of an assignment, or closes the assignment.
    fn value(&mut self, place: Place<'_>) -> Result<Turn, AllocError> {
        if place.is_end || !place.is_call && ends_here(place.rest) {
            return Ok(self.close());
        }
        self.go_on(Doing::Valued);
        self.begin(Kind::Word, Doing::Word, place.stop, 0)
    }

    /// Reads a part of a word, or closes it.
    fn word(
        &mut self,
        calls: &[CallAt],
        place: Place<'_>,
        index: usize,
    ) -> Result<Turn, AllocError> {
        if place.is_call {
            return self.begin_call(calls);
        }
        if place.is_end || ends_here(place.rest) {
            return if index.saturating_add(1) < self.parts.len() {
                Ok(self.close())
            } else {
                Ok(Turn::Failed)
            };
        }
        let (kind, length) = match place.rest.first() {
            Some(b'\'') => (Kind::Single, quoted_len(place.rest, b'\'')),
            Some(b'"') => (Kind::Double, double_len(place.rest)),
            Some(b'`') => (Kind::Substitution, quoted_len(place.rest, b'`')),
            Some(b'\\') => (
                Kind::Escape,
                if place.rest.len() > 1 { Some(2) } else { None },
            ),
            Some(b'$') => {
                if let Some((name, constant)) = default_lens(place.rest) {
                    return self.default(place.stop, name, constant);
                }
                (Kind::Dollar, dollar_len(place.rest))
            }
            _ => (Kind::Plain, Some(plain_len(place.rest))),
        };
        match length {
            Some(length) => self.leaf(kind, length),
            None => Ok(Turn::Failed),
        }
    }

    /// Appends a `${NAME:-CONSTANT}`.
    fn default(&mut self, stop: usize, name: usize, constant: usize) -> Result<Turn, AllocError> {
        self.begin(Kind::Default, Doing::Valued, stop, 0)?;
        self.leaf(Kind::DefaultStart, 2)?;
        self.leaf(Kind::Variable, name)?;
        self.leaf(Kind::DefaultSign, 2)?;
        if constant > 0 {
            self.leaf(Kind::Constant, constant)?;
        }
        self.leaf(Kind::DefaultEnd, 1)?;
        Ok(self.close())
    }

    /// Reads an argument of a call, or closes the call.
    fn call(&mut self, text: &[u8], calls: &[CallAt], open: Open) -> Result<Turn, AllocError> {
        let Some(call) = calls.get(open.call) else {
            return Ok(Turn::Failed);
        };
        if call.args.is_empty() {
            return Ok(self.close());
        }
        let Some(arg) = call.args.get(open.child) else {
            self.leaf(Kind::CallEnd, 1)?;
            return Ok(self.close());
        };
        let (start, end) = (arg.start, arg.end);
        let sign = if open.child == 0 {
            Kind::Parenthesis
        } else {
            Kind::Comma
        };
        self.leaf(sign, 1)?;
        self.leaf_to(Kind::Gap, start)?;
        self.count_child(open.child.saturating_add(1));
        let holds = match &call.row {
            Some(row) => holds_statements(row.named, call.args.len(), open.child),
            None => false,
        };
        self.argument(text, calls, end, holds)
    }

    /// Opens an argument.
    fn argument(
        &mut self,
        text: &[u8],
        calls: &[CallAt],
        end: usize,
        holds: bool,
    ) -> Result<Turn, AllocError> {
        let start = self.at;
        let bracket = bracket_end(part_of(text, start, end));
        let stop = match bracket {
            Some(inner) => start.saturating_add(inner),
            None => end,
        };
        self.begin(Kind::Argument, Doing::Argument, end, stop)?;
        if bracket.is_some() {
            self.leaf(Kind::Left, 1)?;
        }
        if self.at >= stop {
            return Ok(Turn::Made);
        }
        if holds || self.next_call(calls, stop).is_some() {
            return self.begin(Kind::List, Doing::Bounded, stop, 0);
        }
        let inner = part_of(text, self.at, stop);
        if are_words(inner) {
            self.begin(Kind::Words, Doing::Words, stop, 0)
        } else {
            self.leaf_to(Kind::Text, stop)
        }
    }

    /// Reads an entry, or closes the list of words.
    fn entry(&mut self, place: Place<'_>) -> Result<Turn, AllocError> {
        if place.is_end {
            return Ok(self.close());
        }
        let gap = gap_len(place.rest);
        if gap > 0 {
            self.leaf(Kind::Gap, gap)
        } else {
            self.leaf(Kind::Entry, entry_len(place.rest))
        }
    }

    /// Closes an argument.
    fn end_argument(&mut self, open: Open) -> Result<Turn, AllocError> {
        if open.call < open.stop {
            self.leaf(Kind::Right, 1)?;
        }
        self.leaf_to(Kind::Gap, open.stop)?;
        Ok(self.close())
    }

    /// Goes on in what isn't understood.
    fn other(&mut self, calls: &[CallAt], stop: usize) -> Result<Turn, AllocError> {
        match self.next_call(calls, stop) {
            Some(start) => {
                self.leaf_to(Kind::Raw, start)?;
                self.begin_call(calls)
            }
            None => {
                self.leaf_to(Kind::Raw, stop)?;
                Ok(self.close())
            }
        }
    }

    /// Makes a step in the innermost part.
    fn step(&mut self, text: &[u8], calls: &[CallAt], open: Open) -> Result<Turn, AllocError> {
        let place = self.place(text, calls, open.stop);
        let ends = |word: &[u8]| !place.is_call && has_word(place.rest, word);
        match open.doing {
            Doing::Bounded => self.list_until(place, place.is_end),
            Doing::Asked => self.list_until(place, ends(b"then")),
            Doing::Done => self.list_until(place, ends(b"elif") || ends(b"else") || ends(b"fi")),
            Doing::DoneLast => self.list_until(place, ends(b"fi")),
            Doing::Wanting => self.wanting(place),
            Doing::Wanted => self.wanted(place, false),
            Doing::WantedIf => self.wanted(place, true),
            Doing::IfAsked => self.after_condition(place),
            Doing::IfDone => self.after_done(place, false),
            Doing::IfLast => self.after_done(place, true),
            Doing::First => self.worded(text, calls, place, true),
            Doing::Next => self.worded(text, calls, place, false),
            Doing::Target => self.target(place),
            Doing::Assigned => self.after_word(place, Doing::First),
            Doing::Worded => self.after_word(place, Doing::Next),
            Doing::Value => self.value(place),
            Doing::Valued => Ok(self.close()),
            Doing::Word => self.word(calls, place, open.index),
            Doing::Words => self.entry(place),
            Doing::Argument => self.end_argument(open),
            Doing::Call => self.call(text, calls, open),
            Doing::Other => self.other(calls, open.stop),
        }
    }

    /// Returns what is at the place where the reader is.
    fn place<'a>(&self, text: &'a [u8], calls: &[CallAt], stop: usize) -> Place<'a> {
        let next = self.next_call(calls, stop).unwrap_or(stop);
        Place {
            rest: part_of(text, self.at, next),
            is_call: next < stop && next <= self.at,
            is_cut: next < stop,
            is_end: self.at >= stop,
            stop,
        }
    }

    /// Closes what is within the nearest list that ends at a known offset. Returns that list, if no
    /// call is left open.
    fn give_up(&mut self) -> Option<Open> {
        for _ in 0..self.open.len() {
            let open = self.open.pop()?;
            match open.doing {
                Doing::Bounded => return Some(open),
                Doing::Call | Doing::Argument => return None,
                _ => {}
            }
        }
        None
    }

    /// Makes what isn't understood of the last child of the nearest such list.
    fn fail(&mut self) -> Result<Turn, AllocError> {
        let Some(list) = self.give_up() else {
            return Ok(Turn::Failed);
        };
        self.open.push(list)?;
        let old = self.take_from(list.child)?;
        if let Some(first) = old.first() {
            self.at = first.start;
        }
        self.begin(Kind::Other, Doing::Other, list.stop, 0)?;
        let mut behind = 0usize;
        for i in 0..old.len() {
            if i < behind {
                self.parts.push(old[i])?;
            } else if old[i].kind.is(Kind::Call) {
                self.leaf_to(Kind::Raw, old[i].start)?;
                self.parts.push(old[i])?;
                self.at = old[i].end;
                behind = old[i].within.saturating_add(i).saturating_add(1);
            }
        }
        Ok(Turn::Made)
    }

    /// Takes the parts from an index on off the list.
    fn take_from(&mut self, index: usize) -> Result<Vec<Part>, AllocError> {
        let mut old = Vec::new(*self.parts.allocator());
        for i in index..self.parts.len() {
            old.push(self.parts[i])?;
        }
        self.parts.truncate(index);
        Ok(old)
    }
}

/// What is at a place: the text up to the next call or the end of the innermost part.
#[derive(Clone, Copy)]
struct Place<'a> {
    rest: &'a [u8],
    is_call: bool,
    is_cut: bool,
    is_end: bool,
    stop: usize,
}

/// Returns whether a word ends here.
fn ends_here(rest: &[u8]) -> bool {
    blank_len(rest) > 0 || rest.first().is_some_and(|byte| ends_word(*byte))
}

/// Returns whether a call is all of a word.
fn is_alone(text: &[u8], call: Option<&CallAt>, stop: usize) -> bool {
    match call {
        None => false,
        Some(call) => {
            let rest = part_of(text, call.end, stop);
            rest.is_empty() || ends_here(rest) || has_dnl(rest)
        }
    }
}

/// Returns the offset of the bracket that ends an argument which begins with one.
fn bracket_end(argument: &[u8]) -> Option<usize> {
    if argument.first() != Some(&b'[') {
        return None;
    }
    let end = closing(argument)?;
    let rest = after(argument, end.saturating_add(1));
    if gap_len(rest) == rest.len() {
        Some(end)
    } else {
        None
    }
}

/// Reads the parts of a text with these calls, or nothing if calls are within what isn't understood
/// of a call.
fn read(alloc: Global, text: &[u8], calls: &[CallAt]) -> Result<Option<Vec<Part>>, AllocError> {
    let mut reader = Reader {
        parts: Vec::new(alloc),
        open: Vec::new(alloc),
        at: 0,
        passed: 0,
    };
    reader.begin(Kind::List, Doing::Bounded, text.len(), 0)?;
    for _ in 0..text.len().saturating_mul(16).saturating_add(64) {
        let Some(open) = reader.open.last() else {
            return Ok(Some(reader.parts));
        };
        let open = *open;
        match reader.step(text, calls, open)? {
            Turn::Made => {}
            Turn::Ended => return Ok(Some(reader.parts)),
            Turn::Failed => {
                if let Turn::Failed = reader.fail()? {
                    return Ok(None);
                }
            }
        }
    }
    Ok(None)
}

/// Returns the parts of a source, or nothing if the reader makes no tree of it.
///
/// # Errors
///
/// Fails only if memory runs out.
pub fn read_parts(
    alloc: Global,
    text: &[u8],
    calls: &[CallAt],
) -> Result<Option<Vec<Part>>, AllocError>
    ensures { IfOk result (λ o. IfSome o (λ v. IsTree text.now v.items)) }
{
    let Some(parts) = read(alloc, text, calls)? else {
        return Ok(None);
    };
    if is_tree(alloc, text, &parts)? {
        Ok(Some(parts))
    } else {
        Ok(None)
    }
}
