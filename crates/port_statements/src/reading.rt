//! One list of statements, word by word.

use crate::compounds::Compounds;
use crate::cut::{Kept, StatementCut};
use crate::words::{ShellWord, Sign, extended, is_special, sign_of};
use ac_calls::CallAt;
use lint_text::part;
use port_places::{PlaceKind, PlaceMark, call_at};
use std::alloc::{AllocError, Global};

/// What was found in a list.
#[derive(Drop)]
pub(crate) struct Found {
    /// The statements that may be rewritten.
    pub(crate) cuts: Vec<StatementCut>,
    /// The statements that aren't rewritten, whatever their parts are.
    pub(crate) kept: Vec<Kept>,
    /// The indices of the calls that are statements.
    pub(crate) calls: Vec<usize>,
}

/// How far a list of statements was read.
#[derive(Drop)]
struct ListReader {
    compounds: Compounds,
    /// The word that was begun.
    word: Option<ShellWord>,
    /// Whether a byte of the word is in brackets.
    is_quoted: bool,
    /// The index of the call that the word begins with.
    call: Option<usize>,
    /// Whether the next word is the delimiter of a here-document, or the `-` before it.
    wants_delimiter: bool,
    /// The indices of the calls that are statements.
    calls: Vec<usize>,
}

/// Returns whether the second `<` of a here-document is at an offset.
fn ends_operator(text: &[u8], at: usize) -> bool {
    text.get(at.saturating_sub(1)..at.saturating_add(1)) == Some(b"<<".as_slice())
}

impl ListReader {
    /// Returns whether a word is the delimiter of a here-document, or the `-` before it.
    fn take_delimiter(&mut self, word: &[u8]) -> bool {
        let is_delimiter = self.wants_delimiter;
        self.wants_delimiter = is_delimiter && word == b"-".as_slice();
        is_delimiter
    }

    /// Ends the word that was begun, if there is one.
    fn end_word(&mut self, alloc: Global, text: &[u8]) -> Result<(), AllocError> {
        let is_quoted = self.is_quoted;
        let call = self.call;
        let begun = self.word;
        self.is_quoted = false;
        self.call = None;
        self.word = None;
        let Some(word) = begun else {
            return Ok(());
        };
        let written = part(text, word.start, word.end);
        if self.take_delimiter(written) {
            return Ok(());
        }
        if self.compounds.read_word(alloc, written, word, is_quoted)? {
            if let Some(index) = call {
                self.calls.push(index)?;
            }
        }
        Ok(())
    }

    /// Reads a byte of a word at an offset.
    fn extend(&mut self, at: usize, is_plain: bool, is_quoted: bool) {
        self.is_quoted |= is_quoted;
        self.word = Some(extended(self.word, at, at.saturating_add(1), is_plain));
    }

    /// Reads a call that begins at an offset.
    fn read_call(&mut self, calls: &[CallAt], at: usize) {
        let Some(index) = call_at(calls, at) else {
            return;
        };
        let end = match calls.get(index) {
            Some(call) => call.end,
            None => at,
        };
        let is_first = self.word.is_none();
        let word = extended(self.word, at, end, false);
        if is_first {
            self.call = Some(index);
        }
        self.word = Some(ShellWord {
            is_call: word.is_call || is_first,
            ..word
        });
    }

    /// Reads an operator or a blank at an offset, or the end of a line there.
    fn read_sign(
        &mut self,
        alloc: Global,
        text: &[u8],
        sign: Sign,
        at: usize,
        is_quoted: bool,
    ) -> Result<(), AllocError> {
        self.end_word(alloc, text)?;
        self.is_quoted = is_quoted;
        match sign {
            Sign::Newline => self.wants_delimiter = false,
            Sign::Redirection => self.wants_delimiter = ends_operator(text, at),
            _ => {}
        }
        self.compounds.read_sign(alloc, sign, at)
    }

    /// Reads a byte that is outside quotes and the like.
    fn read_outside(
        &mut self,
        alloc: Global,
        text: &[u8],
        byte: u8,
        at: usize,
        mark: PlaceMark,
    ) -> Result<(), AllocError> {
        match sign_of(byte) {
            Some(sign) if byte != b'(' || !mark.is_dollar => {
                return self.read_sign(alloc, text, sign, at, mark.is_quoted);
            }
            _ => {}
        }
        // A comment or a backslash is no part of a word.
        if byte != b'\\' && (byte != b'#' || self.word.is_some()) {
            self.extend(at, !is_special(byte), mark.is_quoted);
        }
        Ok(())
    }

    /// Reads a byte in quotes or in a substitution, or after a backslash. A newline after a backslash
    /// is no part of a word.
    fn read_inside(&mut self, byte: u8, at: usize, mark: PlaceMark) {
        if byte != b'\n' {
            self.extend(at, false, mark.is_quoted);
        }
    }

    /// Reads what is at an offset.
    fn read(
        &mut self,
        alloc: Global,
        text: &[u8],
        calls: &[CallAt],
        at: usize,
        mark: PlaceMark,
    ) -> Result<(), AllocError> {
        let Some(byte) = text.get(at).copied() else {
            return Ok(());
        };
        match mark.kind {
            PlaceKind::Call if mark.is_outside => self.read_call(calls, at),
            PlaceKind::Inside => self.read_inside(byte, at, mark),
            PlaceKind::Dropped => {
                return self.read_sign(alloc, text, Sign::Newline, at, false);
            }
            PlaceKind::Comment if byte == b'\n' => {
                return self.read_sign(alloc, text, Sign::Newline, at, mark.is_quoted);
            }
            PlaceKind::Outside => return self.read_outside(alloc, text, byte, at, mark),
            _ => {}
        }
        Ok(())
    }
}

/// Returns what is found in a list that begins at an offset, of whose places the marks are known.
pub(crate) fn found_in(
    alloc: Global,
    text: &[u8],
    calls: &[CallAt],
    start: usize,
    marks: &[PlaceMark],
) -> Result<Found, AllocError> {
    let mut reader = ListReader {
        compounds: Compounds::new(alloc),
        word: None,
        is_quoted: false,
        call: None,
        wants_delimiter: false,
        calls: Vec::new(alloc),
    };
    let mut at = start;
    for mark in marks {
        reader.read(alloc, text, calls, at, *mark)?;
        at = at.saturating_add(1);
    }
    reader.end_word(alloc, text)?;
    let ListReader {
        compounds,
        calls: indices,
        ..
    } = reader;
    let (cuts, kept) = compounds.into_found()?;
    Ok(Found {
        cuts,
        kept,
        calls: indices,
    })
}
