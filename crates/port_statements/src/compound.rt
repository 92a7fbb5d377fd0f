//! A compound statement that is open, and how its words are read.

use crate::cut::{Obstacle, StatementCut};
use crate::words::ShellWord;
use port_parts::{CaseBranch, CaseCut, ForCut, IfBranch, IfCut};
use std::alloc::{AllocError, Global};

/// What a compound statement is.
#[derive(Clone, Copy, PartialEq, Eq)]
pub(crate) enum ConstructKind {
    /// `if`.
    If,
    /// `case`.
    Case,
    /// `for`.
    For,
    /// `while`, `until` or `select`.
    Loop,
    /// Braces.
    Group,
    /// Parentheses.
    Paren,
}

/// How far a compound statement was read.
#[derive(Clone, Copy, PartialEq, Eq)]
pub(crate) enum OpenPart {
    /// The condition of an `if`, the word of a `case`, or what is before `do`.
    Head,
    /// The patterns of a `case`.
    Patterns,
    /// A list of statements that is done.
    Body,
    /// The list after `else`.
    Default,
}

/// What may begin at a place.
#[derive(Clone, Copy, PartialEq, Eq)]
pub(crate) enum Beginning {
    /// A further word of a command.
    Further,
    /// A statement.
    Statement,
    /// A statement, after a call on the line.
    AfterCall,
    /// A command that is joined to another one, or the first of a condition.
    Joined,
}

/// A compound statement that is open.
#[derive(Drop)]
pub(crate) struct Compound {
    pub(crate) kind: ConstructKind,
    pub(crate) part: OpenPart,
    /// Whether it is a statement of a list that calls may be put in.
    pub(crate) is_in_list: bool,
    /// Whether it may be rewritten.
    pub(crate) is_allowed: bool,
    /// What is around it that keeps a statement from being rewritten.
    pub(crate) outer: Option<Obstacle>,
    /// The same, or what is at its words.
    pub(crate) around: Option<Obstacle>,
    /// The offset of the first loop, brace or parenthesis in it.
    pub(crate) at_other: Option<usize>,
    /// The offset of its first byte.
    pub(crate) start: usize,
    /// The branches of an `if` so far, and the one that was begun.
    pub(crate) branches: Vec<IfBranch>,
    pub(crate) branch: IfBranch,
    pub(crate) at_else: Option<usize>,
    /// Whether the word of a `case` was read, or a word in parentheses.
    pub(crate) has_subject: bool,
    /// Whether the parenthesis is right after a word, as that of a function or of a macro.
    pub(crate) is_after_word: bool,
    pub(crate) at_in: usize,
    /// How many words of a `for` were read before its `do`, and the offset of that.
    pub(crate) words: usize,
    pub(crate) at_do: usize,
    /// Whether each word of a `for` is one that is written there.
    pub(crate) is_written: bool,
    /// Whether `break` or `continue` is in it, but in no loop in it.
    pub(crate) has_jump: bool,
    /// How many statements that may be rewritten were found before it.
    pub(crate) found_before: usize,
    /// The branches of a `case` so far, and the parenthesis after the patterns of the one that was
    /// begun.
    pub(crate) cases: Vec<CaseBranch>,
    pub(crate) at_close: usize,
}

/// Returns whether a word is no more and no less than what is written there.
fn is_written(word: &[u8]) -> bool {
    !word.iter().any(|byte| b"$`*?\\".contains(byte))
}

/// Returns a branch of an `if` that begins at an offset.
fn branch_at(start: usize) -> IfBranch {
    IfBranch {
        start,
        at_then: 0,
        end: 0,
    }
}

impl Compound {
    /// Returns one that begins with a word, of which nothing else is known.
    pub(crate) fn new(alloc: Global, kind: ConstructKind, word: ShellWord) -> Compound {
        Compound {
            kind,
            part: OpenPart::Head,
            is_in_list: false,
            is_allowed: false,
            outer: None,
            around: None,
            at_other: None,
            start: word.start,
            branches: Vec::new(alloc),
            branch: branch_at(word.end),
            at_else: None,
            has_subject: false,
            is_after_word: false,
            at_in: 0,
            words: 0,
            at_do: 0,
            is_written: false,
            has_jump: false,
            found_before: 0,
            cases: Vec::new(alloc),
            at_close: 0,
        }
    }

    /// Returns whether the statements of the list that is read are ones that calls may be put in.
    pub(crate) fn is_list(&self) -> bool {
        let is_done = self.part == OpenPart::Body || self.part == OpenPart::Default;
        self.is_in_list
            && is_done
            && (matches!(self.kind, ConstructKind::If | ConstructKind::Case) || self.is_written)
    }

    /// Returns what a statement has around it that is in this one, if that keeps it from being
    /// rewritten.
    pub(crate) fn around_inner(&self) -> Option<Obstacle> {
        match self.kind {
            ConstructKind::If | ConstructKind::Case if self.part == OpenPart::Head => Some(
                Obstacle::Condition,
            ),
            ConstructKind::If | ConstructKind::Case => self.outer,
            ConstructKind::For if self.is_written && self.part == OpenPart::Body => self.outer,
            ConstructKind::For
            | ConstructKind::Loop
            | ConstructKind::Group
            | ConstructKind::Paren => Some(Obstacle::Other(self.start)),
        }
    }

    /// Notes that a statement of this kind begins in it. Of a `for` it is known at its end what it is.
    pub(crate) fn take_in(&mut self, kind: ConstructKind, start: usize) {
        self.is_allowed = false;
        if matches!(
            kind,
            ConstructKind::Loop | ConstructKind::Group | ConstructKind::Paren
        ) {
            self.note_other(start);
        }
    }

    /// Notes that something is in it that stays, whatever is in that.
    pub(crate) fn note_other(&mut self, start: usize) {
        if self.at_other.is_none() {
            self.at_other = Some(start);
        }
    }

    /// Notes whether a word of it is in brackets.
    pub(crate) fn read_quotes(&mut self, is_quoted: bool) {
        self.is_allowed &= !is_quoted;
        if is_quoted && self.around.is_none() {
            self.around = Some(Obstacle::Brackets);
        }
    }

    /// Ends the branch of an `if` that was begun before a word, and begins another one after it.
    fn end_branch(&mut self, word: ShellWord) -> Result<(), AllocError> {
        self.branch.end = word.start;
        self.branches.push(self.branch)?;
        self.branch = branch_at(word.end);
        Ok(())
    }

    /// Reads a keyword by which it goes on. Returns what may begin after it, or `None` if the keyword
    /// can't be there.
    pub(crate) fn go_on(
        &mut self,
        keyword: &[u8],
        word: ShellWord,
        is_quoted: bool,
    ) -> Result<Option<Beginning>, AllocError> {
        let (part, next) = match (keyword, self.kind, self.part) {
            (b"then", ConstructKind::If, OpenPart::Head) => {
                self.branch.at_then = word.start;
                (OpenPart::Body, Beginning::Statement)
            }
            (b"elif", ConstructKind::If, OpenPart::Body) => {
                self.end_branch(word)?;
                (OpenPart::Head, Beginning::Joined)
            }
            (b"else", ConstructKind::If, OpenPart::Body) => {
                self.end_branch(word)?;
                self.at_else = Some(word.start);
                (OpenPart::Default, Beginning::Statement)
            }
            (b"do", ConstructKind::For | ConstructKind::Loop, OpenPart::Head) => {
                self.at_do = word.start;
                (OpenPart::Body, Beginning::Statement)
            }
            _ => return Ok(None),
        };
        self.part = part;
        self.read_quotes(is_quoted);
        Ok(Some(next))
    }

    /// Reads a word of a `for` before its `do`.
    pub(crate) fn read_of_for(&mut self, text: &[u8], word: ShellWord, is_quoted: bool) {
        if self.kind != ConstructKind::For || self.part != OpenPart::Head {
            return;
        }
        self.words = self.words.saturating_add(1);
        if self.words == 2 {
            self.at_in = word.start;
            self.is_written = text == b"in".as_slice();
        }
        self.is_written &= is_written(text);
        self.read_quotes(is_quoted);
    }

    /// Returns an `if`, a `case` or a `for` that ends with this word, by the offsets of its words.
    pub(crate) fn into_cut(self, last: ShellWord) -> Result<StatementCut, AllocError> {
        let Compound {
            kind,
            part,
            start,
            mut branches,
            mut branch,
            at_else,
            at_in,
            at_do,
            mut cases,
            at_close,
            ..
        } = self;
        if kind == ConstructKind::If {
            if part == OpenPart::Body {
                branch.end = last.start;
                branches.push(branch)?;
            }
            return Ok(StatementCut::If(IfCut {
                start,
                branches,
                at_else,
                at_fi: last.start,
                end: last.end,
            }));
        }
        if kind == ConstructKind::Case {
            if part == OpenPart::Body {
                cases.push(CaseBranch {
                    at_close,
                    end: last.start,
                })?;
            }
            return Ok(StatementCut::Case(CaseCut {
                start,
                at_in,
                branches: cases,
                at_esac: last.start,
                end: last.end,
            }));
        }
        Ok(StatementCut::For(ForCut {
            start,
            at_in,
            at_do,
            at_done: last.start,
            end: last.end,
        }))
    }
}
