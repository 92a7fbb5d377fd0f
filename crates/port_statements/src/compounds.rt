//! The compound statements that are open in a list of statements.

use crate::compound::{Beginning, Compound, ConstructKind, OpenPart};
use crate::cut::{Kept, Obstacle, StatementCut};
use crate::words::{ShellWord, Sign};
use lint_text::from;
use port_parts::{CaseBranch, GuardCut, name_length};
use std::alloc::{AllocError, Global};

/// The compound statements that are open, and those that were found.
#[derive(Drop)]
pub(crate) struct Compounds {
    open: Vec<Compound>,
    front: Beginning,
    /// Whether words and operators can't be told apart from here on.
    is_lost: bool,
    /// Whether the body of a function follows.
    is_function: bool,
    /// Whether the sign before was a `;`, and its offset.
    semicolon: Option<usize>,
    /// The statement that begins with a test or such an assignment, up to the last word that was read.
    guard: Option<GuardCut>,
    /// Whether it begins with an assignment that has a value of its own in it.
    is_default: bool,
    found: Vec<StatementCut>,
    /// The statements that aren't rewritten, whatever their parts are.
    kept: Vec<Kept>,
}

/// Returns whether a word may be an assignment of a value that is another one if a variable is empty.
fn is_defaulting(word: &[u8]) -> bool {
    let length = name_length(word);
    length > 0
        && from(word, length).starts_with(b"=")
        && word.contains(&b'{')
        && word.contains(&b':')
}

impl Compounds {
    /// Returns the start of a list.
    pub(crate) fn new(alloc: Global) -> Compounds {
        Compounds {
            open: Vec::new(alloc),
            front: Beginning::Statement,
            is_lost: false,
            is_function: false,
            semicolon: None,
            guard: None,
            is_default: false,
            found: Vec::new(alloc),
            kept: Vec::new(alloc),
        }
    }

    /// Ends the list, and returns the statements that may be rewritten, and those that aren't,
    /// whatever their parts are.
    pub(crate) fn into_found(mut self) -> Result<(Vec<StatementCut>, Vec<Kept>), AllocError> {
        self.end_guard()?;
        let Compounds { found, kept, .. } = self;
        Ok((found, kept))
    }

    /// Returns what is around a statement that begins here, if that keeps it from being rewritten.
    fn outer(&self) -> Option<Obstacle> {
        match self.open.last() {
            Some(last) => last.around_inner(),
            None => None,
        }
    }

    /// Returns what is before a statement that begins here, or at its first word, if that keeps it
    /// from being rewritten.
    fn at_words(&self, is_quoted: bool) -> Option<Obstacle> {
        if is_quoted {
            return Some(Obstacle::Brackets);
        }
        if self.is_function {
            return Some(Obstacle::Function);
        }
        match self.front {
            Beginning::Statement => None,
            Beginning::AfterCall => Some(Obstacle::Call),
            Beginning::Joined | Beginning::Further => Some(Obstacle::Command),
        }
    }

    /// Ends a statement that begins with a test or an assignment, if one was begun. If something is joined to the
    /// test, the statement may be rewritten.
    fn end_guard(&mut self) -> Result<(), AllocError> {
        if let Some(guard) = self.guard {
            if guard.at_joint == 0 && self.is_default {
                self.found.push(StatementCut::Default(guard))?;
            }
            if !self.is_default && guard.at_joint > 0 && guard.at_joint < guard.end {
                self.found.push(StatementCut::Guard(guard))?;
            }
        }
        self.guard = None;
        Ok(())
    }

    /// Begins or extends a statement that begins with a test, up to the end of a word.
    fn read_guard(&mut self, text: &[u8], word: ShellWord, is_quoted: bool) {
        if let Some(guard) = self.guard {
            self.guard = Some(GuardCut {
                end: word.end,
                ..guard
            });
        } else if (text == b"test".as_slice() || is_defaulting(text))
            && self.is_list()
            && self.front == Beginning::Statement
            && !self.is_function
            && !is_quoted
        {
            self.is_default = text != b"test".as_slice();
            self.guard = Some(GuardCut {
                start: word.start,
                at_joint: 0,
                end: word.end,
            });
        }
    }

    /// Notes an `echo`, an `exit`, an `unset` or an `export` that is a statement of a list that calls
    /// may be put in.
    fn read_line(
        &mut self,
        text: &[u8],
        word: ShellWord,
        is_quoted: bool,
    ) -> Result<(), AllocError> {
        let is_word = matches!(text, b"echo" | b"exit" | b"unset" | b"export") && word.is_plain;
        if is_word && !is_quoted && self.begins_call() && !self.is_function {
            self.found.push(StatementCut::Line(word.start))?;
        }
        Ok(())
    }

    /// Reads the first or the second byte of a joint, in a statement that begins with a test.
    fn join_guard(&mut self, at: usize) {
        if let Some(guard) = self.guard {
            let is_second = at > 0 && guard.at_joint == at.saturating_sub(1);
            if !is_second {
                self.guard = Some(GuardCut {
                    at_joint: at,
                    ..guard
                });
            }
        }
    }

    /// Returns whether a call may be put in the list that is read.
    fn is_list(&self) -> bool {
        let is_open = match self.open.last() {
            Some(last) => last.is_list(),
            None => true,
        };
        is_open && !self.is_lost
    }

    /// Returns whether a call that begins here is a statement of such a list.
    fn begins_call(&self) -> bool {
        self.is_list() && self.front != Beginning::Further && self.front != Beginning::Joined
    }

    /// Begins a compound statement.
    fn begin(
        &mut self,
        alloc: Global,
        kind: ConstructKind,
        word: ShellWord,
        is_quoted: bool,
    ) -> Result<(), AllocError> {
        self.guard = None;
        let is_in_list = self.is_list();
        let is_allowed = is_in_list
            && self.front == Beginning::Statement
            && !self.is_function
            && !is_quoted;
        let outer = self.outer();
        let around = if outer.is_some() {
            outer
        } else {
            self.at_words(is_quoted)
        };
        if let Some(last) = self.open.last_mut() {
            last.take_in(kind, word.start);
        }
        self.is_function = false;
        let mut compound = Compound::new(alloc, kind, word);
        compound.is_in_list = is_in_list;
        compound.is_allowed = is_allowed;
        compound.outer = outer;
        compound.around = around;
        compound.found_before = self.found.len();
        self.open.push(compound)?;
        self.front = Beginning::Joined;
        Ok(())
    }

    /// Gives up.
    fn lose(&mut self) {
        self.is_lost = true;
    }

    /// Reads a keyword by which the last compound statement goes on, or gives up.
    fn go_on(&mut self, text: &[u8], word: ShellWord, is_quoted: bool) -> Result<(), AllocError> {
        let next = match self.open.last_mut() {
            Some(last) => last.go_on(text, word, is_quoted)?,
            None => None,
        };
        match next {
            Some(next) => self.front = next,
            None => self.lose(),
        }
        Ok(())
    }

    /// Appends a statement that was taken out, and that ends with this word, to those that may be
    /// rewritten, or to those that aren't.
    fn push_closed(
        &mut self,
        mut compound: Compound,
        word: ShellWord,
        is_quoted: bool,
    ) -> Result<(), AllocError> {
        compound.read_quotes(is_quoted);
        let is_allowed = compound.is_allowed;
        let around = compound.around;
        let at_other = compound.at_other;
        let cut = compound.into_cut(word)?;
        if is_allowed {
            self.found.push(cut)?;
        } else {
            self.kept.push(Kept {
                cut,
                around,
                at_other,
            })?;
        }
        Ok(())
    }

    /// Takes out the last compound statement if it is of this kind, and otherwise gives up.
    fn take(&mut self, kind: ConstructKind) -> Option<Compound> {
        let is_it = match self.open.last() {
            Some(last) => last.kind == kind,
            None => false,
        };
        if !is_it {
            self.lose();
            return None;
        }
        self.front = Beginning::Further;
        let taken = self.open.pop();
        let is_loop = matches!(kind, ConstructKind::For | ConstructKind::Loop);
        if !is_loop && taken.as_ref().is_some_and(|compound| compound.has_jump) {
            self.note_jump();
        }
        taken
    }

    /// Notes that `break` or `continue` is in what is open.
    fn note_jump(&mut self) {
        if let Some(last) = self.open.last_mut() {
            last.has_jump = true;
        }
    }

    /// Takes the statements after the first ones out of those that may be rewritten: they are in a
    /// loop at an offset, which stays.
    fn keep_found(&mut self, first: usize, at: usize) -> Result<(), AllocError> {
        for _ in first..self.found.len() {
            let Some(cut) = self.found.pop() else {
                break;
            };
            if matches!(cut, StatementCut::If(_) | StatementCut::Case(_)) {
                self.kept.push(Kept {
                    cut,
                    around: Some(Obstacle::Other(at)),
                    at_other: None,
                })?;
            }
        }
        Ok(())
    }

    /// Reads `fi`.
    fn read_fi(&mut self, word: ShellWord, is_quoted: bool) -> Result<(), AllocError> {
        match self.take(ConstructKind::If) {
            Some(compound) if compound.part != OpenPart::Head => {
                self.push_closed(compound, word, is_quoted)
            }
            Some(_) => {
                self.lose();
                Ok(())
            }
            None => Ok(()),
        }
    }

    /// Reads `esac`.
    fn read_esac(&mut self, word: ShellWord, is_quoted: bool) -> Result<(), AllocError> {
        match self.take(ConstructKind::Case) {
            Some(compound) => self.push_closed(compound, word, is_quoted),
            None => Ok(()),
        }
    }

    /// Reads a word of a `for` before its `do`.
    fn read_of_for(&mut self, text: &[u8], word: ShellWord, is_quoted: bool) {
        if self.front != Beginning::Further {
            return;
        }
        if let Some(last) = self.open.last_mut() {
            last.read_of_for(text, word, is_quoted);
        }
    }

    /// Reads `done`.
    fn read_done(&mut self, word: ShellWord, is_quoted: bool) -> Result<(), AllocError> {
        let is_for = self
            .open
            .last()
            .is_some_and(|last| last.kind == ConstructKind::For);
        if !is_for {
            self.close(ConstructKind::Loop);
            return Ok(());
        }
        let Some(last) = self.take(ConstructKind::For) else {
            return Ok(());
        };
        if let Some(outer) = self.open.last_mut() {
            if !last.is_written || last.has_jump {
                outer.note_other(last.start);
            }
        }
        if last.has_jump {
            return self.keep_found(last.found_before, last.start);
        }
        if last.is_allowed && last.is_written && last.part == OpenPart::Body && !is_quoted {
            self.found.push(last.into_cut(word)?)?;
        }
        Ok(())
    }

    /// Closes a compound statement that isn't rewritten.
    fn close(&mut self, kind: ConstructKind) {
        let _ = self.take(kind);
    }

    /// Reads a word that may begin a compound statement.
    fn read_beginning(
        &mut self,
        alloc: Global,
        text: &[u8],
        word: ShellWord,
        is_quoted: bool,
    ) -> Result<bool, AllocError> {
        let kind = match text {
            b"if" => ConstructKind::If,
            b"case" => ConstructKind::Case,
            b"for" => ConstructKind::For,
            b"while" | b"until" | b"select" => ConstructKind::Loop,
            b"{" => ConstructKind::Group,
            _ => return Ok(false),
        };
        self.begin(alloc, kind, word, is_quoted)?;
        if kind == ConstructKind::Group {
            self.front = Beginning::Statement;
        }
        if kind == ConstructKind::Case
            || text == b"for".as_slice()
            || text == b"select".as_slice()
        {
            self.front = Beginning::Further;
        }
        Ok(true)
    }

    /// Reads a word that may go on with a compound statement, or end one. Returns whether it does.
    fn read_continuing(
        &mut self,
        text: &[u8],
        word: ShellWord,
        is_quoted: bool,
    ) -> Result<bool, AllocError> {
        match text {
            b"then" | b"elif" | b"else" | b"do" => self.go_on(text, word, is_quoted)?,
            b"fi" => self.read_fi(word, is_quoted)?,
            b"done" => self.read_done(word, is_quoted)?,
            b"esac" => self.read_esac(word, is_quoted)?,
            b"}" => self.close(ConstructKind::Group),
            b"!" => self.front = Beginning::Joined,
            b"break" | b"continue" => {
                self.note_jump();
                self.front = Beginning::Further;
            }
            _ => return Ok(false),
        }
        Ok(true)
    }

    /// Reads a word of the patterns of a `case`, or of what is before them. Returns whether it is
    /// one.
    fn read_of_case(
        &mut self,
        text: &[u8],
        word: ShellWord,
        is_quoted: bool,
    ) -> Result<bool, AllocError> {
        let Some(last) = self.open.last_mut() else {
            return Ok(false);
        };
        if last.kind != ConstructKind::Case {
            return Ok(false);
        }
        if last.part == OpenPart::Head {
            if text == b"in".as_slice() && last.has_subject {
                last.part = OpenPart::Patterns;
                last.at_in = word.start;
                last.read_quotes(is_quoted);
            }
            last.has_subject = true;
            return Ok(true);
        }
        if last.part == OpenPart::Patterns && text == b"esac".as_slice() {
            self.read_esac(word, is_quoted)?;
            return Ok(true);
        }
        Ok(last.part == OpenPart::Patterns)
    }

    /// Notes that a word is in the parentheses that are open, if they are the innermost.
    fn fill_paren(&mut self) {
        if let Some(last) = self.open.last_mut() {
            if last.kind == ConstructKind::Paren {
                last.has_subject = true;
            }
        }
    }

    /// Reads a word. Returns whether it is a call that is a statement of a list that calls may be
    /// put in.
    pub(crate) fn read_word(
        &mut self,
        alloc: Global,
        text: &[u8],
        word: ShellWord,
        is_quoted: bool,
    ) -> Result<bool, AllocError> {
        self.semicolon = None;
        if self.is_lost || self.read_of_case(text, word, is_quoted)? {
            return Ok(false);
        }
        self.fill_paren();
        self.read_of_for(text, word, is_quoted);
        self.read_guard(text, word, is_quoted);
        self.read_line(text, word, is_quoted)?;
        if self.front == Beginning::Further {
            return Ok(false);
        }
        if word.is_call {
            self.is_function = false;
            let is_statement = self.begins_call();
            self.front = Beginning::AfterCall;
            return Ok(is_statement);
        }
        if word.is_plain
            && (self.read_beginning(alloc, text, word, is_quoted)?
                || self.read_continuing(text, word, is_quoted)?)
        {
            return Ok(false);
        }
        self.is_function = false;
        self.front = Beginning::Further;
        Ok(false)
    }

    /// Reads a parenthesis that opens: of a command, of a function, or before patterns.
    fn read_open_paren(&mut self, alloc: Global, at: usize) -> Result<(), AllocError> {
        if self
            .open
            .last()
            .is_some_and(|last| last.part == OpenPart::Patterns)
        {
            return Ok(());
        }
        let is_after_word = self.front == Beginning::Further;
        let word = ShellWord {
            start: at,
            end: at,
            is_plain: true,
            is_call: false,
        };
        self.begin(alloc, ConstructKind::Paren, word, false)?;
        if let Some(last) = self.open.last_mut() {
            last.is_after_word = is_after_word;
        }
        Ok(())
    }

    /// Goes on after a parenthesis that closes. If a word is right before the one that opened, and
    /// nothing between them, the body of a function follows. With something between them it is the
    /// call of a macro, as `FOO(x)`.
    fn end_paren(&mut self, paren: &Compound) {
        if paren.is_after_word && paren.has_subject {
            self.front = Beginning::AfterCall;
        } else if paren.is_after_word {
            self.is_function = true;
            self.front = Beginning::Statement;
        }
    }

    /// Reads a parenthesis that closes: of a command, of a function, or after patterns.
    fn read_close_paren(&mut self, at: usize) {
        if let Some(last) = self.open.last_mut() {
            if last.part == OpenPart::Patterns {
                last.part = OpenPart::Body;
                last.at_close = at;
                self.front = Beginning::Statement;
                return;
            }
        }
        if let Some(paren) = self.take(ConstructKind::Paren) {
            self.end_paren(&paren);
        }
    }

    /// Reads a `;`. A second one after it ends a branch of a `case`.
    fn read_semicolon(&mut self, at: usize) -> Result<(), AllocError> {
        let first = at.saturating_sub(1);
        let is_second = at > 0 && self.semicolon == Some(first);
        self.semicolon = if is_second { None } else { Some(at) };
        self.front = Beginning::Statement;
        self.end_guard()?;
        if let Some(last) = self.open.last_mut() {
            if is_second && last.kind == ConstructKind::Case && last.part == OpenPart::Body {
                last.part = OpenPart::Patterns;
                last.cases.push(CaseBranch {
                    at_close: last.at_close,
                    end: first,
                })?;
            }
        }
        Ok(())
    }

    /// Reads `&` or `|`. If it is right after a `;`, a branch of a `case` goes on with the next
    /// one.
    fn read_joint(&mut self, at: usize) {
        let is_after_semicolon = at > 0 && self.semicolon == Some(at.saturating_sub(1));
        if let Some(last) = self.open.last_mut() {
            if is_after_semicolon
                && last.kind == ConstructKind::Case
                && last.part == OpenPart::Body
            {
                last.part = OpenPart::Patterns;
                last.is_allowed = false;
            }
        }
        self.semicolon = None;
        self.front = Beginning::Joined;
        self.join_guard(at);
    }

    /// Reads a newline. What is joined to the next command stays so.
    fn read_newline(&mut self) -> Result<(), AllocError> {
        self.semicolon = None;
        if self.front == Beginning::Joined
            || self.open.last().is_some_and(|last| last.kind == ConstructKind::Case
                && last.part == OpenPart::Head)
        {
            return Ok(());
        }
        self.front = Beginning::Statement;
        self.end_guard()
    }

    /// Reads a sign at an offset.
    pub(crate) fn read_sign(
        &mut self,
        alloc: Global,
        sign: Sign,
        at: usize,
    ) -> Result<(), AllocError> {
        match sign {
            Sign::Blank => {}
            Sign::Newline => self.read_newline()?,
            Sign::Semicolon => self.read_semicolon(at)?,
            Sign::Joint => self.read_joint(at),
            Sign::Redirection => {
                self.front = Beginning::Further;
                self.guard = None;
            }
            Sign::OpenParen => self.read_open_paren(alloc, at)?,
            Sign::CloseParen => self.read_close_paren(at),
        }
        Ok(())
    }
}
