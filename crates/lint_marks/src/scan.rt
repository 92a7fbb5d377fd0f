//! What m4 and a shell have open at a place.

ghost use Rattle.std.specs.Prelude.{◌≡◌};
ghost use Rattle.lint_marks.specs.Marks as specs;

use crate::quotes::Quotes;
use shell_bare::{BareContext, after_quoted, escapes, following};

/// What a shell has open at a place.
#[derive(Clone, Copy)]
pub struct ShellState {
    /// The quotes, the comment or the word that the place is in.
    pub place: BareContext,
    /// Whether a backslash quotes the next byte.
    pub is_escaped: bool,
}

impl ShellState {
    /// Returns what is open at the start of a statement.
    pub fn new() -> ShellState
        ensures { result ≡ specs.begun }
    {
        ShellState {
            place: BareContext::Start,
            is_escaped: false,
        }
    }

    /// Returns what is open after a byte that a backslash quotes.
    fn after_escaped(self, byte: u8) -> ShellState
        ensures { result ≡ specs.after_escaped self byte }
    {
        let place = if byte == b'\n' {
            self.place
        } else {
            after_quoted(self.place)
        };
        ShellState {
            place,
            is_escaped: false,
        }
    }

    /// Returns whether a word may begin here: the place is in no quotes, no comment and no word.
    pub fn is_start(self) -> bool
        ensures { result ≡ specs.is_start self }
    {
        !self.is_escaped && matches!(self.place, BareContext::Start)
    }

    /// Returns whether the place is in no quotes and no comment, and no backslash is before it.
    pub fn is_bare(self) -> bool
        ensures { result ≡ specs.is_bare self }
    {
        !self.is_escaped && matches!(self.place, BareContext::Start | BareContext::Word)
    }

    /// Returns whether a quote is open.
    pub fn is_quoted(self) -> bool
        ensures { result ≡ specs.is_quote self.place }
    {
        matches!(self.place, BareContext::Single | BareContext::Double)
    }

    /// Returns what is open after a byte that the shell sees.
    pub fn after(self, byte: u8) -> ShellState
        ensures { result ≡ specs.shell_after self byte }
    {
        if self.is_escaped {
            return self.after_escaped(byte);
        }
        if byte == b'\\' && escapes(self.place) {
            return ShellState {
                place: self.place,
                is_escaped: true,
            };
        }
        ShellState {
            place: following(self.place, byte),
            is_escaped: false,
        }
    }
}

/// What m4 and a shell have open at a place.
#[derive(Clone, Copy)]
pub struct Scan {
    /// What m4 has open.
    pub quotes: Quotes,
    /// What the shell has open.
    pub shell: ShellState,
}

impl Scan {
    /// Returns what is open at the start of a text.
    pub fn new() -> Scan
        ensures { result ≡ specs.start }
    {
        Scan {
            quotes: Quotes::new(),
            shell: ShellState::new(),
        }
    }

    /// Returns whether the shell doesn't see the first byte of the text at this place: the line is
    /// dropped, or it is a bracket that m4 removes.
    pub fn is_unseen(self, byte: u8, text: &[u8]) -> bool
        ensures { result ≡ specs.is_unseen self byte text.now }
    {
        self.quotes.is_removed(byte, text)
    }

    /// Returns what the shell has open after the first byte of the text at this place.
    fn shell_after(self, byte: u8, text: &[u8]) -> ShellState
        ensures { result ≡ specs.seen self byte text.now }
    {
        if self.is_unseen(byte, text) {
            self.shell
        } else {
            self.shell.after(byte)
        }
    }

    /// Returns what is open after the first byte of the text that begins at this place.
    pub fn after(self, text: &[u8]) -> Scan
        ensures { result ≡ specs.after self text.now }
    {
        match text {
            [] => self,
            [byte, ..] => Scan {
                quotes: self.quotes.after(text),
                shell: self.shell_after(*byte, text),
            },
        }
    }

    /// Goes past the first byte of the text that begins at this place.
    pub fn read(&mut self, text: &[u8])
        ensures { self.new ≡ specs.after self.old text.now }
    {
        *self = self.after(text);
    }

    /// Goes past a call, before which a quote of the shell that is still open is an error. The call
    /// is a part of a word.
    pub fn pass_call(&mut self)
        ensures { self.new ≡ specs.after_call self.old }
    {
        self.quotes.is_name = false;
        self.shell = ShellState {
            place: BareContext::Word,
            is_escaped: false,
        };
    }

    /// Goes on at the start of a statement of the shell. What m4 has open stays so.
    pub fn begin_statement(&mut self)
        ensures { self.new ≡ specs.at_statement self.old }
    {
        self.quotes.is_name = false;
        self.shell = ShellState::new();
    }
}
