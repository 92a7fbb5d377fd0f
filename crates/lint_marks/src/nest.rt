//! What a shell has open at a place, with quotes and substitutions that nest.

ghost use Rattle.std.specs.Prelude.{◌≡◌, [], ◌∷◌, OnOk};
ghost use Rattle.lint_marks.specs.Nests as specs;
ghost use Rattle.lint_marks.specs.Nested.{after_comment};

use crate::nest_list::NestList;
use crate::nesting::{NestPlace, change_at, escapes};
use std::alloc::{AllocError, Global};

/// What a shell has open at a place: what a byte of a word may be in, and where the place is there.
#[derive(Drop)]
pub struct ShellNest {
    /// The quotes and substitutions that are open, innermost first.
    pub nested: NestList,
    /// Where the place is in the innermost.
    pub place: NestPlace,
    /// Whether a backslash quotes the next byte.
    pub is_escaped: bool,
    /// Whether the byte before the place is a `$` that nothing quotes.
    pub is_dollar: bool,
}

impl ShellNest {
    /// Returns what is open at the start of a text.
    pub fn new(alloc: Global) -> ShellNest
        ensures { result ≡ specs.no_nest }
    {
        ShellNest {
            nested: NestList::new(alloc),
            place: NestPlace::Start,
            is_escaped: false,
            is_dollar: false,
        }
    }

    /// Returns whether a command may have its words here: the place is in no quotes, no substitution
    /// and no comment, and no backslash is before it.
    pub fn is_bare(&self) -> bool
        ensures { result ≡ specs.is_bare self.now }
    {
        self.nested.is_closed() && !self.is_escaped && !self.place.is_comment()
    }

    /// Goes to another place.
    pub(crate) fn move_to(&mut self, place: NestPlace)
        ensures { self.new ≡ specs.moved self.old place }
    {
        self.place = place;
        self.is_escaped = false;
        self.is_dollar = false;
    }

    /// Goes past a byte of a comment.
    fn read_comment(&mut self, byte: u8)
        ensures { self.new ≡ specs.moved self.old (after_comment byte) }
    {
        self.move_to(if byte == b'\n' {
            NestPlace::Start
        } else {
            NestPlace::Comment
        });
    }

    /// Goes past a backslash that quotes the next byte.
    fn read_backslash(&mut self)
        ensures { self.new ≡ specs.after_backslash self.old }
    {
        self.is_escaped = true;
        self.is_dollar = false;
    }

    /// Goes past a byte that no backslash quotes, outside comments.
    fn read_plain(&mut self, byte: u8) -> Result<(), AllocError>
        ensures { OnOk result (self.new ≡ specs.after_plain self.old byte) }
    {
        let inner = self.nested.innermost();
        let change = change_at(inner, byte, self.is_dollar);
        let place = self.place.after(change, inner, byte);
        self.nested.apply(change)?;
        self.place = place;
        self.is_escaped = false;
        self.is_dollar = byte == b'$';
        Ok(())
    }

    /// Goes past a byte that the shell sees.
    ///
    /// # Errors
    ///
    /// Fails if memory runs out.
    pub fn read(&mut self, byte: u8) -> Result<(), AllocError>
        ensures { OnOk result (self.new ≡ specs.nest_after self.old byte) }
    {
        if self.is_escaped {
            self.move_to(self.place.after_quoted(byte));
            return Ok(());
        }
        if self.place.is_comment() {
            self.read_comment(byte);
            return Ok(());
        }
        if byte == b'\\' && escapes(self.nested.innermost()) {
            self.read_backslash();
            return Ok(());
        }
        self.read_plain(byte)
    }
}
