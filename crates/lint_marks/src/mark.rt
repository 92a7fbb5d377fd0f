//! The marks of a text.

ghost use Rattle.std.specs.Prelude.{◌≡◌, IfOk, OnOk};
ghost use Rattle.lint_marks.specs.Heres.{is_here};
ghost use Rattle.lint_marks.specs.Marks as specs;

use crate::heres::{HereTexts, begins_here};
use crate::nest::ShellNest;
use crate::nesting::{NestPlace, Nesting};
use crate::quotes::{QuotePart, Quotes};
use std::alloc::{AllocError, Global};

/// What a place is in. If it is in a comment of m4 and in quotes of the shell, it is in a comment.
#[derive(Clone, Copy)]
pub enum MarkKind {
    /// A line that m4 drops.
    Dropped,
    /// A here-document of the shell.
    Here,
    /// A comment of m4 or of the shell.
    Comment,
    /// The place is after a backslash that quotes the next byte.
    Escaped,
    /// Nothing: a word of the shell may begin here.
    Start,
    /// A word of the shell, outside quotes.
    Word,
    /// Single quotes of the shell.
    Single,
    /// Double quotes of the shell.
    Double,
    /// Backquotes of the shell, or what `$(` or `${` begins.
    Substitution,
}

/// What is open at a place.
#[derive(Clone, Copy)]
pub struct Mark {
    /// The number of m4's brackets that are open, which is counted up to 255.
    pub depth: u8,
    /// What the place is in.
    pub kind: MarkKind,
}

/// Returns what a word has open.
fn kind_of_nesting(nesting: Nesting) -> MarkKind
    ensures { result ≡ specs.kind_of_nesting nesting }
{
    match nesting {
        Nesting::Single => MarkKind::Single,
        Nesting::Double => MarkKind::Double,
        Nesting::Back => MarkKind::Substitution,
        Nesting::Paren => MarkKind::Substitution,
        Nesting::Brace => MarkKind::Substitution,
    }
}

/// Returns what a place outside quotes and substitutions is in.
fn kind_of_place(place: NestPlace) -> MarkKind
    ensures { result ≡ specs.kind_of_place place }
{
    match place {
        NestPlace::Start => MarkKind::Start,
        NestPlace::Word => MarkKind::Word,
        NestPlace::Comment => MarkKind::Comment,
    }
}

/// Returns what a place is in that is in no comment.
fn kind_within(inner: Option<Nesting>, place: NestPlace) -> MarkKind
    ensures { result ≡ specs.kind_within inner place }
{
    match inner {
        None => kind_of_place(place),
        Some(nesting) => kind_of_nesting(nesting),
    }
}

/// Returns what a place of text is in.
fn kind_of_shell(shell: &ShellNest) -> MarkKind
    ensures { result ≡ specs.kind_of_shell shell.now }
{
    if shell.is_escaped {
        MarkKind::Escaped
    } else if shell.place.is_comment() {
        MarkKind::Comment
    } else {
        kind_within(shell.nested.innermost(), shell.place)
    }
}

/// What is open at a place, with the here-documents that are to come.
#[derive(Drop)]
pub struct TextScan {
    /// What m4 has open.
    pub quotes: Quotes,
    /// What the shell has open.
    pub shell: ShellNest,
    /// The here-documents.
    pub heres: HereTexts,
}

impl TextScan {
    /// Returns what is open at the start of a text.
    pub fn new(alloc: Global) -> TextScan
        ensures { result ≡ specs.text_start }
    {
        TextScan {
            quotes: Quotes::new(),
            shell: ShellNest::new(alloc),
            heres: HereTexts::new(),
        }
    }

    /// Returns whether a command may have its words here: the place is in no quotes, no
    /// substitution, no comment and no here-document, and no backslash is before it.
    pub fn is_outside(&self) -> bool
        ensures { result ≡ specs.is_outside_all self.now }
    {
        self.shell.is_bare() && !self.heres.is_here()
    }

    /// Returns whether the place is in a here-document.
    pub fn is_here(&self) -> bool
        ensures { result ≡ is_here self.now.heres }
    {
        self.heres.is_here()
    }

    /// Returns whether the place is in a comment of the shell that is in no substitution.
    pub fn is_comment(&self) -> bool
        ensures { result ≡ specs.is_outer_comment self.now }
    {
        self.shell.nested.is_closed() && self.shell.place.is_comment() && !self.heres.is_here()
    }

    /// Returns whether the `<<` of a here-document is at the front of a text.
    fn starts_here(&self, byte: u8, text: &[u8]) -> bool
        ensures { result ≡ specs.starts_here self.now byte text.now }
    {
        self.shell.is_bare() && begins_here(text) && !self.quotes.is_removed(byte, text)
    }

    /// Returns the here-documents after a byte that is in none.
    fn heres_after(&self, alloc: Global, byte: u8, text: &[u8]) -> Result<HereTexts, AllocError>
        ensures { IfOk result (λ h. h ≡ specs.heres_after self.now byte text.now) }
    {
        if self.starts_here(byte, text) {
            let heres = self.heres.with(alloc, text)?;
            return Ok(heres.past(1));
        }
        Ok(self.heres.past(1))
    }

    /// Goes past a byte that the shell sees, unless m4 takes it away.
    fn read_shell(&mut self, byte: u8, text: &[u8]) -> Result<(), AllocError>
        ensures shell { OnOk result (self.new.shell ≡ specs.nest_seen self.old byte text.now) }
        ensures quotes { OnOk result (self.new.quotes ≡ self.old.quotes) }
        ensures heres { OnOk result (self.new.heres ≡ self.old.heres) }
    {
        if self.quotes.is_removed(byte, text) {
            return Ok(());
        }
        self.shell.read(byte)?;
        Ok(())
    }

    /// Goes past a byte that is in no here-document.
    fn read_seen(&mut self, alloc: Global, byte: u8, text: &[u8]) -> Result<(), AllocError>
        ensures { OnOk result (self.new ≡ specs.after_seen self.old byte text.now) }
    {
        let heres = self.heres_after(alloc, byte, text)?;
        self.read_shell(byte, text)?;
        self.heres = heres;
        self.quotes = self.quotes.after(text);
        Ok(())
    }

    /// Goes past a byte of a here-document, of which the shell reads no words.
    fn read_here(&mut self, text: &[u8])
        ensures { self.new ≡ specs.after_here self.old text.now }
    {
        self.heres = self.heres.past(1);
        self.quotes = self.quotes.after(text);
    }

    /// Goes past the first byte of the text that begins at this place.
    ///
    /// # Errors
    ///
    /// Fails if memory runs out.
    pub fn read(&mut self, alloc: Global, text: &[u8]) -> Result<(), AllocError>
        ensures { OnOk result (self.new ≡ specs.text_after self.old text.now) }
    {
        match text {
            [] => Ok(()),
            [byte, ..] => {
                if self.heres.is_here() {
                    self.read_here(text);
                    return Ok(());
                }
                self.read_seen(alloc, *byte, text)
            }
        }
    }

    /// Goes past a call of this many bytes. A comment may begin after it.
    pub fn pass_call(&mut self, len: usize)
        ensures { self.new ≡ specs.text_after_call len self.old }
    {
        self.quotes.is_name = false;
        self.shell.move_to(NestPlace::Start);
        self.heres = self.heres.past(len);
    }

    /// Returns what a place of text is in.
    fn kind_of_text(&self) -> MarkKind
        ensures { result ≡ specs.kind_of_text self.now }
    {
        if self.heres.is_here() {
            MarkKind::Here
        } else {
            kind_of_shell(&self.shell)
        }
    }

    /// Returns what a place is in.
    fn kind(&self) -> MarkKind
        ensures { result ≡ specs.kind_of self.now }
    {
        match self.quotes.part {
            QuotePart::Text => self.kind_of_text(),
            QuotePart::Comment => MarkKind::Comment,
            QuotePart::Dropped => MarkKind::Dropped,
        }
    }

    /// Returns the mark of a place at which this is open.
    pub fn mark(&self) -> Mark
        ensures { result ≡ specs.mark_of self.now }
    {
        Mark {
            depth: self.quotes.depth,
            kind: self.kind(),
        }
    }
}

/// Returns what is open at the place before each byte of a text.
pub fn marks_of(alloc: Global, text: &[u8]) -> Result<Vec<Mark>, AllocError>
    ensures exact { IfOk result (λ v. v.items ≡ specs.marks_of text.now) }
{
    let mut marks = Vec::with_capacity(alloc, text.len())?;
    let mut scan = TextScan::new(alloc);
    for i in 0..text.len() {
        marks.push(scan.mark())?;
        scan.read(alloc, &text[i..])?;
    }
    Ok(marks)
}
