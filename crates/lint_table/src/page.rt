//! What is wrong and what to do, put together from words and parts.

ghost use Rattle.std.specs.Prelude.{◌≡◌, ◌++◌, ◌∷◌, [], true, IfOk, OnOk, IsTrue};
ghost use Rattle.lint_findings.specs.Warned.{warning_of};
ghost use Rattle.lint_findings.specs.Within.{KeepsWithin};
ghost use Rattle.lint_findings.specs.declared.finding.Severity.TheVariants.{Error};
ghost use Rattle.lint_table.specs.Filling as words;
ghost use Rattle.lint_table.specs.Keys.{help_of, message_of, name_of};

use crate::filling::fill;
use crate::key::Key;
use crate::part::WordPart;
use deftable::Bytes;
use lint_findings::{Finding, Severity, Span, warn};
use std::alloc::{AllocError, Global};
use std::marker::Model;

/// What is wrong, in one line, and what to do, in any number of lines.
#[derive(Debug, Drop)]
pub struct Words {
    /// What is wrong.
    pub message: Bytes,
    /// What to do. If it is empty, there is no advice.
    pub help: Bytes,
}

/// A message and its help. If memory runs out, some of what is put is lost, and the page is not
/// whole.
pub struct Page {
    message: Vec<u8>,
    help: Vec<u8>,
    is_whole: bool,
}

impl Drop for Page {
    fn drop(self) {
        let Page {
            message: _message,
            help: _help,
            is_whole: _is_whole,
        } = self;
    }
}

impl Model for Page {
    ghost use Rattle.lint_table.specs.Filling.{Written};

    ghost Value = { Written };

    ghost view = { λ p. record { message = p.message.items; help = p.help.items; is_whole = p.is_whole } };
}

impl Page {
    /// Returns an empty page.
    pub fn new(alloc: Global) -> Page
        ensures { result ≡ record { message = []; help = []; is_whole = true } }
    {
        Page {
            message: Vec::new(alloc),
            help: Vec::new(alloc),
            is_whole: true,
        }
    }

    /// Adds what a key says to the message and to the help, with the parts in its places.
    pub fn put(&mut self, key: Key, parts: &[WordPart<'_>])
        // If the page is whole, it was whole, and nothing else was added.
        ensures whole { IsTrue self.new.is_whole → IsTrue self.old.is_whole }
        ensures message { IsTrue self.new.is_whole
            → self.new.message ≡ self.old.message ++ words.filled parts.now (message_of key) }
        ensures help { IsTrue self.new.is_whole
            → self.new.help ≡ self.old.help ++ words.filled parts.now (help_of key) }
    {
        let message = fill(&mut self.message, parts, key.message());
        let help = fill(&mut self.help, parts, key.help());
        self.is_whole = self.is_whole && message.is_ok() && help.is_ok();
    }

    /// Returns the words.
    ///
    /// # Errors
    ///
    /// Fails only if memory ran out when the page was written.
    pub fn words(self) -> Result<Words, AllocError>
        ensures whole { IfOk result (λ w. IsTrue self.is_whole) }
        ensures message { IfOk result (λ w. w.message ≡ self.message) }
        ensures help { IfOk result (λ w. w.help ≡ self.help) }
    {
        let Page {
            message,
            help,
            is_whole,
        } = self;
        if is_whole {
            Ok(Words {
                message: Bytes::from_vec(message),
                help: Bytes::from_vec(help),
            })
        } else {
            Err(AllocError)
        }
    }

    /// Returns the message alone.
    ///
    /// # Errors
    ///
    /// Fails only if memory ran out when the page was written.
    pub fn message(self) -> Result<Bytes, AllocError>
        ensures whole { IfOk result (λ _. IsTrue self.is_whole) }
        ensures message { IfOk result (λ message. message ≡ self.message) }
    {
        let Words {
            message,
            help: _help,
        } = self.words()?;
        Ok(message)
    }

    /// Returns the help alone.
    ///
    /// # Errors
    ///
    /// Fails only if memory ran out when the page was written.
    pub fn help(self) -> Result<Bytes, AllocError>
        ensures whole { IfOk result (λ _. IsTrue self.is_whole) }
        ensures help { IfOk result (λ help. help ≡ self.help) }
    {
        let Words {
            message: _message,
            help,
        } = self.words()?;
        Ok(help)
    }

    /// Returns an error of the source with these words, at a place.
    ///
    /// # Errors
    ///
    /// Fails only if memory ran out when the page was written.
    pub fn finding(self, code: Bytes, start: usize, end: usize) -> Result<Finding, AllocError>
        ensures file { IfOk result (λ finding. finding.file ≡ 0) }
        ensures start { IfOk result (λ finding. finding.start ≡ start) }
        ensures end { IfOk result (λ finding. finding.end ≡ end) }
        ensures severity { IfOk result (λ finding. finding.severity ≡ Error) }
        ensures code { IfOk result (λ finding. finding.code ≡ code) }
        ensures message { IfOk result (λ finding. finding.message ≡ self.message) }
        ensures help { IfOk result (λ finding. finding.help ≡ self.help) }
    {
        let Words { message, help } = self.words()?;
        Ok(Finding {
            file: 0,
            start,
            end,
            severity: Severity::Error,
            code,
            message,
            help,
        })
    }

    /// Adds a warning with these words about a part of a file with this text, as [`warn`] does.
    ///
    /// # Errors
    ///
    /// Fails only if memory runs out, or ran out when the page was written.
    pub fn warn(
        self,
        alloc: Global,
        out: &mut Vec<Finding>,
        text: &[u8],
        span: Span,
        code: &[u8],
    ) -> Result<(), AllocError>
        ensures whole { OnOk result (IsTrue self.is_whole) }
        // The findings stay as they were, and after them is the warning.
        ensures added { OnOk result (
            out.new.items ≡ out.old.items
            ++ (warning_of text.now span code.now self.message self.help ∷ [])) }
        // If the findings of this file were in its text, they still are.
        ensures within { OnOk result (KeepsWithin span.file text.now out.old.items out.new.items) }
    {
        let words = self.words()?;
        warn_in(alloc, out, text, span, code, &words)
    }
}

/// Adds a warning with these words.
fn warn_in(
    alloc: Global,
    out: &mut Vec<Finding>,
    text: &[u8],
    span: Span,
    code: &[u8],
    words: &Words,
) -> Result<(), AllocError>
    ensures added { OnOk result (
        out.new.items ≡ out.old.items
        ++ (warning_of text.now span code.now words.now.message words.now.help ∷ [])) }
    ensures within { OnOk result (KeepsWithin span.file text.now out.old.items out.new.items) }
{
    let message = words.message.as_slice();
    warn(alloc, out, text, span, code, message, words.help.as_slice())
}

/// Adds the warning of a key about a part of a file with this text, as [`warn`] does. Its code is
/// the name of the key.
///
/// # Errors
///
/// Fails only if memory runs out.
pub fn warn_by_key(
    alloc: Global,
    out: &mut Vec<Finding>,
    text: &[u8],
    span: Span,
    key: Key,
    parts: &[WordPart<'_>],
) -> Result<(), AllocError>
    // The findings stay as they were, and after them is the warning with the words of the key.
    ensures added { OnOk result (
        out.new.items ≡ out.old.items
        ++ (warning_of text.now span (name_of key) (words.filled parts.now (message_of key))
        (words.filled parts.now (help_of key))
        ∷ [])) }
    // If the findings of this file were in its text, they still are.
    ensures within { OnOk result (KeepsWithin span.file text.now out.old.items out.new.items) }
{
    let mut page = Page::new(alloc);
    page.put(key, parts);
    page.warn(alloc, out, text, span, key.name())
}
