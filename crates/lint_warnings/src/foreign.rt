//! Names of macros in arguments that are text.

use crate::extent::{NamedCall, bare, span_of};
use ac_calls::Extent;
use ac_macros::ArgumentKind;
use bstr::ByteSlice;
use lint_findings::Finding;
use lint_macros::{Index, MacroKind};
use lint_table::{Page, WordPart, keys};
use lint_text::{before, from, is_word_byte, part};
use std::alloc::{AllocError, Global};

/// The macro that may be in an argument with help.
const HELP: &[u8] = b"AS_HELP_STRING";

/// Returns whether a word begins as the names of macros do.
fn has_front(word: &[u8]) -> bool {
    let is_named = word.starts_with(b"AC_")
        || word.starts_with(b"AS_")
        || word.starts_with(b"AM_")
        || word.starts_with(b"m4_");
    is_named && word.len() > 3
}

/// Returns whether the table has an entry for this word alone.
fn is_in_table(alloc: Global, index: &Index, word: &[u8]) -> Result<bool, AllocError> {
    match index.entry_of(alloc, word)? {
        Some(entry) => Ok(!matches!(entry.kind, MacroKind::Family)),
        None => Ok(false),
    }
}

/// Returns whether a word is the name of a macro: a word without `_` is none, though the table has an
/// entry for some, such as GCC.
fn is_macro(alloc: Global, index: &Index, word: &[u8]) -> Result<bool, AllocError> {
    if has_front(word) {
        return Ok(true);
    }
    if !word.contains(&b'_') {
        return Ok(false);
    }
    is_in_table(alloc, index, word)
}

/// What is open at a place of an argument.
#[derive(Clone, Copy)]
struct Opened {
    /// The brackets.
    depth: usize,
    /// Whether a comment of m4 is open: a `#` that isn't in too many brackets is before the place on
    /// its line.
    is_comment: bool,
}

impl Opened {
    /// Returns what is open after a byte. A `#` in more brackets than these begins no comment.
    fn after(self, byte: u8, most: usize) -> Opened {
        let begins = byte == b'#' && self.depth <= most;
        let opened = self.depth.saturating_add(usize::from(byte == b'['));
        Opened {
            depth: opened.saturating_sub(usize::from(byte == b']')),
            is_comment: byte != b'\n' && (self.is_comment || begins),
        }
    }

    /// Returns whether a word here is read as text, and as a macro by Autoconf, if it isn't the name
    /// of a variable: it isn't in more brackets than these, and in no comment.
    fn expands(self, most: usize) -> bool {
        self.depth <= most && !self.is_comment
    }
}

/// Returns whether the name of a variable is after a text.
fn precedes_variable(front: &[u8]) -> bool {
    front.ends_with(b"$") || front.ends_with(b"${")
}

/// Returns the first name of a macro in an argument that Autoconf expands, by its offset, but for
/// one that is this. A name in more brackets than these is none.
fn first_macro(
    alloc: Global,
    index: &Index,
    argument: &[u8],
    most: usize,
    but: &[u8],
) -> Result<Option<(usize, usize)>, AllocError> {
    let mut at: usize = 0;
    let mut opened = Opened {
        depth: 0,
        is_comment: false,
    };
    for word in argument.split(|byte| !is_word_byte(*byte)) {
        if !word.is_empty()
            && word != but
            && opened.expands(most)
            && !precedes_variable(before(argument, at))
            && is_macro(alloc, index, word)?
        {
            return Ok(Some((at, word.len())));
        }
        at = at.saturating_add(word.len());
        if let Some(byte) = argument.get(at) {
            opened = opened.after(*byte, most);
        }
        at = at.saturating_add(1);
    }
    Ok(None)
}

/// Returns the first name of a macro in an argument that Autoconf expands.
fn macro_in(
    alloc: Global,
    index: &Index,
    argument: &[u8],
) -> Result<Option<(usize, usize)>, AllocError> {
    // The name of each macro has a `_`.
    if argument.find_byte(b'_').is_none() {
        return Ok(None);
    }
    if bare(argument).starts_with(HELP) {
        return first_macro(alloc, index, argument, 2, HELP);
    }
    first_macro(alloc, index, argument, 1, b"")
}

/// The macros that Autoconf replaces by what AC_INIT says. A variable has each without its `AC_`.
#[rattlefmt::skip]
const PACKAGE: [&[u8]; 6] = [
    b"AC_PACKAGE_NAME", b"AC_PACKAGE_TARNAME", b"AC_PACKAGE_VERSION", b"AC_PACKAGE_STRING",
    b"AC_PACKAGE_BUGREPORT", b"AC_PACKAGE_URL",
];

/// Writes what to do about the name of a macro in a text of a call.
fn put_help(page: &mut Page, call: &[u8], word: &[u8]) {
    let variable = WordPart::AsItIs(from(word, 3));
    if word == b"AC_HELP_STRING".as_slice() {
        page.put(keys::WRITE_HELP_STRING, &[]);
    } else if !PACKAGE.iter().any(|name| *name == word) {
        page.put(keys::WRITE_TEXT, &[]);
    } else if call == b"AC_DEFINE".as_slice() {
        page.put(keys::WRITE_IN_UNQUOTED, &[variable]);
    } else {
        page.put(keys::WRITE_VARIABLE, &[variable]);
    }
}

/// Warns if an argument of a call that is text has the name of a macro.
fn warn_of_text(
    alloc: Global,
    index: &Index,
    call: NamedCall<'_>,
    extent: Extent,
    out: &mut Vec<Finding>,
) -> Result<(), AllocError> {
    let text = call.text;
    let argument = part(text, extent.start, extent.end);
    let Some((at, length)) = macro_in(alloc, index, argument)? else {
        return Ok(());
    };
    let start = extent.start.saturating_add(at);
    let end = start.saturating_add(length);
    let mut page = Page::new(alloc);
    page.put(keys::MACRO_IN_TEXT, &[]);
    put_help(&mut page, call.name, part(text, start, end));
    let span = span_of(Extent { start, end });
    page.warn(alloc, out, text, span, keys::MACRO_IN_TEXT.name())
}

/// Returns whether an argument of this kind is text, in which Autoconf expands macros.
fn is_text(kind: ArgumentKind) -> bool {
    matches!(
        kind,
        ArgumentKind::Title
            | ArgumentKind::ArchiveName
            | ArgumentKind::Value
            | ArgumentKind::Definition
            | ArgumentKind::Description
            | ArgumentKind::Message
            | ArgumentKind::Help
            | ArgumentKind::VariableHelp
            | ArgumentKind::FoundValue
            | ArgumentKind::OtherValue
    )
}

/// Warns if an argument of this kind is text and has the name of a macro.
pub(crate) fn warn_of_macro(
    alloc: Global,
    index: &Index,
    call: NamedCall<'_>,
    kind: ArgumentKind,
    extent: Extent,
    out: &mut Vec<Finding>,
) -> Result<(), AllocError> {
    if is_text(kind) {
        return warn_of_text(alloc, index, call, extent, out);
    }
    Ok(())
}
