//! Words that a shell reads otherwise, with no sign of it.

use crate::extent::{NamedCall, span_of};
use crate::lines::put_lines;
use ac_calls::Extent;
use ac_macros::ArgumentKind;
use deftable::is_shell_name;
use lint_findings::Finding;
use lint_marks::ShellState;
use lint_table::{Key, Page, WordPart, keys, warn_by_key};
use lint_text::{first_name, from, is_word_byte, part};
use shell_bare::{BareContext, is_part_end};
use std::alloc::{AllocError, Global};

/// What a byte of the source is a part of.
#[derive(Clone, Copy, PartialEq, Eq)]
enum Role {
    /// Text that is no words of a shell.
    Other,
    /// Statements.
    Statements,
    /// A test.
    Test,
    /// The value of a variable.
    Value,
}

/// Returns what the bytes of an argument of this kind are parts of.
fn role_of(kind: Option<ArgumentKind>) -> Role {
    match kind {
        Some(ArgumentKind::Statements) => Role::Statements,
        Some(ArgumentKind::Test) => Role::Test,
        Some(ArgumentKind::Value) => Role::Value,
        _ => Role::Other,
    }
}

/// Sets what the bytes between two offsets are parts of.
fn fill(roles: &mut [Role], start: usize, end: usize, role: Role) {
    let end = end.min(roles.len());
    if start < end {
        roles[start..end].fill(role);
    }
}

/// What the bytes of a source are parts of.
#[derive(Drop)]
struct Roles {
    /// That of each byte, but for those that are passed over.
    of_bytes: Vec<Role>,
    /// The calls without words of a shell, in order. They are passed over.
    passed: Vec<Extent>,
}

/// Returns whether an argument of a call has words of a shell.
fn has_words(call: NamedCall<'_>) -> bool {
    for index in 0..call.at.args.len() {
        if role_of(call.kind(index)) != Role::Other {
            return true;
        }
    }
    false
}

/// Sets what the bytes of a call are parts of.
fn fill_call(roles: &mut [Role], call: NamedCall<'_>) {
    fill(roles, call.at.start, call.at.end, Role::Other);
    for (index, arg) in call.at.args.iter().enumerate() {
        let role = role_of(call.kind(index));
        if role != Role::Other {
            fill(roles, arg.start, arg.end, role);
        }
    }
}

/// Returns what the bytes of a source with these calls are parts of.
fn roles_of(alloc: Global, text: &[u8], calls: &[NamedCall<'_>]) -> Result<Roles, AllocError> {
    let mut of_bytes = vec![in alloc; Role::Statements; text.len()]?;
    let mut passed = Vec::new(alloc);
    for call in calls {
        if has_words(*call) {
            fill_call(&mut of_bytes, *call);
        } else {
            passed.push(Extent {
                start: call.at.start,
                end: call.at.end,
            })?;
        }
    }
    Ok(Roles { of_bytes, passed })
}

/// A walk over the bytes of a source.
#[derive(Clone, Copy)]
struct WordWalk {
    role: Role,
    /// What the shell has open at the byte.
    shell: ShellState,
    /// The offset at which the word begins.
    begin: usize,
    /// Whether the word is that of a test.
    is_test: bool,
    /// Whether the byte is in the value of a variable.
    is_value: bool,
    /// Whether a shell replaces a `~` at this place.
    is_front: bool,
}

impl WordWalk {
    /// Returns the walk at the first byte of a text.
    fn new(role: Role) -> WordWalk {
        WordWalk {
            role,
            shell: ShellState::new(),
            begin: 0,
            is_test: role == Role::Test,
            is_value: role == Role::Value,
            is_front: role == Role::Value || role == Role::Test,
        }
    }

    /// Returns whether the byte is outside quotes and comments.
    fn is_bare(&self) -> bool {
        matches!(self.shell.place, BareContext::Start | BareContext::Word)
    }

    /// Returns whether the byte is in a word, in quotes or in a comment, and no backslash is before
    /// it. There a letter, a digit or `_` opens and closes nothing.
    fn is_within(&self) -> bool {
        !self.shell.is_escaped && !matches!(self.shell.place, BareContext::Start)
    }

    /// Begins a word at an offset.
    fn begin_word(&mut self, at: usize) {
        self.begin = at;
        self.is_value = self.role == Role::Value;
        self.is_front = self.is_value || self.is_test;
    }

    /// Ends the word before a byte that ends one.
    fn end_word(&mut self, text: &[u8], at: usize, byte: u8) {
        if self.role != Role::Statements {
            return;
        }
        if matches!(byte, b'\n' | b';' | b'&' | b'|') {
            self.is_test = false;
        } else if part(text, self.begin, at) == b"test".as_slice() {
            self.is_test = true;
        }
    }

    /// Goes on after a byte that is no blank and in no quotes.
    fn pass_bare(&mut self, text: &[u8], at: usize, byte: u8) {
        let may_begin = byte == b'=' && !self.is_value && self.role == Role::Statements;
        let begins = may_begin && is_shell_name(part(text, self.begin, at));
        self.is_value |= begins;
        self.is_front = begins || byte == b':' && self.is_value;
    }
}

/// What is found in a source.
#[derive(Drop)]
struct FoundWords {
    /// The first `~` that a shell replaces.
    tilde: Option<usize>,
    /// The first `$` before a quote.
    dollar: Option<usize>,
    /// The words of tests that are variables alone.
    words: Vec<Extent>,
}

/// Returns the length of the variable that a text begins with, or 0.
fn variable_len(text: &[u8]) -> usize {
    let name = match text {
        [b'$', b'{', rest @ ..] => first_name(rest),
        [b'$', rest @ ..] => return first_name(rest).len().saturating_add(1),
        _ => return 0,
    };
    name.len().saturating_add(3)
}

/// How many variables of one word are looked at.
const MOST: usize = 64;

/// Returns the length of the variables that a text begins with.
fn variables_len(text: &[u8]) -> usize {
    let mut len: usize = 0;
    for _ in 0..MOST {
        let more = variable_len(from(text, len));
        if more == 0 {
            return len;
        }
        len = len.saturating_add(more);
    }
    len
}

/// Returns whether a byte ends a word of a test.
fn ends_word(byte: u8) -> bool {
    is_part_end(byte) || matches!(byte, b'&' | b'|' | b']' | b')')
}

/// Appends the word of a test that begins at an offset, if it is variables alone. The text ends
/// with the test.
fn push_word(text: &[u8], at: usize, out: &mut Vec<Extent>) -> Result<(), AllocError> {
    let len = variables_len(from(text, at));
    let end = at.saturating_add(len);
    let is_end = match from(text, end).first() {
        Some(byte) => ends_word(*byte),
        None => true,
    };
    if len > 1 && is_end {
        out.push(Extent { start: at, end })?;
    }
    Ok(())
}

/// Returns whether a quote is after the byte at an offset.
fn is_before_quote(text: &[u8], at: usize) -> bool {
    let rest = from(text, at.saturating_add(1));
    rest.starts_with(b"'") || rest.starts_with(b"\"")
}

/// Reads a byte that is in no quotes, and before which there is no backslash.
fn read_bare(
    text: &[u8],
    at: usize,
    byte: u8,
    walk: &mut WordWalk,
    found: &mut FoundWords,
) -> Result<(), AllocError> {
    if walk.shell.is_start() {
        walk.begin_word(at);
        if walk.is_test {
            push_word(text, at, &mut found.words)?;
        }
    }
    if byte == b'~' && walk.is_front && found.tilde.is_none() {
        found.tilde = Some(at);
    }
    if byte == b'$' && found.dollar.is_none() && is_before_quote(text, at) {
        found.dollar = Some(at);
    }
    if ends_word(byte) {
        walk.end_word(text, at, byte);
    } else {
        walk.pass_bare(text, at, byte);
    }
    Ok(())
}

/// Returns whether the line from an offset on is one that m4 drops.
fn is_dropped(text: &[u8], at: usize, walk: &WordWalk) -> bool {
    let rest = from(text, at);
    walk.shell.is_start() && rest.starts_with(b"dnl") && first_name(rest).len() == 3
}

/// Returns whether m4 drops a byte, which is a bracket.
fn is_bracket(byte: u8, walk: &WordWalk) -> bool {
    matches!(byte, b'[' | b']') && !matches!(walk.shell.place, BareContext::Comment)
}

/// Reads the byte at an offset.
fn read_byte(
    text: &[u8],
    at: usize,
    byte: u8,
    walk: &mut WordWalk,
    found: &mut FoundWords,
) -> Result<(), AllocError> {
    if walk.is_within() && is_word_byte(byte) {
        walk.is_front = walk.is_front && !walk.is_bare();
        return Ok(());
    }
    if walk.shell.is_escaped {
        walk.is_front = false;
    } else if is_bracket(byte, walk) {
        return Ok(());
    } else if is_dropped(text, at, walk) {
        walk.shell.place = BareContext::Comment;
        return Ok(());
    } else if walk.is_bare() {
        read_bare(text, at, byte, walk, found)?;
    }
    walk.shell = walk.shell.after(byte);
    Ok(())
}

/// Reads the byte at an offset, which is a part of this.
fn read_in_role(
    text: &[u8],
    at: usize,
    byte: u8,
    role: Role,
    walk: &mut WordWalk,
    found: &mut FoundWords,
) -> Result<(), AllocError> {
    if role != walk.role {
        *walk = WordWalk::new(role);
    }
    if role == Role::Other {
        return Ok(());
    }
    read_byte(text, at, byte, walk, found)
}

/// Returns the offset after a call that is passed over, if one of them begins at an offset.
fn end_of_passed(passed: &[Extent], index: usize, at: usize) -> Option<usize> {
    let extent = passed.get(index)?;
    if extent.start == at {
        Some(extent.end)
    } else {
        None
    }
}

/// Returns what is found in a source, of whose bytes it is known what they are parts of.
fn found_in(alloc: Global, text: &[u8], roles: &Roles) -> Result<FoundWords, AllocError> {
    let mut found = FoundWords {
        tilde: None,
        dollar: None,
        words: Vec::new(alloc),
    };
    let mut walk = WordWalk::new(Role::Other);
    let mut at: usize = 0;
    let mut index: usize = 0;
    for _ in 0..text.len() {
        if let Some(end) = end_of_passed(roles.passed.as_slice(), index, at) {
            walk = WordWalk::new(Role::Other);
            index = index.saturating_add(1);
            at = end;
        } else {
            let (Some(byte), Some(role)) = (text.get(at), roles.of_bytes.get(at)) else {
                return Ok(found);
            };
            read_in_role(text, at, *byte, *role, &mut walk, &mut found)?;
            at = at.saturating_add(1);
        }
    }
    Ok(found)
}

/// Warns of the byte at an offset, if there is one, and of the one after it.
fn warn_at(
    alloc: Global,
    text: &[u8],
    place: Option<usize>,
    len: usize,
    key: Key,
    out: &mut Vec<Finding>,
) -> Result<(), AllocError> {
    let Some(start) = place else {
        return Ok(());
    };
    let end = start.saturating_add(len);
    warn_by_key(alloc, out, text, span_of(Extent { start, end }), key, &[])
}

/// Warns of the words of tests that are variables alone, at the first of them.
fn warn_of_test_words(
    alloc: Global,
    text: &[u8],
    words: &[Extent],
    out: &mut Vec<Finding>,
) -> Result<(), AllocError> {
    let Some(first) = words.first() else {
        return Ok(());
    };
    let word = part(text, first.start, first.end);
    let mut page = Page::new(alloc);
    page.put(keys::UNQUOTED_WORD, &[WordPart::AsItIs(word)]);
    put_lines(&mut page, text, words);
    page.warn(
        alloc,
        out,
        text,
        span_of(*first),
        keys::UNQUOTED_WORD.name(),
    )
}

/// Adds the warnings about words of a source that a shell reads otherwise.
pub(crate) fn warn_of_shell_words(
    alloc: Global,
    text: &[u8],
    calls: &[NamedCall<'_>],
    out: &mut Vec<Finding>,
) -> Result<(), AllocError> {
    let roles = roles_of(alloc, text, calls)?;
    let found = found_in(alloc, text, &roles)?;
    warn_at(alloc, text, found.tilde, 1, keys::TILDE, out)?;
    warn_at(alloc, text, found.dollar, 2, keys::DOLLAR_QUOTE, out)?;
    warn_of_test_words(alloc, text, found.words.as_slice(), out)
}
