//! Which definitions are written out, and where.

use crate::definition::{has_parameter, inner};
use crate::lines::{is_dropped, last_line, space_len};
use crate::reading::{changes_reading, chooses_language, is_in_word, is_whole, tops_in};
use crate::reserved::may_be_of_autoconf;
use crate::unused::{is_in_remark, is_unused_definition};
use ac_calls::CallAt;
use ac_macros::table::row_named;
use lint_macros::Index;
use lint_text::{before, first_name, from, is_word_byte, part};
use std::alloc::{AllocError, Global};
use std::collections::BTreeSet;

/// How many definitions are looked at.
const MOST: usize = 50;

/// How long a name is at most, and a body that is written out.
const LONGEST_NAME: usize = 100;

const LONGEST: usize = 2000;

/// The macros that may be in a body. None of them requires checks, which Autoconf would make before
/// the body.
const PLAIN: [&[u8]; 15] = [
    b"AC_ARG_ENABLE",
    b"AC_ARG_WITH",
    b"AC_CACHE_CHECK",
    b"AC_CACHE_VAL",
    b"AC_DEFINE",
    b"AC_DEFINE_UNQUOTED",
    b"AC_LANG_PROGRAM",
    b"AC_LANG_SOURCE",
    b"AC_MSG_CHECKING",
    b"AC_MSG_ERROR",
    b"AC_MSG_NOTICE",
    b"AC_MSG_RESULT",
    b"AC_MSG_WARN",
    b"AC_SUBST",
    b"AS_HELP_STRING",
];

/// The macros that may be in a body that is called after AC_PROG_CC. They require checks of the
/// compiler alone.
const COMPILING: [&[u8]; 5] = [
    b"AC_CHECK_LIB",
    b"AC_COMPILE_IFELSE",
    b"AC_LINK_IFELSE",
    b"AC_TRY_COMPILE",
    b"AC_TRY_LINK",
];

/// With what the names of those macros of Autoconf begin that others call and no table has.
const INTERNAL: [&[u8]; 14] = [
    b"AC_CHECK_TOOL",
    b"AC_CONFIG_",
    b"AC_DEFINE_",
    b"AC_ENABLE",
    b"AC_FOREACH",
    b"AC_HEADER_",
    b"AC_LANG_",
    b"AC_LIB_",
    b"AC_MSG_",
    b"AC_OUTPUT_",
    b"AC_REQUIRE_",
    b"AC_RUN_",
    b"AC_SUBST_",
    b"AC_TRY_",
];

/// What is before the first `_` of the names of macros of Autoconf and its kin.
const PREFIXES: [&[u8]; 11] = [
    b"AC", b"AS", b"AM", b"AH", b"AU", b"AX", b"AT", b"LT", b"PKG", b"m4", b"",
];

/// The macros of M4 whose names Autoconf leaves as they are.
const BUILTINS: [&[u8]; 8] = [
    b"define",
    b"undefine",
    b"pushdef",
    b"popdef",
    b"divert",
    b"undivert",
    b"m4wrap",
    b"dnl",
];

/// Returns whether a macro of Autoconf or of M4 may have this name.
fn may_be_macro(word: &[u8]) -> bool {
    let front = word.iter().take_while(|byte| **byte != b'_').count();
    let prefix = before(word, front);
    let has_prefix = front < word.len() && PREFIXES.iter().any(|other| *other == prefix);
    has_prefix || BUILTINS.iter().any(|other| *other == word)
}

/// Returns whether a macro of the package may have this name.
fn may_be_own(name: &[u8]) -> bool {
    let has_prefix = name.starts_with(b"AC_") || name.starts_with(b"AX_");
    let is_internal = INTERNAL.iter().any(|front| name.starts_with(*front));
    !is_internal && (has_prefix || !may_be_macro(name))
}

/// Returns whether no macro of Autoconf has a name, so that no other macro calls it.
fn is_own(alloc: Global, index: &Index, name: &[u8]) -> Result<bool, AllocError> {
    if !may_be_own(name) || row_named(name).is_some() {
        return Ok(false);
    }
    Ok(index.entry_of(alloc, name)?.is_none())
}

/// The macros that make other letters of a text, or call a macro by a text.
const MAKING: [&[u8]; 6] = [
    b"m4_bpatsubst",
    b"m4_format",
    b"m4_indir",
    b"m4_tolower",
    b"m4_toupper",
    b"m4_translit",
];

/// Returns whether m4 may make the name of a macro of parts that are outside its definition: the
/// name begins with a word that is no macro of the source, or that a parameter follows.
fn may_be_composed(text: &[u8], search: &DefinitionSearch<'_>, d: &CallAt, name: &[u8]) -> bool {
    for word in search.words {
        let len = word.end.saturating_sub(word.start);
        if len < 2 || name.len() <= len || d.start <= word.start && word.start < d.end {
            continue;
        }
        let front = part(text, word.start, word.end);
        let is_followed = text.get(word.end) == Some(&b'$');
        if name.starts_with(front)
            && (is_followed || !search.defined.contains(front))
            && !is_in_remark(text, d.end, word.start)
        {
            return true;
        }
    }
    false
}

/// Returns whether a name is outside of its definition and of comments.
fn is_elsewhere(text: &[u8], words: &[SourceWord], d: &CallAt, name: &[u8]) -> bool {
    for word in words {
        let is_within = d.start <= word.start && word.start < d.end;
        if !is_within && is_named(text, *word, name) && !is_in_remark(text, d.end, word.start) {
            return true;
        }
    }
    false
}

/// Returns whether Autoconf has no macro of this name and no word of its own texts, so that a
/// definition of it does nothing as long as the source doesn't call it.
fn is_apart(alloc: Global, index: &Index, name: &[u8]) -> Result<bool, AllocError> {
    if name.starts_with(b"AX_") {
        return Ok(true);
    }
    let is_of_package = name.starts_with(b"AC_") || !may_be_of_autoconf(name);
    Ok(is_of_package && is_own(alloc, index, name)?)
}

/// Returns whether a macro is named between two offsets of a body that another file may define.
fn may_be_called(body: &[u8], at: usize, end: usize) -> bool {
    let word = part(body, at, end);
    let is_spelled = word.contains(&b'_') && word.iter().any(|byte| byte.is_ascii_uppercase());
    is_spelled && (body.get(end) == Some(&b'(') || is_alone(body, at, end))
}

/// Returns whether the word between two offsets of a body is none of a macro, or of one that may be
/// in a body.
fn is_plain_word(body: &[u8], at: usize, end: usize, defined: &BTreeSet<Vec<u8>>) -> bool {
    let word = part(body, at, end);
    if defined.contains(word) {
        return false;
    }
    let is_listed = PLAIN.iter().any(|other| *other == word) || is_compiling(word);
    is_listed || !may_be_macro(word) && !may_be_called(body, at, end) || word == b"dnl".as_slice()
}

/// Returns whether a macro of this name requires the checks of the compiler.
fn is_compiling(word: &[u8]) -> bool {
    COMPILING.iter().any(|other| *other == word)
}

/// Returns whether a word of a body requires the checks of the compiler.
fn needs_compiler(body: &[u8]) -> bool {
    for at in 0..body.len() {
        if !is_in_word(before(body, at)) && is_compiling(first_name(from(body, at))) {
            return true;
        }
    }
    false
}

/// Returns whether all words of a body may be in one that is written out.
fn are_plain_words(body: &[u8], defined: &BTreeSet<Vec<u8>>) -> bool {
    let mut skips: usize = 0;
    for at in 0..body.len() {
        if at < skips || !is_word_byte(body[at]) || body[at].is_ascii_digit() {
            continue;
        }
        skips = at.saturating_add(first_name(from(body, at)).len());
        if !is_plain_word(body, at, skips, defined) {
            return false;
        }
    }
    true
}

/// Returns whether a line is a comment.
fn is_comment_line(line: &[u8]) -> bool {
    let line = from(line, space_len(line));
    line.starts_with(b"#") || is_dropped(line)
}

/// Returns whether a name is alone on its line.
fn is_alone(text: &[u8], at: usize, end: usize) -> bool {
    let front = from(before(text, at), last_line(before(text, at)));
    let rest = from(text, end.saturating_add(space_len(from(text, end))));
    space_len(front) == front.len() && rest.first().map_or(true, |byte| *byte == b'\n')
}

/// A place at which the name of a macro is that the source defines.
#[derive(Clone, Copy)]
pub struct UseSpot {
    pub at: usize,
    /// The index of the call that defines it.
    pub index: usize,
}

/// A word of a text, which may be the name of a macro.
#[derive(Clone, Copy)]
struct SourceWord {
    start: usize,
    end: usize,
    /// Whether its line is a comment.
    is_comment: bool,
}

/// Returns the words of a text that begin with a letter or `_`, and are no part of a longer one.
fn words_in(alloc: Global, text: &[u8]) -> Result<Vec<SourceWord>, AllocError> {
    let mut words = Vec::new(alloc);
    let mut is_comment = is_comment_line(text);
    let mut end: usize = 0;
    for at in 0..text.len() {
        if text[at] == b'\n' {
            is_comment = is_comment_line(from(text, at.saturating_add(1)));
        }
        let is_letter = is_word_byte(text[at]) && !text[at].is_ascii_digit();
        if is_letter && end <= at {
            end = at.saturating_add(first_name(from(text, at)).len());
            let start = at;
            words.push(SourceWord {
                start,
                end,
                is_comment,
            })?;
        }
    }
    Ok(words)
}

/// Returns whether a word is a name.
fn is_named(text: &[u8], word: SourceWord, name: &[u8]) -> bool {
    word.end.saturating_sub(word.start) == name.len() && part(text, word.start, word.end) == name
}

/// Returns whether a word is that of a macro that makes other letters of a text, or calls another by
/// a text.
fn is_making(text: &[u8], word: SourceWord) -> bool {
    let name = part(text, word.start, word.end);
    name.starts_with(b"m4_") && MAKING.iter().any(|other| *other == name)
}

/// Appends the places at which a body is to be put. Returns whether the text has the name at no
/// other place, but in the definition and in comments before it.
fn push_uses(
    text: &[u8],
    search: &DefinitionSearch<'_>,
    d: &CallAt,
    index: usize,
    name: &[u8],
    start: usize,
    uses: &mut Vec<UseSpot>,
) -> Result<bool, AllocError> {
    let Some(title) = d.args.get(0) else {
        return Ok(false);
    };
    for word in search.words {
        if !is_named(text, *word, name) {
            continue;
        }
        let at = word.start;
        let is_title = title.start <= at && at < title.end;
        if is_title || at < d.end && word.is_comment {
            continue;
        }
        let is_top = search.tops.get(at) == Some(&true);
        if at < d.end || at < start || !is_top || !is_alone(text, at, word.end) {
            return Ok(false);
        }
        uses.push(UseSpot { at, index })?;
    }
    Ok(true)
}

/// The definitions that are written out: the indices of their calls, and where their names are.
#[derive(Drop)]
pub struct Written {
    pub indices: Vec<usize>,
    pub uses: Vec<UseSpot>,
    /// The indices of other definitions, of macros that nothing calls.
    pub unused: Vec<usize>,
}

/// Returns whether an argument has nothing but a name, perhaps in brackets: m4 takes a blank after
/// it for a part of the name.
fn is_title(written: &[u8], name: &[u8]) -> bool {
    let begins = name
        .first()
        .is_some_and(|byte| is_word_byte(*byte) && !byte.is_ascii_digit());
    let ends = written
        .last()
        .is_some_and(|byte| is_word_byte(*byte) || *byte == b']');
    begins && ends && first_name(name) == name && name.len() <= LONGEST_NAME
}

/// Returns the body of a definition, if it may be written out.
fn plain_body<'a>(text: &'a [u8], d: &CallAt, defined: &BTreeSet<Vec<u8>>) -> Option<&'a [u8]> {
    let what = d.args.get(1)?;
    let body = inner(text, *what);
    if d.args.len() == 2
        && part(text, what.start, what.end).starts_with(b"[")
        && body.len() <= LONGEST
        && is_whole(body)
        && !has_parameter(body)
        && are_plain_words(body, defined)
    {
        Some(body)
    } else {
        None
    }
}

/// Returns the name of a definition, if it may be written out.
fn plain_title<'a>(text: &'a [u8], d: &CallAt) -> Option<&'a [u8]> {
    let title = d.args.get(0)?;
    let name = inner(text, *title);
    if is_title(part(text, title.start, title.end), name) {
        Some(name)
    } else {
        None
    }
}

/// Appends a definition, if it may be written out. Returns whether it may.
fn push_written(
    alloc: Global,
    search: &DefinitionSearch<'_>,
    text: &[u8],
    d: &CallAt,
    index: usize,
    name: &[u8],
    out: &mut Written,
) -> Result<bool, AllocError> {
    let Some(body) = plain_body(text, d, search.defined) else {
        return Ok(false);
    };
    if !search.is_of_c || !is_own(alloc, search.index, name)? {
        return Ok(false);
    }
    let start = if needs_compiler(body) {
        search.after_compiler
    } else {
        0
    };
    let len = out.uses.len();
    let is_written = push_uses(text, search, d, index, name, start, &mut out.uses)?;
    if is_written {
        out.indices.push(index)?;
    } else {
        out.uses.truncate(len);
    }
    Ok(is_written)
}

/// Appends a definition, if it may be written out, or if nothing calls its macro.
fn push_definition(
    alloc: Global,
    search: &DefinitionSearch<'_>,
    text: &[u8],
    d: &CallAt,
    index: usize,
    out: &mut Written,
) -> Result<(), AllocError> {
    let Some(name) = plain_title(text, d) else {
        return Ok(());
    };
    if may_be_composed(text, search, d, name)
        || push_written(alloc, search, text, d, index, name, out)?
    {
        return Ok(());
    }
    let front = from(before(text, d.start), last_line(before(text, d.start)));
    let is_first = space_len(front) == front.len();
    if is_first
        && !is_elsewhere(text, search.words, d, name)
        && is_unused_definition(text, d, name)
        && is_apart(alloc, search.index, name)?
    {
        out.unused.push(index)?;
    }
    Ok(())
}

/// What is known of a text before its definitions are looked at.
#[derive(Clone, Copy)]
struct DefinitionSearch<'a> {
    index: &'a Index,
    /// The names that the source defines as macros.
    defined: &'a BTreeSet<Vec<u8>>,
    words: &'a [SourceWord],
    /// The offsets at which m4 expands a macro as a part of the source.
    tops: &'a [bool],
    /// The offset after AC_PROG_CC, or after the text if it isn't there.
    after_compiler: usize,
    /// Whether the source chooses no other language than C.
    is_of_c: bool,
}

/// Appends the definitions that may be written out.
fn push_definitions(
    alloc: Global,
    search: &DefinitionSearch<'_>,
    text: &[u8],
    calls: &[CallAt],
    out: &mut Written,
) -> Result<(), AllocError> {
    let mut tried: usize = 0;
    for index in 0..calls.len() {
        let d = &calls[index];
        let is_defining = part(text, d.start, d.name_end) == b"AC_DEFUN".as_slice();
        if !is_defining || search.tops.get(d.start) != Some(&true) || MOST <= tried {
            continue;
        }
        tried = tried.saturating_add(1);
        push_definition(alloc, search, text, d, index, out)?;
    }
    Ok(())
}

/// Returns the definitions of macros without parameters that may be written out, if the source
/// chooses no other language, and those of macros that nothing calls. There are none if the source
/// changes quotes, reads another file, or may make names of other texts.
pub fn written_in(
    alloc: Global,
    index: &Index,
    text: &[u8],
    calls: &[CallAt],
    defined: &BTreeSet<Vec<u8>>,
    after_compiler: Option<usize>,
) -> Result<Written, AllocError> {
    let mut out = Written {
        indices: Vec::new(alloc),
        uses: Vec::new(alloc),
        unused: Vec::new(alloc),
    };
    if changes_reading(text) {
        return Ok(out);
    }
    let words = words_in(alloc, text)?;
    if words.iter().any(|word| is_making(text, *word) && !is_in_remark(text, 0, word.start)) {
        return Ok(out);
    }
    let tops = tops_in(alloc, text, calls)?;
    let search = DefinitionSearch {
        index,
        defined,
        words: words.as_slice(),
        tops: tops.as_slice(),
        after_compiler: after_compiler.unwrap_or(text.len()),
        is_of_c: !chooses_language(text, calls),
    };
    push_definitions(alloc, &search, text, calls, &mut out)?;
    out.uses.sort_by_key(|spot| spot.at)?;
    Ok(out)
}
