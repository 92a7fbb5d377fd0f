//! What takes the place of a `for` over words that stand in the source.

ghost use Rattle.std.specs.Prelude.{◌≡◌, ◌⊎◌, ◌≤◌, ◌<◌, ◌+◌, ◌++◌, ◌∷◌, [], map, length, true, false, slice_index, slice_range, codes, IfOk, IfSome, IsTrue, OnOk};
ghost use Rattle.std.specs.List.{flat_map, list_all};
ghost use Rattle.port_parts.specs.Parts.{HasPlainEnd, IsListEnd, IsPlainLine, IsStatement};
ghost use Rattle.port_parts.specs.Places.{is_space_or_return, AreBlank, AreSpaces, IsWord};
ghost use Rattle.port_parts.specs.Words.{IsConstant, IsVariable};
ghost use Rattle.port_compounds.specs.Loops as specs;

use port_parts::{
    ForCut, after_blanks, after_spaces, are_blank, are_spaces, before_spaces, condition_end, has,
    has_plain_end, is_constant, is_list_end, is_plain_line, is_statement, is_value, is_variable,
    is_word, line_start,
};
use std::alloc::{AllocError, Global};

/// How many words a `for` has at most whose turns are written out.
const WORDS: usize = 16;

/// How many bytes its body has at most.
const BODY: usize = 4096;

// ---- the variable

/// Returns whether there are spaces between the first two offsets and between the last two, in
/// order.
fn is_between_spaces(text: &[u8], start: usize, from: usize, to: usize, end: usize) -> bool
    ensures { IsTrue result
        → ((start < from) × (from ≤ to) × (to < end))
        × ((end ≤ length text.now)
        × (AreSpaces text.now start from × AreSpaces text.now to end)) }
{
    start < from
        && from <= to
        && to < end
        && end <= text.len()
        && are_spaces(&text[start..from])
        && are_spaces(&text[to..end])
}

/// Returns the name between two offsets, if there is one.
fn name_at(text: &[u8], from: usize, to: usize) -> Option<&[u8]>
    requires { (from ≤ to) × (to ≤ length text.now) }
    ensures { IfSome result (λ n. (n.now ≡ slice_range text.now from to) × IsVariable n.now) }
{
    let name = &text[from..to];
    if is_variable(name) { Some(name) } else { None }
}

/// Returns the variable of a `for`, whose `in` is at an offset, if there is one.
fn head(text: &[u8], start: usize, at_in: usize, end: usize) -> Option<&[u8]>
    ensures { IfSome result (λ n. specs.IsHead text.now start end n.now) }
{
    let after = start.saturating_add(3);
    let from = after_spaces(text, after);
    let to = before_spaces(text, from, at_in);
    if !is_word(text, start, b"for", after)
        || !is_word(text, at_in, b"in", end)
        || !is_between_spaces(text, after, from, to, at_in)
    {
        return None;
    }
    name_at(text, from, to)
}

// ---- the words

/// Returns the offset after the word at an offset.
fn word_end(text: &[u8], from: usize) -> usize {
    let is_quoted = text.get(from) == Some(&b'"');
    for i in from.saturating_add(1)..text.len() {
        if is_quoted && text[i] == b'"' {
            return i.saturating_add(1);
        }
        if !is_quoted && !is_value(text[i]) {
            return i;
        }
    }
    text.len()
}

/// Returns whether a word is between the last two offsets, and spaces before it.
fn is_word_after(text: &[u8], start: usize, from: usize, end: usize) -> bool
    ensures { IsTrue result
        → ((start < from) × (from < end) × (end ≤ length text.now))
        × (AreSpaces text.now start from × IsConstant (slice_range text.now from end)) }
{
    start < from
        && from < end
        && end <= text.len()
        && are_spaces(&text[start..from])
        && is_constant(&text[from..end])
}

/// Appends the word between two offsets, which spaces are before. Returns whether there is one.
fn push_word<'a>(
    text: &'a [u8],
    start: usize,
    from: usize,
    end: usize,
    out: &mut Vec<&'a [u8]>,
) -> Result<bool, AllocError>
    ensures { IfOk result (λ b.
        IsTrue b
        → specs.AddsWord text.now start end (map (λ p. p.now) out.old.items)
        (map (λ p. p.now) out.new.items)) }
{
    if !is_word_after(text, start, from, end) {
        return Ok(false);
    }
    out.push(&text[from..end])?;
    Ok(true)
}

/// Appends a further word of a `for`. Returns whether there is one.
fn push_next<'a>(
    text: &'a [u8],
    start: usize,
    at: usize,
    from: usize,
    end: usize,
    out: &mut Vec<&'a [u8]>,
) -> Result<bool, AllocError>
    requires { specs.AreWords text.now start at (map (λ p. p.now) out.old.items) }
    ensures { IfOk result (λ b.
        IsTrue b → specs.AreWords text.now start end (map (λ p. p.now) out.new.items)) }
{
    push_word(text, at, from, end, out)
}

/// Appends the words between two offsets. Returns the offset after the last one, unless there are
/// too many or others.
fn push_words<'a>(
    text: &'a [u8],
    start: usize,
    to: usize,
    out: &mut Vec<&'a [u8]>,
) -> Result<Option<usize>, AllocError>
    requires { out.old.items ≡ [] }
    ensures { IfOk result (λ o.
        IfSome o (λ end. specs.AreWords text.now start end (map (λ p. p.now) out.new.items))) }
{
    let mut end = start;
    for _ in 0..WORDS {
        let from = after_spaces(text, end);
        let next = word_end(text, from);
        if !push_next(text, start, end, from, next, out)? {
            return Ok(None);
        }
        end = next;
        if end >= to {
            return Ok(Some(end));
        }
    }
    Ok(None)
}

// ---- the body

/// Returns whether a body is between two offsets, which are within two others.
fn is_body(text: &[u8], start: usize, from: usize, to: usize, end: usize) -> bool
    ensures { IsTrue result
        → ((start ≤ from) × (from ≤ to) × (to ≤ end))
        × ((end ≤ length text.now)
        × (AreBlank text.now start from
        × (IsListEnd text.now to end × HasPlainEnd (slice_range text.now from to)))) }
{
    start <= from
        && from <= to
        && to <= end
        && end <= text.len()
        && are_blank(&text[start..from])
        && is_list_end(text, to, end)
        && has_plain_end(&text[from..to])
}

/// Returns the body between two offsets, if there is one.
fn body(text: &[u8], start: usize, end: usize) -> Option<&[u8]>
    ensures { IfSome result (λ b. specs.IsBody text.now start end b.now) }
{
    let first = after_blanks(text, start);
    let from = line_start(text, start, first);
    let to = condition_end(text, first, end);
    if is_body(text, start, from, to, end) {
        Some(&text[from..to])
    } else {
        None
    }
}

/// Returns whether a body may be repeated outside a loop.
fn may_be_repeated(body: &[u8]) -> bool
    ensures { IsTrue result → specs.MayBeRepeated body.now }
{
    body.len() <= BODY
        && !has(body, b"break")
        && !has(body, b"continue")
        && !has(body, b"AC_CONFIG_")
        && !has(body, b"AC_ARG_")
        && !has(body, b"AC_PROG_")
        && !has(body, b"$?")
}

/// Returns the body between two offsets, if there is one that may be repeated.
fn repeated_body(text: &[u8], start: usize, end: usize) -> Option<&[u8]>
    ensures { IfSome result (λ b.
        specs.IsBody text.now start end b.now × specs.MayBeRepeated b.now) }
{
    match body(text, start, end) {
        Some(found) if may_be_repeated(found) => Some(found),
        _ => None,
    }
}

// ---- what takes its place

/// Appends a turn with a word.
fn put_turn(out: &mut Vec<u8>, name: &[u8], body: &[u8], word: &[u8]) -> Result<(), AllocError>
    ensures { OnOk result (out.new.items ≡ out.old.items ++ specs.turn name.now body.now word.now) }
{
    out.extend_from_slice(name)?;
    out.push(b'=')?;
    out.extend_from_slice(word)?;
    out.push(b'\n')?;
    out.extend_from_slice(body)?;
    Ok(())
}

/// Appends a further turn.
fn put_further(
    out: &mut Vec<u8>,
    indent: &[u8],
    name: &[u8],
    body: &[u8],
    word: &[u8],
) -> Result<(), AllocError>
    ensures { OnOk result (
        out.new.items
        ≡ out.old.items ++ specs.further indent.now name.now body.now word.now) }
{
    out.push(b'\n')?;
    out.extend_from_slice(indent)?;
    put_turn(out, name, body, word)
}

/// Appends further turns.
fn put_more(
    out: &mut Vec<u8>,
    indent: &[u8],
    name: &[u8],
    body: &[u8],
    words: &[&[u8]],
) -> Result<(), AllocError>
    ensures { OnOk result (
        out.new.items
        ≡ out.old.items
        ++ flat_map (specs.further indent.now name.now body.now) (map (λ p. p.now) words.now)) }
{
    for word in words {
        put_further(out, indent, name, body, word)?;
    }
    Ok(())
}

/// Appends a turn for each word.
fn put_turns(
    out: &mut Vec<u8>,
    indent: &[u8],
    name: &[u8],
    body: &[u8],
    words: &[&[u8]],
) -> Result<(), AllocError>
    ensures { OnOk result (
        out.new.items
        ≡ out.old.items
        ++ specs.turns indent.now name.now body.now (map (λ p. p.now) words.now)) }
{
    if let Some((first, more)) = words.split_first() {
        put_turn(out, name, body, first)?;
        return put_more(out, indent, name, body, more);
    }
    Ok(())
}

/// Returns a turn for each word.
fn turns(
    alloc: Global,
    indent: &[u8],
    name: &[u8],
    body: &[u8],
    words: &[&[u8]],
) -> Result<Vec<u8>, AllocError>
    ensures { IfOk result (λ v.
        v.items ≡ specs.turns indent.now name.now body.now (map (λ p. p.now) words.now)) }
{
    let mut out = Vec::new(alloc);
    put_turns(&mut out, indent, name, body, words)?;
    Ok(out)
}

/// Returns the spaces that are before an offset on its line, or nothing if something else is.
pub(crate) fn indent_at(text: &[u8], at: usize) -> &[u8]
    ensures { list_all is_space_or_return result.now ≡ true }
{
    let line = line_start(text, 0, at);
    if line <= at && at <= text.len() && are_spaces(&text[line..at]) {
        &text[line..at]
    } else {
        b""
    }
}

/// Returns whether a line of the shell may end before the byte.
fn ends_line(byte: u8) -> bool
    ensures { result ≡ specs.ends_line byte }
{
    byte == b'\n' || byte == b'#' || byte == b']'
}

/// Returns whether a line of the shell may end at an offset.
fn is_line_end(text: &[u8], at: usize) -> bool
    ensures { IsTrue result
        → (at ≡ length text.now) ⊎ (specs.ends_line (slice_index text.now at) ≡ true) }
{
    if at >= text.len() {
        return at == text.len();
    }
    ends_line(text[at])
}

/// Returns whether a line of the shell ends at an offset, or after the spaces after it.
fn ends_alone(text: &[u8], end: usize) -> bool
    ensures { IsTrue result → specs.EndsAlone text.now end }
{
    let to = after_spaces(text, end);
    end <= to && to <= text.len() && are_spaces(&text[end..to]) && is_line_end(text, to)
}

/// Returns whether a `for` between two offsets, whose `done` is at a third one, is a statement that
/// nothing is after on its line.
fn is_alone(text: &[u8], start: usize, at_done: usize, end: usize) -> bool
    ensures { IsTrue result
        → IsStatement text.now start (codes "done") at_done end × specs.EndsAlone text.now end }
{
    is_statement(text, start, b"done", at_done, end) && ends_alone(text, end)
}

/// Returns whether `do` is after these words, between two offsets.
fn is_before_do(text: &[u8], to: usize, at_do: usize, after_do: usize) -> bool
    ensures { IsTrue result
        → IsListEnd text.now to at_do × IsWord text.now at_do (codes "do") after_do }
{
    is_list_end(text, to, at_do) && is_word(text, at_do, b"do", after_do)
}

/// Returns the turns of a `for` with this variable, these words and this body.
fn turns_of(
    alloc: Global,
    text: &[u8],
    cut: ForCut,
    name: &[u8],
    words: &[&[u8]],
    body: &[u8],
) -> Result<Vec<u8>, AllocError>
    requires { specs.IsFor text.now cut.start cut.end name.now (map (λ p. p.now) words.now) body.now }
    ensures { IfOk result (λ v. specs.AreTurns text.now cut.start cut.end v.items) }
{
    let out = turns(alloc, indent_at(text, cut.start), name, body, words)?;
    Ok(out)
}

/// Returns the turns of a `for`, unless they name a cache variable.
fn without_cache(text: &[u8], cut: ForCut, put: Vec<u8>) -> Option<Vec<u8>>
    requires { specs.AreTurns text.now cut.start cut.end put.items }
    ensures { IfSome result (λ v. specs.IsWrittenOut text.now cut.start cut.end v.items) }
{
    let _ = text;
    let _ = cut;
    if has(put.as_slice(), b"_cv_") {
        None
    } else {
        Some(put)
    }
}

/// Returns whether m4 finds nothing in the text between two offsets, which is on one line.
fn is_plain_between(alloc: Global, text: &[u8], start: usize, to: usize) -> Result<bool, AllocError>
    ensures { IfOk result (λ b. IsTrue b → IsPlainLine (slice_range text.now start to)) }
{
    if to < start || text.len() < to {
        return Ok(false);
    }
    is_plain_line(alloc, &text[start..to])
}

/// Returns the turns of a `for` with this variable and these words, unless it is none, or its body
/// can't be repeated.
fn turns_with(
    alloc: Global,
    text: &[u8],
    cut: ForCut,
    name: &[u8],
    words: &[&[u8]],
    to: usize,
    after_in: usize,
) -> Result<Option<Vec<u8>>, AllocError>
    requires statement { IsStatement text.now cut.start (codes "done") cut.at_done cut.end }
    requires alone { specs.EndsAlone text.now cut.end }
    requires head { specs.IsHead text.now cut.start after_in name.now }
    requires are { specs.AreWords text.now after_in to (map (λ p. p.now) words.now) }
    ensures { IfOk result (λ o.
        IfSome o (λ v. specs.IsWrittenOut text.now cut.start cut.end v.items)) }
{
    let after_do = cut.at_do.saturating_add(2);
    if !is_before_do(text, to, cut.at_do, after_do)
        || !is_plain_between(alloc, text, cut.start, to)?
    {
        return Ok(None);
    }
    match repeated_body(text, after_do, cut.at_done) {
        Some(body) => {
            let put = turns_of(alloc, text, cut, name, words, body)?;
            Ok(without_cache(text, cut, put))
        }
        None => Ok(None),
    }
}

/// Returns the turns of a `for` with this variable, unless it is none, or not to be written out.
fn turns_named(
    alloc: Global,
    text: &[u8],
    cut: ForCut,
    name: &[u8],
    after_in: usize,
) -> Result<Option<Vec<u8>>, AllocError>
    requires statement { IsStatement text.now cut.start (codes "done") cut.at_done cut.end }
    requires alone { specs.EndsAlone text.now cut.end }
    requires head { specs.IsHead text.now cut.start after_in name.now }
    ensures { IfOk result (λ o.
        IfSome o (λ v. specs.IsWrittenOut text.now cut.start cut.end v.items)) }
{
    let mut words = Vec::new(alloc);
    let to = condition_end(text, after_in, cut.at_do);
    match push_words(text, after_in, to, &mut words)? {
        Some(end) => turns_with(alloc, text, cut, name, words.as_slice(), end, after_in),
        None => Ok(None),
    }
}

/// Returns what takes the place of a `for` over words that are written there: for each of them an
/// assignment to its variable, and its body. If the offsets are not those of such a `for` that is a
/// statement of its own, if its body can't be repeated, or if a cache variable is named, returns
/// `None`.
///
/// # Errors
///
/// Fails only if memory runs out.
pub fn loop_turns(alloc: Global, text: &[u8], cut: ForCut) -> Result<Option<Vec<u8>>, AllocError>
    ensures { IfOk result (λ o.
        IfSome o (λ v. specs.IsWrittenOut text.now cut.start cut.end v.items)) }
{
    if !is_alone(text, cut.start, cut.at_done, cut.end) {
        return Ok(None);
    }
    let after_in = cut.at_in.saturating_add(2);
    match head(text, cut.start, cut.at_in, after_in) {
        Some(name) => turns_named(alloc, text, cut, name, after_in),
        None => Ok(None),
    }
}
