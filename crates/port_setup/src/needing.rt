//! Which lines a source needs after AC_PROG_CC.

ghost use Rattle.std.specs.Prelude.{◌≡◌, ◌⊎◌, ◌≤◌, ◌<◌, ◌+◌, ℕ, Some, false, length, map, bytes_eq, slice_get, codes, IsTrue};
ghost use Rattle.std.specs.List.{list_all, list_any};
ghost use Rattle.ac_calls.specs.Calls.{macro_call_of};
ghost use Rattle.lint_text.specs.Parts as parts;
ghost use Rattle.port_setup.specs.Needed as specs;

use ac_calls::{CallAt, Extent};
use lint_text::{before, from, is_word_byte, line_end, part};
use port_definitions::{argument, has_name, inner};
use port_spots::Needed;
use text_cut::is_blank;

// ---- names

/// The default headers.
#[rattlefmt::skip]
const DEFAULTS: [&[u8]; 9] = [
    b"stdio.h", b"stdlib.h", b"string.h", b"inttypes.h", b"stdint.h", b"strings.h", b"sys/stat.h", b"sys/types.h", b"unistd.h",
];

/// The macros that make the checks of the default headers, with Autoconf.
#[rattlefmt::skip]
const INCLUDING: [&[u8]; 16] = [
    b"AC_CHECK_ALIGNOF", b"AC_CHECK_DECL", b"AC_CHECK_DECLS", b"AC_CHECK_HEADER", b"AC_CHECK_HEADERS", b"AC_CHECK_MEMBER",
    b"AC_CHECK_MEMBERS", b"AC_CHECK_SIZEOF", b"AC_CHECK_TYPE", b"AC_CHECK_TYPES", b"AC_HAVE_HEADERS", b"AC_HEADER_STDC",
    b"AC_TYPE_MODE_T", b"AC_TYPE_OFF_T", b"AC_TYPE_PID_T", b"AC_TYPE_SIZE_T",
];

/// The macros that make a header.
const MAKING: [&[u8]; 3] = [
    b"AC_CONFIG_HEADERS",
    b"AC_CONFIG_HEADER",
    b"AM_CONFIG_HEADER",
];

/// The macros that look for each header of a list.
const LOOKING: [&[u8]; 2] = [b"AC_CHECK_HEADER", b"AC_CHECK_HEADERS"];

/// The macros that define a name.
const DEFINING: [&[u8]; 2] = [b"AC_DEFINE", b"AC_DEFINE_UNQUOTED"];

#[tactic(auto, unfolding(crate::specs::Needed::defaults))]
fn defaults() -> &'static [&'static [u8]]
    ensures { map (λ name. name.now) result.now ≡ specs.defaults }
{
    &DEFAULTS
}

#[tactic(auto, unfolding(crate::specs::Needed::including))]
fn including() -> &'static [&'static [u8]]
    ensures { map (λ name. name.now) result.now ≡ specs.including }
{
    &INCLUDING
}

#[tactic(auto, unfolding(crate::specs::Needed::making))]
fn making() -> &'static [&'static [u8]]
    ensures { map (λ name. name.now) result.now ≡ specs.making }
{
    &MAKING
}

#[tactic(auto, unfolding(crate::specs::Needed::looking))]
fn looking() -> &'static [&'static [u8]]
    ensures { map (λ name. name.now) result.now ≡ specs.looking }
{
    &LOOKING
}

#[tactic(auto, unfolding(crate::specs::Needed::defining))]
fn defining() -> &'static [&'static [u8]]
    ensures { map (λ name. name.now) result.now ≡ specs.defining }
{
    &DEFINING
}

/// Returns whether a name is one of these.
fn is_one_of(names: &[&[u8]], name: &[u8]) -> bool
    ensures { result ≡ list_any (λ other. bytes_eq other.now name.now) names.now }
{
    names.iter().any(|other| *other == name)
}

// ---- what is called

/// Returns the name of the macro that is called.
fn name_of<'a>(text: &'a [u8], call: &CallAt) -> &'a [u8]
    ensures { result.now
        ≡ parts.part text.now (macro_call_of call.now).start (macro_call_of call.now).name_end }
{
    part(text, call.start, call.name_end)
}

/// Returns whether a macro makes checks of the default headers, with Autoconf.
fn is_including(name: &[u8]) -> bool
    ensures { result ≡ specs.is_one_of specs.including name.now }
{
    is_one_of(including(), name)
}

/// Returns whether a macro makes a header.
fn is_making(name: &[u8]) -> bool
    ensures { result ≡ specs.is_one_of specs.making name.now }
{
    is_one_of(making(), name)
}

/// Returns whether a macro looks for each header of a list.
fn is_looking(name: &[u8]) -> bool
    ensures { result ≡ specs.is_one_of specs.looking name.now }
{
    is_one_of(looking(), name)
}

/// Returns whether a macro defines a name.
fn is_defining(name: &[u8]) -> bool
    ensures { result ≡ specs.is_one_of specs.defining name.now }
{
    is_one_of(defining(), name)
}

/// Returns whether no macro is called that makes checks of the default headers.
fn lacks_including(text: &[u8], calls: &[CallAt]) -> bool
    ensures { IsTrue result
        → specs.LacksCall text.now (map macro_call_of calls.now) specs.including }
{
    for i in 0..calls.len() {
        if is_including(name_of(text, &calls[i])) {
            return false;
        }
    }
    true
}

/// Returns whether no macro is called that makes a header.
fn lacks_making(text: &[u8], calls: &[CallAt]) -> bool
    ensures { IsTrue result
        → specs.LacksCall text.now (map macro_call_of calls.now) specs.making }
{
    for i in 0..calls.len() {
        if is_making(name_of(text, &calls[i])) {
            return false;
        }
    }
    true
}

/// Returns whether the source makes no check of the default headers with Autoconf, or has no header
/// for what they define.
fn includes_none(text: &[u8], calls: &[CallAt]) -> bool
    ensures { IsTrue result → specs.IncludesNone text.now (map macro_call_of calls.now) }
{
    lacks_including(text, calls) || lacks_making(text, calls)
}

// ---- what a call looks for or defines

/// Returns whether the byte may be in a list.
fn is_list_byte(byte: u8) -> bool
    ensures { result ≡ specs.is_list_byte byte }
{
    is_word_byte(byte)
        || byte == b'.'
        || byte == b'/'
        || byte == b'-'
        || byte == b'+'
        || is_blank(byte)
}

/// Returns whether a text has nothing but such bytes.
fn are_list_bytes(list: &[u8]) -> bool
    ensures { result ≡ list_all specs.is_list_byte list.now }
{
    list.iter().all(|byte| is_list_byte(*byte))
}

/// Returns whether `dnl` is at an offset.
fn is_drop_at(text: &[u8], at: usize) -> bool
    requires { at ≤ length text.now }
    ensures yes { IsTrue result → specs.IsDropAt text.now at }
    ensures fits { IsTrue result → at + 3 ≤ length text.now }
    ensures no { result ≡ false → specs.IsDropAt text.now at → ⊥ }
{
    has_name(text, at, b"dnl")
}

/// Returns whether `dnl` is nowhere in a list.
fn lacks_drop(list: &[u8]) -> bool
    ensures { IsTrue result
        → (at : ℕ) → at < length list.now → specs.IsDropAt list.now at → ⊥ }
{
    for at in 0..list.len() {
        if is_drop_at(list, at) {
            return false;
        }
    }
    true
}

/// Returns whether a list has nothing but words, of which none ends its line for m4.
fn is_plain_list(list: &[u8]) -> bool
    ensures { IsTrue result → specs.IsPlainList list.now }
{
    are_list_bytes(list) && lacks_drop(list)
}

/// Returns whether a word may begin at an offset of a list.
fn begins_entry(list: &[u8], at: usize) -> bool
    requires { at ≤ length list.now }
    ensures { IsTrue result → specs.BeginsEntry list.now at }
{
    at == 0 || is_blank(list[at - 1])
}

/// Returns whether a word ends at an offset of a list.
fn ends_entry(list: &[u8], at: usize) -> bool
    requires { at ≤ length list.now }
    ensures { IsTrue result → specs.EndsEntry list.now at }
{
    at == list.len() || is_blank(list[at])
}

/// Returns whether a list has this word at an offset.
fn is_entry_at(list: &[u8], at: usize, word: &[u8]) -> bool
    requires { at ≤ length list.now }
    ensures { IsTrue result → specs.IsEntryAt list.now at word.now }
{
    has_name(list, at, word) && begins_entry(list, at) && ends_entry(list, at + word.len())
}

/// Returns whether a list has a word.
fn has_entry(list: &[u8], word: &[u8]) -> bool
    ensures { IsTrue result → specs.HasEntry list.now word.now }
{
    for at in 0..list.len() {
        if is_entry_at(list, at, word) {
            return true;
        }
    }
    false
}

/// Returns whether a text is a plain list that has a word.
fn is_list_with(list: &[u8], word: &[u8]) -> bool
    ensures { IsTrue result → specs.IsPlainList list.now × specs.HasEntry list.now word.now }
{
    is_plain_list(list) && has_entry(list, word)
}

/// Returns whether the call looks for a header, which is in its first argument.
fn looks_in(text: &[u8], call: &CallAt, list: Extent, header: &[u8]) -> bool
    requires { slice_get (macro_call_of call.now).args 0 ≡ Some list }
    ensures { IsTrue result → specs.LooksFor text.now (macro_call_of call.now) header.now }
{
    if !is_looking(name_of(text, call)) {
        return false;
    }
    is_list_with(inner(text, list), header)
}

/// Returns whether the call looks for a header.
fn looks_for(text: &[u8], call: &CallAt, header: &[u8]) -> bool
    ensures { IsTrue result → specs.LooksFor text.now (macro_call_of call.now) header.now }
{
    match argument(call, 0) {
        Some(list) => looks_in(text, call, list, header),
        None => false,
    }
}

/// Returns whether the call defines a name, which is its first argument.
fn defines_in(text: &[u8], call: &CallAt, arg: Extent, name: &[u8]) -> bool
    requires { slice_get (macro_call_of call.now).args 0 ≡ Some arg }
    ensures { IsTrue result → specs.DefinesName text.now (macro_call_of call.now) name.now }
{
    if !is_defining(name_of(text, call)) {
        return false;
    }
    inner(text, arg) == name
}

/// Returns whether the call defines a name.
fn defines_name(text: &[u8], call: &CallAt, name: &[u8]) -> bool
    ensures { IsTrue result → specs.DefinesName text.now (macro_call_of call.now) name.now }
{
    match argument(call, 0) {
        Some(arg) => defines_in(text, call, arg, name),
        None => false,
    }
}

// ---- what is run in any case

/// Returns whether `dnl` ends at an offset: no word goes on there, and no parenthesis follows.
fn ends_drop(text: &[u8], at: usize) -> bool
    requires { at ≤ length text.now }
    ensures { IsTrue result → specs.EndsDrop text.now at }
{
    at == text.len() || !(is_word_byte(text[at]) || text[at] == b'(')
}

/// Returns whether a comment of m4 begins at an offset.
fn is_remark(text: &[u8], at: usize) -> bool
    requires { at ≤ length text.now }
    ensures yes { IsTrue result → specs.IsDropAt text.now at × specs.EndsDrop text.now (at + 3) }
    ensures fits { IsTrue result → at + 3 ≤ length text.now }
{
    is_drop_at(text, at) && ends_drop(text, at + 3)
}

/// Returns the offset after the call that begins at an offset, or that offset if none does.
fn after_call(text: &[u8], calls: &[CallAt], start: usize, at: usize) -> usize
    requires { specs.IsRunAfter text.now (map macro_call_of calls.now) start at }
    ensures { specs.IsRunAfter text.now (map macro_call_of calls.now) start result }
{
    let _ = text;
    let _ = start;
    for i in 0..calls.len() {
        let call = &calls[i];
        if call.start == at {
            return call.end;
        }
    }
    at
}

/// Returns the offset after the blank, the comment or the call that is at an offset, or that offset
/// if none is.
fn after_idle(text: &[u8], calls: &[CallAt], start: usize, at: usize) -> usize
    requires { specs.IsRunAfter text.now (map macro_call_of calls.now) start at }
    ensures { specs.IsRunAfter text.now (map macro_call_of calls.now) start result }
{
    if text.len() <= at {
        return at;
    }
    if is_blank(text[at]) {
        return at + 1;
    }
    if is_remark(text, at) {
        return line_end(text, at + 3);
    }
    after_call(text, calls, start, at)
}

/// Returns whether what begins at the one offset is run whenever what ends at the other is: between
/// both there is nothing but calls, comments and blanks.
fn is_run_after(text: &[u8], calls: &[CallAt], start: usize, end: usize) -> bool
    ensures { IsTrue result
        → specs.IsRunAfter text.now (map macro_call_of calls.now) start end }
{
    let mut at = start;
    for _ in start..end {
        if end <= at {
            break;
        }
        let next = after_idle(text, calls, start, at);
        if next <= at {
            return false;
        }
        at = next;
    }
    at == end
}

/// Returns whether a call that is run whenever what ends at an offset is looks for a header.
fn is_looked_for(text: &[u8], calls: &[CallAt], start: usize, header: &[u8]) -> bool
    ensures { IsTrue result
        → specs.IsLookedFor text.now (map macro_call_of calls.now) start header.now }
{
    for i in 0..calls.len() {
        let call = &calls[i];
        if !looks_for(text, call, header) {
            continue;
        }
        if is_run_after(text, calls, start, call.start) {
            return true;
        }
    }
    false
}

/// Returns whether each of these headers is so looked for.
fn are_looked_for(text: &[u8], calls: &[CallAt], start: usize, headers: &[&[u8]]) -> bool
    ensures { IsTrue result
        → specs.AreLookedFor text.now (map macro_call_of calls.now) start
        (map (λ header. header.now) headers.now) }
{
    for i in 0..headers.len() {
        if !is_looked_for(text, calls, start, headers[i]) {
            return false;
        }
    }
    true
}

/// Returns whether a call that is run whenever what ends at an offset is defines a name.
fn is_defined(text: &[u8], calls: &[CallAt], start: usize, name: &[u8]) -> bool
    ensures { IsTrue result
        → specs.IsDefined text.now (map macro_call_of calls.now) start name.now }
{
    for i in 0..calls.len() {
        let call = &calls[i];
        if !defines_name(text, call, name) {
            continue;
        }
        if is_run_after(text, calls, start, call.start) {
            return true;
        }
    }
    false
}

// ---- what is needed

/// Returns whether each of the default headers is looked for after an offset.
fn are_defaults_looked_for(text: &[u8], calls: &[CallAt], end: usize) -> bool
    ensures { IsTrue result
        → specs.AreLookedFor text.now (map macro_call_of calls.now) end specs.defaults }
{
    are_looked_for(text, calls, end, defaults())
}

/// Returns whether the default headers need not be looked for after an offset.
fn has_headers(text: &[u8], calls: &[CallAt], end: usize) -> bool
    ensures { IsTrue result
        → specs.IncludesNone text.now (map macro_call_of calls.now)
        ⊎ specs.AreLookedFor text.now (map macro_call_of calls.now) end specs.defaults }
{
    includes_none(text, calls) || are_defaults_looked_for(text, calls, end)
}

/// Returns whether STDC_HEADERS need not be defined after an offset.
fn has_standard(text: &[u8], calls: &[CallAt], end: usize) -> bool
    ensures { IsTrue result
        → specs.IncludesNone text.now (map macro_call_of calls.now)
        ⊎ specs.IsDefined text.now (map macro_call_of calls.now) end (codes "STDC_HEADERS") }
{
    includes_none(text, calls) || is_defined(text, calls, end, b"STDC_HEADERS")
}

/// Returns whether a text has another one in it, as a word of its own.
fn has_word(text: &[u8], word: &[u8]) -> bool {
    let mut is_in_word = false;
    for at in 0..text.len() {
        let rest = from(text, at);
        let goes_on = rest.get(word.len()).is_some_and(|byte| is_word_byte(*byte));
        if !is_in_word && rest.starts_with(word) && !goes_on {
            return true;
        }
        is_in_word = is_word_byte(text[at]);
    }
    false
}

/// Returns whether a source sets CFLAGS before an offset, or asks whether it is empty.
fn sets_flags(text: &[u8], end: usize) -> bool {
    let front = before(text, end);
    has_word(front, b"CFLAGS=") || has_word(front, b"CFLAGS") || has_word(text, b"z \"$CFLAGS\"")
}

/// Returns which lines are to come after a call of AC_PROG_CC that ends at an offset.
pub fn lines_needed(text: &[u8], calls: &[CallAt], end: usize) -> Needed
    // The default headers are left out only if no check includes them, or the source has no header
    // for what they define, or calls that are always run look for each of them.
    ensures headers { result.headers ≡ false
        → specs.IncludesNone text.now (map macro_call_of calls.now)
        ⊎ specs.AreLookedFor text.now (map macro_call_of calls.now) end specs.defaults }
    // The same holds of STDC_HEADERS, and a call that defines it.
    ensures standard { result.standard ≡ false
        → specs.IncludesNone text.now (map macro_call_of calls.now)
        ⊎ specs.IsDefined text.now (map macro_call_of calls.now) end (codes "STDC_HEADERS") }
{
    Needed {
        flags: !sets_flags(text, end),
        headers: !has_headers(text, calls, end),
        standard: !has_standard(text, calls, end),
    }
}
