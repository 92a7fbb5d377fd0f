//! Writes arguments in brackets: those that have a compound statement of a shell, and actions with
//! calls.

ghost use Rattle.std.specs.Prelude.{◌≡◌, ◌≤◌, ◌<◌, ◌==◌, ◌||◌, true, Some, map, length, slice_get, slice_index, slice_range, ℕ, Contains, IfOk, OnOk, IsTrue};
ghost use Rattle.std.specs.List.{list_all};
ghost use Rattle.ac_calls.specs.Calls.{calls_in, macro_call_of};
ghost use Rattle.port_spots.specs.Put as put;
ghost use Rattle.port_passes.specs.Rewritten as specs;

use crate::names::{is_before_value, names_variable};
use ac_calls::{CallAt, Extent, calls_of};
use lint_text::{is_word_byte, part};
use port_edits::{Pass, write_change};
use port_idioms::Idioms;
use port_spots::{are_blank, has_compound, without_end_blanks};
use std::alloc::{AllocError, Global};

/// Returns an argument of the call.
fn argument_at(call: &CallAt, index: usize) -> Option<Extent>
    ensures { result ≡ slice_get (macro_call_of call.now).args index }
{
    call.args.get(index).copied()
}

fn is_bracket(byte: u8) -> bool
    ensures { result ≡ specs.is_bracket byte }
{
    byte == b'[' || byte == b']'
}

/// Returns whether an offset is in one of the calls from the one at an index on, if it begins in
/// the argument. They are in order of their offsets.
fn is_in_call(text: &[u8], calls: &[CallAt], first: usize, arg: Extent, at: usize) -> bool
    requires calls { map macro_call_of calls.now ≡ calls_in text.now }
    ensures { IsTrue result → specs.IsInCall text.now arg at }
{
    let _ = text;
    for i in first..calls.len() {
        let call = &calls[i];
        if at < call.start {
            return false;
        }
        if arg.start <= call.start && at < call.end {
            return true;
        }
    }
    false
}

/// Returns whether the byte at an offset is no bracket, or is in a call that begins in the
/// argument.
fn is_plain_at(text: &[u8], calls: &[CallAt], first: usize, arg: Extent, at: usize) -> bool
    requires calls { map macro_call_of calls.now ≡ calls_in text.now }
    ensures { IsTrue result
        → specs.is_bracket (slice_index text.now at) ≡ true
        → specs.IsInCall text.now arg at }
{
    at < text.len() && (!is_bracket(text[at]) || is_in_call(text, calls, first, arg, at))
}

/// Returns whether each bracket of an argument up to an offset is in a call.
fn is_plain(text: &[u8], calls: &[CallAt], first: usize, arg: Extent, end: usize) -> bool
    requires calls { map macro_call_of calls.now ≡ calls_in text.now }
    ensures { IsTrue result
        → (at : ℕ) → arg.start ≤ at → at < end → specs.is_bracket (slice_index text.now at) ≡ true
        → specs.IsInCall text.now arg at }
{
    for at in arg.start..end {
        if !is_plain_at(text, calls, first, arg, at) {
            return false;
        }
    }
    true
}

/// Returns whether each bracket of an argument up to an offset is in a call, and nothing but blanks
/// is after it.
fn is_bare(text: &[u8], calls: &[CallAt], first: usize, arg: Extent, end: usize) -> bool
    requires calls { map macro_call_of calls.now ≡ calls_in text.now }
    ensures { IsTrue result
        → specs.IsBare text.now arg end × (arg.start ≤ end) × (end ≤ length text.now) }
{
    let is_there = arg.start <= end && end <= arg.end && arg.end <= text.len();
    is_there && is_plain(text, calls, first, arg, end) && are_blank(&text[end..arg.end])
}

/// Returns the text between two offsets in brackets.
pub(crate) fn in_brackets(
    alloc: Global,
    text: &[u8],
    start: usize,
    end: usize,
) -> Result<Vec<u8>, AllocError>
    requires { (start ≤ end) × (end ≤ length text.now) }
    ensures { IfOk result (λ v. v.items ≡ specs.in_brackets (slice_range text.now start end)) }
{
    let mut out = Vec::new(alloc);
    out.push(b'[')?;
    out.extend_from_slice(&text[start..end])?;
    out.push(b']')?;
    Ok(out)
}

/// Writes the argument at an index, up to an offset, in brackets, unless it has some outside its
/// calls, or is not after what was read.
fn put_brackets(
    alloc: Global,
    idioms: Idioms,
    text: &[u8],
    calls: &[CallAt],
    first: usize,
    call: &CallAt,
    index: usize,
    arg: Extent,
    end: usize,
    pass: &mut Pass,
) -> Result<(), AllocError>
    requires calls { map macro_call_of calls.now ≡ calls_in text.now }
    requires call { Contains (calls_in text.now) (macro_call_of call.now) }
    requires read { (macro_call_of call.now).is_of_profile ≡ true }
    requires arg { slice_get (macro_call_of call.now).args index ≡ Some arg }
    requires begun { specs.IsPass idioms text.now pass.old.at pass.old.out.items }
    ensures { OnOk result (specs.IsPass idioms text.now pass.new.at pass.new.out.items) }
{
    let _ = idioms;
    let _ = call;
    let _ = index;
    if arg.start < pass.at || !is_bare(text, calls, first, arg, end) {
        return Ok(());
    }
    let put = in_brackets(alloc, text, arg.start, end)?;
    write_change(text, arg.start, end, put.as_slice(), pass)
}

/// The length of the longest argument that gets brackets. Each bracket in it is looked for in the
/// calls of the argument.
const LONGEST: usize = 2000;

/// Returns whether a variable is set in an argument whose name is spelled as that of a macro.
fn sets_variable(text: &[u8], calls: &[CallAt], first: usize, arg: Extent) -> bool {
    for i in first..calls.len() {
        let call = &calls[i];
        if arg.end <= call.start {
            return false;
        }
        if arg.start <= call.start
            && names_variable(text, call)
            && is_before_value(text, call.end)
        {
            return true;
        }
    }
    false
}

/// Returns the offset after the last byte of an argument that is no blank, if it is no longer than
/// `LONGEST`, and one of its lines begins a compound statement of a shell, or it sets a variable
/// whose name is spelled as that of a macro.
fn compound_end(text: &[u8], calls: &[CallAt], first: usize, arg: Extent) -> Option<usize> {
    let written = without_end_blanks(part(text, arg.start, arg.end));
    let is_short = written.len() <= LONGEST;
    if is_short && (has_compound(written) || sets_variable(text, calls, first, arg)) {
        Some(arg.start.saturating_add(written.len()))
    } else {
        None
    }
}

/// Writes the argument of a call at an index in brackets, if it has none and a compound statement
/// of a shell is in it: a call that takes the place of that has commas, at which m4 would cut the
/// argument.
fn pass_argument(
    alloc: Global,
    idioms: Idioms,
    text: &[u8],
    calls: &[CallAt],
    first: usize,
    call: &CallAt,
    index: usize,
    pass: &mut Pass,
) -> Result<(), AllocError>
    requires calls { map macro_call_of calls.now ≡ calls_in text.now }
    requires call { Contains (calls_in text.now) (macro_call_of call.now) }
    requires read { (macro_call_of call.now).is_of_profile ≡ true }
    requires begun { specs.IsPass idioms text.now pass.old.at pass.old.out.items }
    ensures { OnOk result (specs.IsPass idioms text.now pass.new.at pass.new.out.items) }
{
    let Some(arg) = argument_at(call, index) else {
        return Ok(());
    };
    match compound_end(text, calls, first, arg) {
        Some(end) => put_brackets(
            alloc, idioms, text, calls, first, call, index, arg, end, pass,
        ),
        None => Ok(()),
    }
}

// ---- actions

fn is_two_or_three(index: usize) -> bool
    ensures { result ≡ (index == 2 || index == 3) }
{
    index == 2 || index == 3
}

fn is_one_to_three(index: usize) -> bool
    ensures { result ≡ (index == 1 || index == 2 || index == 3) }
{
    index == 1 || index == 2 || index == 3
}

fn is_one_or_two(index: usize) -> bool
    ensures { result ≡ (index == 1 || index == 2) }
{
    index == 1 || index == 2
}

/// Returns whether a macro of this name does what its argument at an index says.
fn does_argument(name: &[u8], index: usize) -> bool
    ensures { result ≡ specs.does_argument name.now index }
{
    ((name == b"AC_TRY_COMPILE".as_slice()
        || name == b"AC_TRY_LINK".as_slice()
        || name == b"AC_EGREP_CPP".as_slice()
        || name == b"PKG_CHECK_MODULES".as_slice())
        && is_two_or_three(index))
        || (name == b"AC_TRY_RUN".as_slice() && is_one_to_three(index))
        || ((name == b"AC_TRY_LINK_FUNC".as_slice() || name == b"AC_TRY_CPP".as_slice())
            && is_one_or_two(index))
}

/// Returns whether the call is one of a macro that does what its argument at an index says.
fn does_it(text: &[u8], call: &CallAt, index: usize) -> bool
    ensures { IsTrue result → specs.DoesArgument text.now (macro_call_of call.now) index }
{
    let has_name = call.start <= call.name_end && call.name_end <= text.len();
    has_name && does_argument(&text[call.start..call.name_end], index)
}

/// Returns the extent of a whole text.
fn whole_of(text: &[u8]) -> Extent
    ensures { (result.start ≡ 0) × (result.end ≡ length text.now) }
{
    Extent {
        start: 0,
        end: text.len(),
    }
}

/// Returns whether each bracket of a text is in one of its calls.
fn is_bare_alone(text: &[u8], calls: &[CallAt], whole: Extent) -> bool
    requires calls { map macro_call_of calls.now ≡ calls_in text.now }
    ensures { IsTrue result → specs.IsBare text.now whole (length text.now) }
{
    is_bare(text, calls, 0, whole, text.len())
}

/// Returns whether an offset is in an argument, and nothing but blanks from it on.
fn is_blank_after(text: &[u8], arg: Extent, end: usize) -> bool
    ensures { IsTrue result
        → ((arg.start ≤ end) × (end ≤ arg.end) × (arg.end ≤ length text.now))
        × (list_all put.is_blank_or_return (slice_range text.now end arg.end) ≡ true) }
{
    let is_there = arg.start <= end && end <= arg.end && arg.end <= text.len();
    is_there && are_blank(&text[end..arg.end])
}

/// Writes an action up to an offset in brackets, unless it has some outside the calls in it.
fn put_enclosed(
    alloc: Global,
    idioms: Idioms,
    text: &[u8],
    inner: &[CallAt],
    call: &CallAt,
    index: usize,
    arg: Extent,
    end: usize,
    pass: &mut Pass,
) -> Result<(), AllocError>
    requires place { ((arg.start ≤ end) × (end ≤ arg.end) × (arg.end ≤ length text.now))
        × (list_all put.is_blank_or_return (slice_range text.now end arg.end) ≡ true) }
    requires inner { map macro_call_of inner.now ≡ calls_in (slice_range text.now arg.start end) }
    requires call { Contains (calls_in text.now) (macro_call_of call.now) }
    requires does { specs.DoesArgument text.now (macro_call_of call.now) index }
    requires arg { slice_get (macro_call_of call.now).args index ≡ Some arg }
    requires begun { specs.IsPass idioms text.now pass.old.at pass.old.out.items }
    ensures { OnOk result (specs.IsPass idioms text.now pass.new.at pass.new.out.items) }
{
    let _ = idioms;
    let _ = call;
    let _ = index;
    let whole = whole_of(&text[arg.start..end]);
    if arg.start < pass.at || !is_bare_alone(&text[arg.start..end], inner, whole) {
        return Ok(());
    }
    let put = in_brackets(alloc, text, arg.start, end)?;
    write_change(text, arg.start, end, put.as_slice(), pass)
}

/// Macros that Autoconf makes the same of if brackets are around their call: none of them requires
/// another one.
const SIMPLE: [&[u8]; 6] = [
    b"AC_DEFINE",
    b"AC_DEFINE_UNQUOTED",
    b"AC_MSG_RESULT",
    b"AC_MSG_WARN",
    b"AC_MSG_NOTICE",
    b"AC_MSG_ERROR",
];

/// Returns whether a macro of this name is one of these.
fn is_simple(name: &[u8]) -> bool {
    SIMPLE.iter().any(|other| *other == name)
}

/// Returns whether there is a call, and all are simple.
fn are_simple(text: &[u8], calls: &[CallAt]) -> bool {
    for call in calls {
        if !is_simple(part(text, call.start, call.name_end)) {
            return false;
        }
    }
    !calls.is_empty()
}

/// Returns whether a comment may be in a text, of a shell or of m4.
fn may_have_comment(text: &[u8]) -> bool {
    text.contains(&b'#')
        || text
            .split(|byte| !is_word_byte(*byte))
            .any(|word| word == b"dnl".as_slice())
}

/// Returns the offset after the last byte of an action that is no blank, if it is no longer than
/// `LONGEST`, and no comment is in it.
fn action_end(text: &[u8], arg: Extent) -> Option<usize> {
    let written = without_end_blanks(part(text, arg.start, arg.end));
    if written.len() <= LONGEST && !may_have_comment(written) {
        Some(arg.start.saturating_add(written.len()))
    } else {
        None
    }
}

/// Writes an action up to an offset in brackets, if it has calls and all are simple.
fn enclose(
    alloc: Global,
    idioms: Idioms,
    text: &[u8],
    call: &CallAt,
    index: usize,
    arg: Extent,
    end: usize,
    pass: &mut Pass,
) -> Result<(), AllocError>
    requires call { Contains (calls_in text.now) (macro_call_of call.now) }
    requires does { specs.DoesArgument text.now (macro_call_of call.now) index }
    requires arg { slice_get (macro_call_of call.now).args index ≡ Some arg }
    requires begun { specs.IsPass idioms text.now pass.old.at pass.old.out.items }
    ensures { OnOk result (specs.IsPass idioms text.now pass.new.at pass.new.out.items) }
{
    if !is_blank_after(text, arg, end) {
        return Ok(());
    }
    let inner = calls_of(alloc, &text[arg.start..end])?;
    if are_simple(&text[arg.start..end], inner.as_slice()) {
        put_enclosed(
            alloc,
            idioms,
            text,
            inner.as_slice(),
            call,
            index,
            arg,
            end,
            pass,
        )
    } else {
        Ok(())
    }
}

/// Writes an action of a call at an index in brackets, if it has none and its calls are simple.
fn pass_action(
    alloc: Global,
    idioms: Idioms,
    text: &[u8],
    call: &CallAt,
    index: usize,
    pass: &mut Pass,
) -> Result<(), AllocError>
    requires call { Contains (calls_in text.now) (macro_call_of call.now) }
    requires begun { specs.IsPass idioms text.now pass.old.at pass.old.out.items }
    ensures { OnOk result (specs.IsPass idioms text.now pass.new.at pass.new.out.items) }
{
    let Some(arg) = argument_at(call, index) else {
        return Ok(());
    };
    if !does_it(text, call, index) {
        return Ok(());
    }
    match action_end(text, arg) {
        Some(end) => enclose(alloc, idioms, text, call, index, arg, end, pass),
        None => Ok(()),
    }
}

/// Writes the actions of a call in brackets that have none.
fn pass_actions(
    alloc: Global,
    idioms: Idioms,
    text: &[u8],
    call: &CallAt,
    pass: &mut Pass,
) -> Result<(), AllocError>
    requires call { Contains (calls_in text.now) (macro_call_of call.now) }
    requires begun { specs.IsPass idioms text.now pass.old.at pass.old.out.items }
    ensures { OnOk result (specs.IsPass idioms text.now pass.new.at pass.new.out.items) }
{
    for index in 1..call.args.len() {
        pass_action(alloc, idioms, text, call, index, pass)?;
    }
    Ok(())
}

/// Writes each argument of a call in brackets that has none, if acrun reads the macro and a compound
/// statement of a shell is in the argument. The first one is no list of statements. Of a macro that
/// acrun doesn't read it writes actions with calls so.
pub fn pass_arguments(
    alloc: Global,
    idioms: Idioms,
    text: &[u8],
    calls: &[CallAt],
    first: usize,
    call: &CallAt,
    pass: &mut Pass,
) -> Result<(), AllocError>
    requires calls { map macro_call_of calls.now ≡ calls_in text.now }
    requires call { Contains (calls_in text.now) (macro_call_of call.now) }
    requires begun { specs.IsPass idioms text.now pass.old.at pass.old.out.items }
    ensures { OnOk result (specs.IsPass idioms text.now pass.new.at pass.new.out.items) }
{
    if !call.is_of_profile {
        return pass_actions(alloc, idioms, text, call, pass);
    }
    for index in 1..call.args.len() {
        pass_argument(alloc, idioms, text, calls, first, call, index, pass)?;
    }
    Ok(())
}
