//! Tests of files in conditions: a program asks before the statement.

ghost use Rattle.std.specs.Prelude.{◌≡◌, ◌≤◌, ◌<◌, ◌+◌, ◌++◌, true, false, map, length, slice_range, codes, Contains, IfOk, IfSome, OnOk, IsTrue};
ghost use Rattle.ac_calls.specs.Calls.{calls_in, macro_call_of};
ghost use Rattle.port_parts.specs.Places.{IsWord};
ghost use Rattle.port_joints.specs.Files as files;
ghost use Rattle.port_edits.specs.Edits.{change_of};
ghost use Rattle.port_put.specs.Calls.{IsPut};
ghost use Rattle.port_shell.specs.Formed as specs;

use crate::conditions::{ConditionPlace, indent_at};
use ac_calls::CallAt;
use lint_text::{part, without_end_blanks};
use port_edits::Edit;
use port_idioms::Idioms;
use port_joints::{FileCut, file_test, has_part, is_test_of_files, program_of, with_answer};
use port_parts::begins_statement;
use port_put::accepted_call;
use std::alloc::{AllocError, Global};

/// The variables that answers are put into.
const NAMES: [&[u8]; 5] = [
    b"acrun_file",
    b"acrun_file_2",
    b"acrun_file_3",
    b"acrun_file_4",
    b"acrun_file_5",
];

// ---- where a program may ask

/// Returns whether the call is one of AC_PROG_CC, before an offset.
fn is_compiler_before(text: &[u8], call: &CallAt, start: usize) -> bool
    requires { Contains (calls_in text.now) (macro_call_of call.now) }
    ensures { IsTrue result → specs.HasCompiler text.now start }
{
    let has_name = call.start <= call.name_end && call.name_end <= text.len();
    has_name && call.end <= start && &text[call.start..call.name_end] == b"AC_PROG_CC".as_slice()
}

/// Returns whether the call of an index is one of AC_PROG_CC, before an offset.
fn is_compiler_at(text: &[u8], calls: &[CallAt], index: usize, start: usize) -> bool
    requires { map macro_call_of calls.now ≡ calls_in text.now }
    ensures { IsTrue result → specs.HasCompiler text.now start }
{
    index < calls.len() && is_compiler_before(text, &calls[index], start)
}

/// Returns whether AC_PROG_CC is before an offset.
fn has_compiler(text: &[u8], calls: &[CallAt], start: usize) -> bool
    requires { map macro_call_of calls.now ≡ calls_in text.now }
    ensures { IsTrue result → specs.HasCompiler text.now start }
{
    for index in 0..calls.len() {
        if is_compiler_at(text, calls, index, start) {
            return true;
        }
    }
    false
}

/// Returns whether `elif` is at an offset.
fn is_branch(text: &[u8], start: usize) -> bool
    ensures { result ≡ false → IsWord text.now start (codes "elif") (start + 4) → ⊥ }
{
    start <= text.len() && text[start..].starts_with(b"elif")
}

/// Returns whether a statement may begin at an offset, which isn't `elif`, and AC_PROG_CC is before
/// it.
fn may_ask_at(text: &[u8], calls: &[CallAt], start: usize) -> bool
    requires { map macro_call_of calls.now ≡ calls_in text.now }
    ensures { IsTrue result → specs.MayAskAt text.now start }
{
    begins_statement(text, start) && !is_branch(text, start) && has_compiler(text, calls, start)
}

/// Returns whether a command is joined to the one before an offset.
fn is_joined(text: &[u8], start: usize) -> bool {
    let before = without_end_blanks(part(text, 0, start));
    match before.last() {
        Some(last) => matches!(*last, b'&' | b'|' | b'\\'),
        None => false,
    }
}

// ---- what is written

#[tactic(auto, unfolding(crate::specs::Formed::asked_said))]
fn asked_said() -> &'static [u8]
    ensures { result.now ≡ specs.asked_said }
{
    b"dnl acrun: in place of a test of a file: a program asks, to which a backslash of a variable is one of C, and whose answer is no in a cross build and if the word is empty"
}

#[tactic(auto, unfolding(crate::specs::Formed::flags_kept))]
fn flags_kept() -> &'static [u8]
    ensures { result.now ≡ specs.flags_kept }
{
    b"acrun_CFLAGS=$CFLAGS acrun_CPPFLAGS=$CPPFLAGS acrun_LDFLAGS=$LDFLAGS acrun_LIBS=$LIBS CFLAGS= CPPFLAGS= LDFLAGS= LIBS="
}

#[tactic(auto, unfolding(crate::specs::Formed::flags_back))]
fn flags_back() -> &'static [u8]
    ensures { result.now ≡ specs.flags_back }
{
    b"CFLAGS=$acrun_CFLAGS CPPFLAGS=$acrun_CPPFLAGS LDFLAGS=$acrun_LDFLAGS LIBS=$acrun_LIBS"
}

/// Appends a line and the indent of the next one.
fn put_ended(out: &mut Vec<u8>, indent: &[u8], text: &[u8]) -> Result<(), AllocError>
    ensures { OnOk result (out.new.items ≡ out.old.items ++ specs.ended indent.now text.now) }
{
    out.extend_from_slice(text)?;
    out.push(b'\n')?;
    out.extend_from_slice(indent)
}

/// Returns the comment above a statement, and the call that asks without the flags of the moment,
/// with this indent after each line.
#[tactic(auto, unfolding(crate::specs::Formed::asked_so))]
fn asked_so(alloc: Global, indent: &[u8], call: &[u8]) -> Result<Vec<u8>, AllocError>
    ensures { IfOk result (λ v. v.items ≡ specs.asked_so indent.now call.now) }
{
    let mut out = Vec::new(alloc);
    put_ended(&mut out, indent, asked_said())?;
    put_ended(&mut out, indent, flags_kept())?;
    put_ended(&mut out, indent, call)?;
    put_ended(&mut out, indent, flags_back())?;
    Ok(out)
}

/// Returns the same, and below it a statement up to its condition, and the condition.
fn below(
    alloc: Global,
    indent: &[u8],
    call: &[u8],
    front: &[u8],
    put: &[u8],
) -> Result<Vec<u8>, AllocError>
    ensures { IfOk result (λ v.
        v.items ≡ specs.asked_so indent.now call.now ++ (front.now ++ put.now)) }
{
    let mut out = asked_so(alloc, indent, call)?;
    out.extend_from_slice(front)?;
    out.extend_from_slice(put)?;
    Ok(out)
}

/// Returns a variable's name with a text after it.
fn assignment(alloc: Global, name: &[u8], value: &[u8]) -> Result<Vec<u8>, AllocError>
    ensures { IfOk result (λ v. v.items ≡ name.now ++ value.now) }
{
    let mut out = Vec::from_slice(alloc, name)?;
    out.extend_from_slice(value)?;
    Ok(out)
}

#[tactic(auto, unfolding(crate::specs::Formed::root_front))]
fn root_front() -> &'static [u8]
    ensures { result.now ≡ specs.root_front }
{
    b"AC_RUN_IFELSE(["
}

#[tactic(auto, unfolding(crate::specs::Formed::root_back))]
fn root_back() -> &'static [u8]
    ensures { result.now ≡ specs.root_back }
{
    b"], [], [AC_MSG_ERROR([no program can ask for a file here; see config.log])], [:])"
}

/// Returns the call that asks for the root directory, and stops the run if it isn't found.
#[tactic(auto, unfolding(crate::specs::Formed::root_call))]
fn root_call(alloc: Global) -> Result<Vec<u8>, AllocError>
    ensures { IfOk result (λ v. v.items ≡ specs.root_call) }
{
    let program = program_of(alloc, b'e', b"/")?;
    let mut out = Vec::from_slice(alloc, root_front())?;
    out.extend_from_slice(program.as_slice())?;
    out.extend_from_slice(root_back())?;
    Ok(out)
}

/// Returns what a call that asks does if there is no such file.
fn lacking(alloc: Global, name: &[u8]) -> Result<Vec<u8>, AllocError>
    ensures { IfOk result (λ v. v.items ≡ specs.lacking name.now) }
{
    let root = root_call(alloc)?;
    let mut out = assignment(alloc, name, b"=no")?;
    out.push(b'\n')?;
    out.extend_from_slice(root.as_slice())?;
    Ok(out)
}

/// Returns the call that asks for a file, and sets a variable, unless acrun doesn't accept it.
fn asking_call(
    alloc: Global,
    letter: u8,
    path: &[u8],
    name: &[u8],
) -> Result<Option<Vec<u8>>, AllocError>
    ensures { IfOk result (λ o. IfSome o (λ v. specs.Asks letter path.now name.now v.items)) }
{
    let program = program_of(alloc, letter, path)?;
    let found = assignment(alloc, name, b"=yes")?;
    let lacks = lacking(alloc, name)?;
    let none = assignment(alloc, name, b"=no")?;
    accepted_call(
        alloc,
        b"AC_RUN_IFELSE",
        &[
            program.as_slice(),
            found.as_slice(),
            lacks.as_slice(),
            none.as_slice(),
        ],
    )
}

/// Returns a name of a variable that isn't in a condition, or none.
fn new_name(condition: &[u8]) -> &'static [u8] {
    for i in 0..NAMES.len() {
        if !has_part(condition, NAMES[i]) {
            return NAMES[i];
        }
    }
    b""
}

/// A condition with the answer of a program in the place of a test of a file.
#[derive(Drop)]
struct Answer {
    put: Vec<u8>,
    /// The call that asks.
    call: Vec<u8>,
}

/// Returns a condition with the answer of a call that asks for a file that it tests, which sets a
/// variable of a new name.
fn answered(
    alloc: Global,
    condition: &[u8],
    cut: FileCut,
    name: &[u8],
) -> Result<Option<Answer>, AllocError>
    requires test { files.IsFileTest condition.now cut.at cut.letter cut.from cut.to cut.end }
    requires readable { files.IsTestOfFiles condition.now }
    ensures { IfOk result (λ o.
        IfSome o (λ a. specs.IsAsked condition.now a.put.items a.call.items)) }
{
    if name.is_empty() || has_part(condition, name) {
        return Ok(None);
    }
    let Some(call) = asking_call(alloc, cut.letter, &condition[cut.from..cut.to], name)? else {
        return Ok(None);
    };
    let put = with_answer(alloc, condition, cut.at, cut.end, name)?;
    Ok(Some(Answer { put, call }))
}

/// Returns a condition with the answer for the first file that it tests, if it tests one, and if a
/// program can ask for it.
fn asked(alloc: Global, condition: &[u8]) -> Result<Option<Answer>, AllocError>
    ensures { IfOk result (λ o.
        IfSome o (λ a. specs.IsAsked condition.now a.put.items a.call.items)) }
{
    let Some(cut) = file_test(condition) else {
        return Ok(None);
    };
    if !is_test_of_files(alloc, condition)? {
        return Ok(None);
    }
    answered(alloc, condition, cut, new_name(condition))
}

/// Returns the change of a condition that has the answer for a file that it tests, if a program may
/// ask before its statement.
pub(crate) fn asked_edit(
    alloc: Global,
    text: &[u8],
    calls: &[CallAt],
    place: ConditionPlace,
) -> Result<Option<Edit>, AllocError>
    requires calls { map macro_call_of calls.now ≡ calls_in text.now }
    requires place { specs.IsPlace text.now place.start place.from place.to }
    ensures { IfOk result (λ o. IfSome o (λ e. specs.IsIdiom text.now (change_of e))) }
{
    if is_joined(text, place.start) || !may_ask_at(text, calls, place.start) {
        return Ok(None);
    }
    let Some(indent) = indent_at(text, calls, place.start) else {
        return Ok(None);
    };
    let Some(answer) = asked(alloc, &text[place.from..place.to])? else {
        return Ok(None);
    };
    let front = &text[place.start..place.from];
    let put = below(
        alloc,
        indent,
        answer.call.as_slice(),
        front,
        answer.put.as_slice(),
    )?;
    Ok(Some(Edit {
        start: place.start,
        end: place.to,
        put,
    }))
}
