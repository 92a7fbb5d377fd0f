//! Precious variables, compared with those of the run that made a cache.

ghost use Rattle.std.specs.Prelude.{◌≡◌, ◌≢◌, ◌++◌, ◌||◌, Err, IfOk, IfErr, OnOk, OnErr, option_map, option_to_list, map, fold};
ghost use Rattle.std.specs.Str.{bytes_eq};
ghost use Rattle.cachefile.specs.Cache.{HaveSameMarks, vars_after};
ghost use Rattle.options.specs.Opening as opening;
ghost use Rattle.options.specs.Opening.{with_variable};
ghost use Rattle.options.specs.Precious as words;
ghost use Rattle.options.specs.Reading.{Gives};
ghost use Rattle.options.specs.declared.fault.PreciousFault as faults;
ghost use Rattle.options.specs.declared.fault.PreciousFault.TheVariants.{OutOfMemory};

use crate::fault::PreciousFault;
use crate::opening::{mark_name, set_all};
use cachefile::{OldCache, is_mark};
use deftable::{Bytes, Note, Notes, Stream, SubstList, Vars};
use std::alloc::{AllocError, Global};
use text_cut::fields;

/// Returns variables with the marks that pouring the cache would leave.
fn marked_by(alloc: Global, vars: &Vars, cache: &OldCache) -> Result<Vars, AllocError>
    ensures { IfOk result (λ marked. HaveSameMarks marked (vars_after cache.now vars.now)) }
{
    let mut marked = vars.copy(alloc)?;
    cache.pour_marks(&mut marked)?;
    Ok(marked)
}

/// Returns the value that a variable had by its marks, or `None` if it was unset.
#[tactic(auto, unfolding(crate::specs::Precious::old_value))]
fn old_value<'a>(
    alloc: Global,
    marked: &'a Vars,
    name: &[u8],
) -> Result<Option<&'a [u8]>, AllocError>
    ensures { IfOk result (λ old.
        option_map (λ v. v.now) old ≡ words.old_value marked.now name.now) }
{
    let set_name = mark_name(alloc, name, b"_set")?;
    if marked.value_or_empty(set_name.as_slice()) == b"".as_slice() {
        return Ok(None);
    }
    let value_name = mark_name(alloc, name, b"_value")?;
    Ok(Some(marked.value_or_empty(value_name.as_slice())))
}

/// Returns the value that a precious variable has before any mark, or `None` if it is unset then.
#[tactic(auto, unfolding(crate::specs::Precious::value_before))]
pub fn value_before<'a>(
    alloc: Global,
    vars: &'a Vars,
    name: &[u8],
) -> Result<Option<&'a [u8]>, AllocError>
    ensures { IfOk result (λ value.
        option_map (λ v. v.now) value ≡ words.value_before vars.now name.now) }
{
    let Some(value) = vars.get(name) else {
        return Ok(None);
    };
    if is_mark(name) {
        return old_value(alloc, vars, name);
    }
    Ok(Some(value.as_slice()))
}

fn have_same_fields(alloc: Global, a: &[u8], b: &[u8]) -> Result<bool, AllocError>
    ensures { IfOk result (λ same. same ≡ words.have_same_fields a.now b.now) }
{
    let a = fields(alloc, a)?;
    let b = fields(alloc, b)?;
    Ok(a.as_slice() == b.as_slice())
}

/// Returns the old value if only its blanks differ from the value now, and `None` if nothing does.
#[tactic(auto, unfolding(crate::specs::Precious::restored))]
fn restored_value<'a>(
    alloc: Global,
    place: u64,
    old: &'a [u8],
    now: &[u8],
) -> Result<Option<&'a [u8]>, PreciousFault>
    ensures { Gives (λ value. option_map (λ v. v.now) value) result
        (words.restored place (Some old.now) (Some now.now)) }
{
    if old == now {
        return Ok(None);
    }
    if have_same_fields(alloc, old, now)? {
        return Ok(Some(old));
    }
    Err(PreciousFault::Changed(place))
}

/// Returns the value that the variable at a place gets back, if it gets one back.
#[tactic(auto, unfolding(crate::specs::Precious::restored))]
fn restored<'a>(
    alloc: Global,
    place: u64,
    old: Option<&'a [u8]>,
    now: Option<&[u8]>,
) -> Result<Option<&'a [u8]>, PreciousFault>
    ensures { Gives (λ value. option_map (λ v. v.now) value) result (
        words.restored place (option_map (λ v. v.now) old.entry)
        (option_map (λ v. v.now) now.entry)) }
{
    match (old, now) {
        (None, None) => Ok(None),
        (None, Some(_)) => Err(PreciousFault::WasUnset(place)),
        (Some(_), None) => Err(PreciousFault::WasSet(place)),
        (Some(old), Some(now)) => restored_value(alloc, place, old, now),
    }
}

/// Returns whether the name is that of a mark of this variable.
fn is_mark_of(alloc: Global, of: &Bytes, name: &[u8]) -> Result<bool, AllocError>
    ensures { IfOk result (λ marks. marks ≡ (bytes_eq name.now (opening.set_name of.now)
        || bytes_eq name.now (opening.value_name of.now))) }
{
    let set_name = mark_name(alloc, of.as_slice(), b"_set")?;
    let value_name = mark_name(alloc, of.as_slice(), b"_value")?;
    Ok(name == set_name.as_slice() || name == value_name.as_slice())
}

/// Returns whether the name is that of a mark of a precious variable.
#[tactic(auto, unfolding(crate::specs::Opening::marks_one))]
fn is_mark_of_one(alloc: Global, precious: &[Bytes], name: &[u8]) -> Result<bool, AllocError>
    ensures { IfOk result (λ marks. marks ≡ opening.marks_one precious.now name.now) }
{
    for of in precious {
        if is_mark_of(alloc, of, name)? {
            return Ok(true);
        }
    }
    Ok(false)
}

/// Returns whether the name is that of a mark of a precious variable. If it does not begin as one,
/// no name is compared.
#[tactic(auto, using(crate::proofs::Checks::no_mark))]
fn marks_one(alloc: Global, precious: &[Bytes], name: &[u8]) -> Result<bool, AllocError>
    ensures { IfOk result (λ marks. marks ≡ opening.marks_one precious.now name.now) }
{
    if !is_mark(name) {
        return Ok(false);
    }
    is_mark_of_one(alloc, precious, name)
}

/// Returns the variable with this old value, if there is one and the variable is no mark of a
/// precious one.
fn change_of(
    alloc: Global,
    precious: &[Bytes],
    name: &Bytes,
    value: Option<&[u8]>,
) -> Result<Option<(Bytes, Bytes)>, AllocError>
    ensures { IfOk result (λ change. change
        ≡ words.change_of precious.now name.now (option_map (λ v. v.now) value.entry)) }
{
    let Some(value) = value else {
        return Ok(None);
    };
    if marks_one(alloc, precious, name.as_slice())? {
        return Ok(None);
    }
    let name = name.copy(alloc)?;
    Ok(Some((name, Bytes::from_slice(alloc, value)?)))
}

/// Compares the variable at a place. Returns it with the value that it gets back, if it gets one
/// back.
#[tactic(auto, unfolding(crate::specs::Precious::restored_variable))]
fn restored_variable(
    alloc: Global,
    precious: &[Bytes],
    place: u64,
    vars: &Vars,
    marked: &Vars,
    name: &Bytes,
) -> Result<Option<(Bytes, Bytes)>, PreciousFault>
    ensures { Gives (λ change. change) result
        (words.restored_variable precious.now place vars.now marked.now name.now) }
{
    let old = old_value(alloc, marked, name.as_slice())?;
    let now = value_before(alloc, vars, name.as_slice())?;
    let value = restored(alloc, place, old, now)?;
    Ok(change_of(alloc, precious, name, value)?)
}

fn push_change(
    changes: &mut Vec<(Bytes, Bytes)>,
    change: Option<(Bytes, Bytes)>,
) -> Result<(), PreciousFault>
    ensures ok { OnOk result (changes.new.items ≡ changes.old.items ++ option_to_list change) }
    ensures err { IfErr result (λ e. e ≡ OutOfMemory) }
{
    if let Some(change) = change {
        changes.push(change)?;
    }
    Ok(())
}

/// Compares all variables. Returns those that get values back.
fn restored_variables(
    alloc: Global,
    precious: &[Bytes],
    vars: &Vars,
    marked: &Vars,
) -> Result<Vec<(Bytes, Bytes)>, PreciousFault>
    ensures { Gives (λ changes. changes.items) result
        (words.restored_from precious.now 1 vars.now marked.now precious.now) }
{
    let mut changes = Vec::new(alloc);
    'names: for i in 0..precious.len() {
        let change = restored_variable(alloc, precious, i as u64 + 1, vars, marked, &precious[i])?;
        push_change(&mut changes, change)?;
    }
    Ok(changes)
}

/// Compares all variables with what a cache would leave in their marks.
fn compare_all(
    alloc: Global,
    precious: &[Bytes],
    vars: &Vars,
    cache: &OldCache,
) -> Result<Vec<(Bytes, Bytes)>, PreciousFault>
    ensures { Gives (λ changes. changes.items) result
        (words.restored_from precious.now 1 vars.now (vars_after cache.now vars.now) precious.now) }
{
    let marked = marked_by(alloc, vars, cache)?;
    restored_variables(alloc, precious, vars, &marked)
}

#[tactic(auto, unfolding(crate::specs::Precious::blanks_note))]
fn blanks_note(alloc: Global, name: &[u8]) -> Result<Note, AllocError>
    ensures { IfOk result (λ note. note ≡ words.blanks_note name.now) }
{
    let mut text = Vec::from_slice(alloc, b"configure: WARNING: blanks of ")?;
    text.extend_from_slice(name)?;
    text.extend_from_slice(b" have changed, old value used\n")?;
    Ok(Note {
        stream: Stream::Err,
        text: Bytes::from_vec(text),
    })
}

fn notes_of(alloc: Global, changes: &[(Bytes, Bytes)]) -> Result<Notes, AllocError>
    ensures { IfOk result (λ notes.
        notes ≡ map (λ change. words.blanks_note change.0) changes.now) }
{
    let mut notes = Notes::new(alloc);
    for change in changes {
        notes.push(blanks_note(alloc, change.0.as_slice())?)?;
    }
    Ok(notes)
}

fn with_changes(alloc: Global, vars: &Vars, changes: &[(Bytes, Bytes)]) -> Result<Vars, AllocError>
    ensures { IfOk result (λ after. after ≡ fold with_variable vars.now changes.now) }
{
    let mut after = vars.copy(alloc)?;
    set_all(&mut after, changes)?;
    Ok(after)
}

/// Makes the changes, all or none, and returns a note about each.
fn change_all(
    alloc: Global,
    vars: &mut Vars,
    changes: &[(Bytes, Bytes)],
) -> Result<Notes, AllocError>
    ensures vars { OnOk result (vars.new ≡ fold with_variable vars.old changes.now) }
    ensures notes { IfOk result (λ notes.
        notes ≡ map (λ change. words.blanks_note change.0) changes.now) }
    ensures unchanged { OnErr result (vars.new ≡ vars.old) }
{
    if changes.is_empty() {
        return Ok(Notes::new(alloc));
    }
    let notes = notes_of(alloc, changes)?;
    *vars = with_changes(alloc, vars, changes)?;
    Ok(notes)
}

/// Compares all variables, and then makes the changes.
fn check(
    alloc: Global,
    precious: &SubstList,
    vars: &mut Vars,
    cache: &OldCache,
) -> Result<Notes, PreciousFault>
    ensures exact { Gives (λ notes. (vars.new, notes)) result
        (words.checked precious.now vars.old cache.now) }
    ensures unchanged { OnErr result (vars.new ≡ vars.old) }
{
    let changes = compare_all(alloc, precious.names(), vars, cache)?;
    Ok(change_all(alloc, vars, &changes)?)
}

/// Checks precious variables against a cache that is still to be poured over the variables
/// (Autoconf's manual, "Setting Output Variables" and "Cache Files").
///
/// The variables have their marks already, as [`read_args_of`](crate::read_args_of) leaves them. A
/// precious variable is compared with the marks that pouring the cache would leave: whether the
/// variable was set, and its value. So a variable whose marks the cache lacks counts as unchanged.
/// If only blanks have changed, the variable gets its old value, with a note about it. All
/// variables are compared before any is changed.
///
/// A precious variable may have the name of a mark of another one. It is compared by the value that
/// it has before any mark, and is never changed.
///
/// This takes time and memory in proportion to the cache and the variables. For each name that
/// begins with `ac_cv_env_`, and of which only blanks have changed, it also takes time in
/// proportion to the precious variables.
///
/// # Errors
///
/// Returns the fault of the first variable that has one, in the order of `precious`: `WasSet`,
/// `WasUnset` or `Changed`. If it fails, the variables are unchanged.
pub fn check_precious_of(
    alloc: Global,
    precious: &SubstList,
    vars: &mut Vars,
    cache: &OldCache,
) -> Result<Notes, PreciousFault>
    // Each precious variable has its old value, and the notes are those about changed blanks.
    ensures sound { IfOk result (λ notes.
        words.IsChecked precious.now vars.old cache.now vars.new notes) }
    // If nothing but blanks has changed, it fails only if memory runs out.
    ensures complete { words.AreUnchanged precious.now vars.old cache.now
        → IfErr result (λ fault. fault ≡ OutOfMemory) }
    // A fault other than out of memory is the first one.
    ensures error_sound { IfErr result (λ fault.
        fault ≢ OutOfMemory → words.IsPreciousFault precious.now vars.old cache.now fault) }
    // If a variable has a fault, the first one is returned, unless memory runs out.
    ensures error_complete { (fault : faults.PreciousFault)
        → words.IsPreciousFault precious.now vars.old cache.now fault
        → Gives (λ notes. notes) result (Err fault) }
    // The same as a function.
    ensures exact { Gives (λ notes. (vars.new, notes)) result
        (words.checked precious.now vars.old cache.now) }
    // A failed check changes nothing.
    ensures unchanged { OnErr result (vars.new ≡ vars.old) }
{
    check(alloc, precious, vars, cache)
}
