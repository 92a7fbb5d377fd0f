//! The cache text of variables.

ghost use Rattle.std.specs.Prelude.{◌≡◌, ◌≤◌, ◌++◌, ◌∷◌, [], IfOk, IfSome, OnOk, length, map, reverse, true, codes};
ghost use Rattle.deftable.specs.Table as table;
ghost use Rattle.cachefile.specs.Cache as cache;
ghost use Rattle.cachefile.specs.Text as words;
ghost use Rattle.cachefile.specs.Word.{word_of};

use crate::name::is_mark;
use crate::word::word_text;
use deftable::{Bytes, Vars, is_cache_name};
use std::alloc::{AllocError, Global};
use std::cmp::Ordering;
use std::collections::BTreeMap;

fn is_one_line(text: &[u8]) -> bool
    ensures { result ≡ words.is_one_line text.now }
{
    text.iter().all(|byte| *byte != b'\n')
}

fn is_saved(name: &[u8], value: &[u8]) -> bool
    ensures { result ≡ words.is_saved (name.now, value.now) }
{
    is_cache_name(name) && is_one_line(value)
}

fn has_brace(value: &[u8]) -> bool
    ensures { result ≡ words.has_brace value.now }
{
    value.iter().any(|byte| *byte == b'{' || *byte == b'}')
}

// How many names may be before a name that is put in its place among the last ones.
const NEAR: u8 = 16;

// Puts the variable in its place among variables whose names descend, if at most `room` of the last
// names are before its own, and none is equal to it. Returns whether it is there.
fn put_near<'a>(
    list: &mut Vec<(&'a [u8], &'a [u8])>,
    name: &'a [u8],
    value: &'a [u8],
    room: u8,
) -> Result<bool, AllocError>
    ensures { IfOk result (λ found. found ≡ true
        → map (λ e. (e.0.now, e.1.now)) (reverse list.new.items)
        ≡ words.with_placed (map (λ e. (e.0.now, e.1.now)) (reverse list.old.items))
        (name.now, value.now)) }
{
    let Some(last) = list.pop() else {
        list.push((name, value))?;
        return Ok(true);
    };
    match name.cmp(last.0) {
        Ordering::Less => {
            list.push(last)?;
            list.push((name, value))?;
            Ok(true)
        }
        Ordering::Equal => Ok(false),
        Ordering::Greater => {
            if room == 0 {
                return Ok(false);
            }
            let found = put_near(list, name, value, room - 1)?;
            list.push(last)?;
            Ok(found)
        }
    }
}

// Puts the variable in its place if it is saved. Returns whether it is there, or needn't be.
fn save_near<'a>(
    list: &mut Vec<(&'a [u8], &'a [u8])>,
    name: &'a [u8],
    value: &'a [u8],
) -> Result<bool, AllocError>
    ensures { IfOk result (λ found. found ≡ true
        → map (λ e. (e.0.now, e.1.now)) (reverse list.new.items)
        ≡ words.with_saved (map (λ e. (e.0.now, e.1.now)) (reverse list.old.items))
        (name.now, value.now)) }
{
    if is_saved(name, value) {
        return put_near(list, name, value, NEAR);
    }
    Ok(true)
}

// Returns the variables that are saved, in the byte order of their names, or `None` if they are far
// from that order.
fn near_entries<'a>(
    alloc: Global,
    vars: &'a Vars,
) -> Result<Option<Vec<(&'a [u8], &'a [u8])>>, AllocError>
    ensures entries { IfOk result (λ found. IfSome found (λ list.
        map (λ e. (e.0.now, e.1.now)) list.items ≡ words.saved_entries vars.now)) }
    ensures distinct { IfOk result (λ found. table.HasDistinctNames vars.now) }
{
    let mut list = Vec::new(alloc);
    // A run with a cache has most of its variables in order. So each of them, from the last one on,
    // comes before almost all that are there.
    let mut left = vars.len();
    'names: while left > 0 {
        left -= 1;
        let (name, value) = vars.at(left);
        if !save_near(&mut list, name, value)? {
            return Ok(None);
        }
    }
    list.reverse();
    Ok(Some(list))
}

fn insert<'a>(
    sorted: &mut BTreeMap<&'a [u8], &'a [u8]>,
    name: &'a [u8],
    value: &'a [u8],
) -> Result<(), AllocError>
    ensures entries { OnOk result (map (λ e. (e.0.now, e.1.now)) sorted.new.entries
        ≡ words.with_placed (map (λ e. (e.0.now, e.1.now)) sorted.old.entries) (name.now, value.now)) }
    ensures order { OnOk result (
        words.AreInOrder (map (λ e. (e.0.now, e.1.now)) sorted.new.entries)) }
{
    sorted.insert(name, value)?;
    Ok(())
}

// Inserts the variable if it is saved.
fn save<'a>(
    sorted: &mut BTreeMap<&'a [u8], &'a [u8]>,
    name: &'a [u8],
    value: &'a [u8],
) -> Result<(), AllocError>
    ensures entries { OnOk result (map (λ e. (e.0.now, e.1.now)) sorted.new.entries
        ≡ words.with_saved (map (λ e. (e.0.now, e.1.now)) sorted.old.entries) (name.now, value.now)) }
    ensures order { OnOk result (
        words.AreInOrder (map (λ e. (e.0.now, e.1.now)) sorted.old.entries)
        → words.AreInOrder (map (λ e. (e.0.now, e.1.now)) sorted.new.entries)) }
{
    if is_saved(name, value) {
        return insert(sorted, name, value);
    }
    Ok(())
}

// Returns the variables that are saved, in the byte order of their names.
fn saved_entries<'a>(
    alloc: Global,
    vars: &'a Vars,
) -> Result<BTreeMap<&'a [u8], &'a [u8]>, AllocError>
    ensures entries { IfOk result (λ m.
        map (λ e. (e.0.now, e.1.now)) m.entries ≡ words.saved_entries vars.now) }
    ensures order { IfOk result (λ m.
        words.AreInOrder (map (λ e. (e.0.now, e.1.now)) m.entries)) }
    ensures distinct { IfOk result (λ m. table.HasDistinctNames vars.now) }
{
    let mut sorted = BTreeMap::new(alloc);
    let mut left = vars.len();
    'indices: while left > 0 {
        left -= 1;
        let (name, value) = vars.at(left);
        save(&mut sorted, name, value)?;
    }
    Ok(sorted)
}

fn push_plain(text: &mut Vec<u8>, name: &[u8], word: &[u8]) -> Result<(), AllocError>
    ensures { OnOk result (text.new.items ≡ text.old.items ++ words.plain_line name.now word.now) }
{
    text.extend_from_slice(name)?;
    text.extend_from_slice(b"=")?;
    text.extend_from_slice(word)
}

fn push_guarded(text: &mut Vec<u8>, name: &[u8], word: &[u8]) -> Result<(), AllocError>
    ensures { OnOk result (
        text.new.items ≡ text.old.items ++ words.guarded_line name.now word.now) }
{
    text.extend_from_slice(b"test ${")?;
    text.extend_from_slice(name)?;
    text.extend_from_slice(b"+y} || ")?;
    push_plain(text, name, word)
}

fn push_braced(text: &mut Vec<u8>, name: &[u8], word: &[u8]) -> Result<(), AllocError>
    ensures { OnOk result (text.new.items ≡ text.old.items ++ words.braced_line name.now word.now) }
{
    text.extend_from_slice(name)?;
    text.extend_from_slice(b"=${")?;
    push_plain(text, name, word)?;
    text.extend_from_slice(b"}")
}

// Adds the line of a variable, without its newline.
#[tactic(auto, unfolding(crate::specs::Text::line_for))]
fn push_assignment(
    text: &mut Vec<u8>,
    name: &[u8],
    value: &[u8],
    word: &[u8],
) -> Result<(), AllocError>
    requires { word.now ≡ word_of value.now }
    ensures { OnOk result (
        text.new.items ≡ text.old.items ++ words.line_for (name.now, value.now)) }
{
    if is_mark(name) {
        return push_plain(text, name, word);
    }
    if has_brace(value) {
        return push_guarded(text, name, word);
    }
    push_braced(text, name, word)
}

fn push_line(alloc: Global, text: &mut Vec<u8>, name: &[u8], value: &[u8]) -> Result<(), AllocError>
    ensures { OnOk result (
        text.new.items ≡ text.old.items ++ (words.line_for (name.now, value.now) ++ 10 ∷ [])) }
{
    let word = word_text(alloc, value)?;
    push_assignment(text, name, value, word.as_slice())?;
    text.extend_from_slice(b"\n")
}

fn write_list(alloc: Global, entries: &[(&[u8], &[u8])]) -> Result<Bytes, AllocError>
    ensures { IfOk result (λ t. t ≡ codes "# config.cache of configure\n"
        ++ words.lines_for (map (λ e. (e.0.now, e.1.now)) entries.now)) }
{
    let mut text = Vec::from_slice(alloc, b"# config.cache of configure\n")?;
    'entries: for entry in entries {
        push_line(alloc, &mut text, entry.0, entry.1)?;
    }
    Ok(Bytes::from_vec(text))
}

fn write(alloc: Global, entries: BTreeMap<&[u8], &[u8]>) -> Result<Bytes, AllocError>
    ensures { IfOk result (λ t. t ≡ codes "# config.cache of configure\n"
        ++ words.lines_for (map (λ e. (e.0.now, e.1.now)) entries.entry.entries)) }
{
    let mut text = Vec::from_slice(alloc, b"# config.cache of configure\n")?;
    'entries: for (name, value) in entries {
        push_line(alloc, &mut text, name, value)?;
    }
    Ok(Bytes::from_vec(text))
}

/// Returns the cache text of the variables: a comment, and a line for each variable with a cache
/// name, in the byte order of the names. A variable whose value has a newline is left out (own).
///
/// A name that begins with `ac_cv_env_` is written `V=W`. If the value of another name has a brace,
/// its line is `test ${V+y} || V=W`, and otherwise `V=${V=W}`. W is what `word_text` returns for
/// the value.
pub fn cache_text(alloc: Global, vars: &Vars) -> Result<Bytes, AllocError>
    // It has a line for each variable that is saved, in order.
    ensures sound { IfOk result (words.IsCacheText vars.now) }
    // The same as a function.
    ensures exact { IfOk result (λ t. t ≡ words.cache_text_of vars.now) }
    // If it isn't too large, it can be read, and sets again what was saved.
    ensures reads_back { IfOk result (λ t. length t ≤ cache.limit → words.ReadsBack vars.now t) }
{
    let near = near_entries(alloc, vars)?;
    if let Some(list) = near {
        return write_list(alloc, list.as_slice());
    }
    let entries = saved_entries(alloc, vars)?;
    write(alloc, entries)
}
