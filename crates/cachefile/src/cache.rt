//! Cache texts that are read.

ghost use Rattle.std.specs.Prelude.{◌≡◌, ◌≢◌, ◌++◌, ℕ, List, [], Ok, Err, OnOk, OnErr, IfOk, IfErr, take, map, option_map, option_to_list};
ghost use Rattle.deftable.specs.Table as table;
ghost use Rattle.cachefile.specs.Cache as words;
ghost use Rattle.cachefile.specs.Line.{Setting};
ghost use Rattle.cachefile.specs.Reading.{Gives};
ghost use Rattle.cachefile.specs.declared.fault.CacheFault as faults;
ghost use Rattle.cachefile.specs.declared.fault.CacheFault.TheVariants.{OutOfMemory};

use crate::entry::Entry;
use crate::fault::CacheFault;
use crate::line::line;
use deftable::{Vars, is_cache_name};
use std::alloc::{AllocError, Global};
use std::marker::Model;
use text_cut::parts;

/// A cache text that was read. In contracts, it is the list of the settings of its lines, in order.
pub struct OldCache {
    entries: Vec<Entry>,
}

impl Drop for OldCache {
    fn drop(self) {
        let OldCache { entries: _entries } = self;
    }
}

impl Model for OldCache {
    ghost Value = { List Setting };

    ghost view = { λ c. c.entries.items };
}

/// The number of bytes of the largest cache text.
const LIMIT: usize = 4_194_304;

// Returns the entry of the line with this number, if it has one.
#[tactic(auto, unfolding(crate::specs::Cache::entry_of))]
fn entry(alloc: Global, number: u64, text: &[u8]) -> Result<Option<Entry>, CacheFault>
    ensures { Gives result (words.entry_of number text.now) }
{
    let Some(found) = line(alloc, text)? else {
        return Err(CacheFault::BadLine(number));
    };
    let Some(entry) = found else {
        return Ok(None);
    };
    if is_cache_name(entry.name()) {
        return Ok(Some(entry));
    }
    Err(CacheFault::BadName(number))
}

fn push_entry(entries: &mut Vec<Entry>, entry: Option<Entry>) -> Result<(), CacheFault>
    ensures ok { OnOk result (entries.new.items ≡ entries.old.items ++ option_to_list entry) }
    ensures err { IfErr result (λ e. e ≡ OutOfMemory) }
{
    if let Some(entry) = entry {
        entries.push(entry)?;
    }
    Ok(())
}

fn read_lines(alloc: Global, lines: &[&[u8]]) -> Result<OldCache, CacheFault>
    ensures { Gives result (words.lines_from 1 (map (λ line. line.now) lines.now)) }
{
    let mut entries = Vec::new(alloc);
    for i in 0..lines.len() {
        let setting = entry(alloc, i as u64 + 1, lines[i])?;
        push_entry(&mut entries, setting)?;
    }
    Ok(OldCache { entries })
}

#[tactic(auto, unfolding(crate::specs::Cache::cache_of))]
fn read_text(alloc: Global, text: &[u8]) -> Result<OldCache, CacheFault>
    ensures { Gives result (words.cache_of text.now) }
{
    if text.len() > LIMIT {
        return Err(CacheFault::TooLarge);
    }
    let lines = parts(alloc, text, b'\n')?;
    read_lines(alloc, lines.as_slice())
}

/// Reads a cache text.
///
/// A line is empty but for spaces, tabs and a comment, or it has one of the forms `V=${V=W}`,
/// `test ${V+y} || V=W`, `test "${V+set}" = set || V=W` and `V=W`. V is a cache name, and W a shell
/// word without expansions. The first three set V only if it isn't set (own). The last line may
/// lack its newline.
///
/// # Errors
///
/// The errors come in this order:
///
/// - `TooLarge`, if the text has more than 4,194,304 bytes;
/// - `BadLine` or `BadName`, for the first line that has none of the forms or whose V is no cache
///   name.
pub fn read_cache(alloc: Global, text: &[u8]) -> Result<OldCache, CacheFault>
    // What is returned are the settings of the text.
    ensures sound { IfOk result (λ cache. words.IsCache text.now (Ok cache)) }
    // If the text has settings, these are returned, unless memory runs out.
    ensures complete { (settings : List Setting) → words.IsCache text.now (Ok settings)
        → Gives result (Ok settings) }
    // An error other than out of memory is the first one of the text.
    ensures error_sound { IfErr result (λ fault.
        fault ≢ OutOfMemory → words.IsCache text.now (Err fault)) }
    // If the text has an error, the first one is returned, unless memory runs out.
    ensures error_complete { (fault : faults.CacheFault) → words.IsCache text.now (Err fault)
        → Gives result (Err fault) }
    // The same as a function.
    ensures exact { Gives result (words.cache_of text.now) }
    // Each setting is of a cache name.
    ensures names { IfOk result words.HaveCacheNames }
{
    read_text(alloc, text)
}

impl OldCache {
    /// Returns a cache without settings. It doesn't allocate.
    pub fn new(alloc: Global) -> OldCache
        ensures { result ≡ [] }
    {
        OldCache {
            entries: Vec::new(alloc),
        }
    }

    /// Makes the settings, in order. A value replaces what is set before, and a default doesn't.
    ///
    /// # Errors
    ///
    /// If memory runs out, the settings of the first lines are made, and the others aren't.
    pub fn pour(&self, vars: &mut Vars) -> Result<(), AllocError>
        ensures ok { OnOk result (vars.new ≡ words.vars_after self.now vars.old) }
        ensures err { OnErr result (
            (k : ℕ) × (vars.new ≡ words.vars_after (take k self.now) vars.old)) }
    {
        vars.reserve(self.entries.len())?;
        for entry in &self.entries {
            entry.pour(vars)?;
        }
        Ok(())
    }

    /// Makes the settings of names that begin with `ac_cv_env_` alone, in order.
    ///
    /// # Errors
    ///
    /// If memory runs out, those of the first lines are made, and the others aren't.
    pub fn pour_marks(&self, vars: &mut Vars) -> Result<(), AllocError>
        ensures ok { OnOk result (vars.new ≡ words.marks_after self.now vars.old) }
        ensures err { OnErr result (
            (k : ℕ) × (vars.new ≡ words.marks_after (take k self.now) vars.old)) }
        // Each of these names has the value that `pour` would leave.
        ensures same { OnOk result (words.HaveSameMarks vars.new (words.vars_after self.now vars.old)) }
    {
        for entry in &self.entries {
            entry.pour_mark(vars)?;
        }
        Ok(())
    }

    /// Returns the value that `pour` would leave in `name`, or `None` if it would leave `name`
    /// unset. This takes time in proportion to the number of settings.
    pub fn would<'a>(&'a self, vars: &'a Vars, name: &[u8]) -> Option<&'a [u8]>
        ensures value { option_map (λ v. v.now) result
            ≡ table.value_of (words.vars_after self.now vars.now) name.now }
    {
        let mut value = value_of(vars, name);
        for entry in &self.entries {
            value = entry.value_after(name, value);
        }
        value
    }
}

fn value_of<'a>(vars: &'a Vars, name: &[u8]) -> Option<&'a [u8]>
    ensures { option_map (λ v. v.now) result ≡ table.value_of vars.now name.now }
{
    let value = vars.get(name)?;
    Some(value.as_slice())
}
