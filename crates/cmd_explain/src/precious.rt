//! A precious variable that is not as it was in the run that made the cache.

ghost use Rattle.std.specs.Prelude.{◌≡◌, [], IfOk, option_map, unwrap_or};
ghost use Rattle.cachefile.specs.Cache.{vars_after};
ghost use Rattle.deftable.specs.Table.{value_of};
ghost use Rattle.options.specs.Precious.{old_value as value_then};

use crate::page::numbered;
use ac_tree::Source;
use cachefile::{OldCache, read_cache};
use deftable::Vars;
use lint_table::Words;
use options::{PreciousFault, Settings, mark_name, value_before};
use run_words::precious_words;
use std::alloc::{AllocError, Global};

/// What a run was given, once its source was judged.
#[derive(Clone, Copy)]
pub struct Given<'a> {
    pub source: &'a Source,
    pub settings: &'a Settings,
    /// The text of the cache, or an empty text if there is none.
    pub cache: &'a [u8],
}

/// Returns the value that pouring the cache over the variables would leave in this one, or an empty
/// text if it would be unset.
fn poured<'a>(vars: &'a Vars, cache: &'a OldCache, name: &[u8]) -> &'a [u8]
    ensures { result.now ≡ unwrap_or (value_of (vars_after cache.now vars.now) name.now) [] }
{
    match cache.would(vars, name) {
        Some(value) => value,
        None => b"",
    }
}

/// Returns the value that a variable had in the run that made the cache, or `None` if it was unset.
/// It is the value that a run compares with that of now.
#[tactic(auto, unfolding(options::specs::Precious::old_value))]
fn old_value<'a>(
    alloc: Global,
    vars: &'a Vars,
    cache: &'a OldCache,
    name: &[u8],
) -> Result<Option<&'a [u8]>, AllocError>
    ensures { IfOk result (λ old.
        option_map (λ v. v.now) old ≡ value_then (vars_after cache.now vars.now) name.now) }
{
    let set_name = mark_name(alloc, name, b"_set")?;
    if poured(vars, cache, set_name.as_slice()) == b"".as_slice() {
        return Ok(None);
    }
    let value_name = mark_name(alloc, name, b"_value")?;
    Ok(Some(poured(vars, cache, value_name.as_slice())))
}

/// Returns the name of the cache, or an empty text if none is named.
fn cache_name(settings: &Settings) -> &[u8] {
    match &settings.cache_name {
        Some(name) => name.as_slice(),
        None => b"",
    }
}

/// Returns what is wrong with the variable of this name.
fn of_name(
    alloc: Global,
    settings: &Settings,
    cache: &OldCache,
    name: &[u8],
) -> Result<Words, AllocError> {
    let old = old_value(alloc, &settings.vars, cache, name)?;
    let now = value_before(alloc, &settings.vars, name)?;
    precious_words(alloc, name, old, now, cache_name(settings))
}

/// Returns what is wrong with the variable of this name, by the text of the cache.
fn of_cache(
    alloc: Global,
    settings: &Settings,
    cache: &[u8],
    name: &[u8],
) -> Result<Words, AllocError> {
    match read_cache(alloc, cache) {
        Ok(cache) => of_name(alloc, settings, &cache, name),
        Err(_) => Err(AllocError),
    }
}

/// Returns the place of the variable among those of the source, which is 1 for the first.
fn number_of(fault: PreciousFault) -> u64 {
    match fault {
        PreciousFault::WasSet(place)
        | PreciousFault::WasUnset(place)
        | PreciousFault::Changed(place) => place,
        PreciousFault::OutOfMemory => 0,
    }
}

/// Returns what is wrong with a precious variable, with the value that the cache holds and the one
/// that is given.
pub(crate) fn of_precious(
    alloc: Global,
    given: &Given<'_>,
    fault: PreciousFault,
) -> Result<Words, AllocError> {
    let name = numbered(given.source.precious().names(), number_of(fault));
    of_cache(alloc, given.settings, given.cache, name)
}
