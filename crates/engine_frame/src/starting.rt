//! What a run begins with.

ghost use Rattle.std.specs.Prelude.{◌≡◌, ◌++◌, IfOk, Ok, option_map};
ghost use Rattle.std.specs.Option.{option_copied};
ghost use Rattle.options_line.specs.Kept.{kept_args as kept};
ghost use Rattle.options.specs.Precious.{checked};
ghost use Rattle.cachefile.specs.Cache.{cache_of};
ghost use Rattle.ac_tree.specs.Lists.{lists_of};
ghost use Rattle.ac_tree.specs.Script.{script_of};
ghost use Rattle.engine_frame.specs.Faults.{Gives, named, of_cache, of_precious};
ghost use Rattle.engine_frame.specs.Given as given;
ghost use Rattle.engine_frame.specs.Needed.{script_in};

use crate::fault::Fault;
use crate::needs::Needs;
use crate::notes::joined;
use ac_tree::Source;
use cachefile::{OldCache, read_cache};
use deftable::{Bytes, Notes, Texts, Vars};
use options::{Settings, check_precious};
use options_line::kept_args;
use output_list::Output;
use output_make::find_missing;
use std::alloc::{AllocError, Global};

/// Checks that nothing is missing.
fn check_found(alloc: Global, missing: Option<&Output>) -> Result<(), Fault>
    ensures { Gives (λ _. tt) result (given.none_missing (option_copied missing.entry)) }
{
    match missing {
        None => Ok(()),
        Some(output) => {
            let name = output.template.copy(alloc)?;
            Err(Fault::NoTemplate(name))
        }
    }
}

/// Checks that the templates of files and headers are there, if they are wanted.
#[tactic(auto, unfolding(crate::specs::Given::present))]
fn check_templates(
    alloc: Global,
    no_create: bool,
    templates: &[(Bytes, Bytes)],
    source: &Source,
) -> Result<(), Fault>
    ensures { Gives (λ _. tt) result (
        given.present no_create templates.now (lists_of (script_of source.now)).files
        (lists_of (script_of source.now)).headers) }
{
    if no_create {
        return Ok(());
    }
    let file = find_missing(alloc, templates, source.files().as_slice(), &[])?;
    check_found(alloc, file)?;
    let header = find_missing(alloc, templates, source.headers().as_slice(), &[])?;
    check_found(alloc, header)
}

/// Reads a cache.
fn named_cache(alloc: Global, text: &[u8]) -> Result<OldCache, Fault>
    ensures { Gives (λ c. c) result (named of_cache (cache_of text.now)) }
{
    Ok(read_cache(alloc, text)?)
}

/// Reads the cache, if one is named and given.
fn old_cache(alloc: Global, name: Option<&Bytes>, text: Option<&[u8]>) -> Result<OldCache, Fault>
    ensures { Gives (λ c. c) result
        (given.old_of (option_map (λ n. n.now) name.entry) (option_map (λ t. t.now) text.entry)) }
{
    match (name, text) {
        (Some(_), Some(text)) => named_cache(alloc, text),
        _ => Ok(OldCache::new(alloc)),
    }
}

/// Checks the precious variables.
fn check_vars(
    alloc: Global,
    source: &Source,
    vars: &mut Vars,
    old: &OldCache,
) -> Result<Notes, Fault>
    ensures { Gives (λ notes. (vars.new, notes)) result
        (named of_precious (checked (lists_of (script_of source.now)).precious vars.old old.now)) }
{
    Ok(check_precious(alloc, source, vars, old)?)
}

/// What a run begins with.
#[derive(Drop)]
pub struct Start {
    pub cache_name: Option<Bytes>,
    pub srcdir: Bytes,
    pub no_create: bool,
    /// The arguments that its record keeps.
    pub args: Texts,
    /// The variables, once the cache is poured over them.
    pub vars: Vars,
    /// The notes about arguments and precious variables.
    pub notes: Notes,
}

/// Copies a text, if there is one.
fn copied(alloc: Global, text: Option<&Bytes>) -> Result<Option<Bytes>, AllocError>
    ensures { IfOk result (λ t. t ≡ option_map (λ b. b.now) text.entry) }
{
    match text {
        None => Ok(None),
        Some(text) => {
            let text = text.copy(alloc)?;
            Ok(Some(text))
        }
    }
}

/// Returns what a run with these settings begins with, once its variables are checked.
fn start_with(
    alloc: Global,
    args: &[Bytes],
    settings: &Settings,
    vars: Vars,
    more: Notes,
) -> Result<Start, AllocError>
    ensures { IfOk result (λ s.
        s
        ≡ record {
          cache_name = settings.now.cache_name;
          srcdir = settings.now.srcdir;
          no_create = settings.now.no_create;
          args = kept args.now;
          vars = vars;
          notes = settings.now.notes ++ more;
        }) }
{
    let cache_name = copied(alloc, settings.cache_name.as_ref())?;
    let srcdir = settings.srcdir.copy(alloc)?;
    let notes = joined(alloc, &settings.notes, more)?;
    let args = kept_args(alloc, args)?;
    Ok(Start {
        cache_name,
        srcdir,
        no_create: settings.no_create,
        args,
        vars,
        notes,
    })
}

/// Checks the precious variables, on a copy of the variables, which it returns.
fn checked_vars(
    alloc: Global,
    source: &Source,
    vars: &Vars,
    old: &OldCache,
) -> Result<(Vars, Notes), Fault>
    ensures { Gives (λ r. r) result
        (named of_precious (checked (lists_of (script_of source.now)).precious vars.now old.now)) }
{
    let mut vars = vars.copy(alloc)?;
    let notes = check_vars(alloc, source, &mut vars, old)?;
    Ok((vars, notes))
}

/// Returns what a run with these settings begins with.
#[tactic(auto, unfolding(crate::specs::Given::started))]
fn started(
    alloc: Global,
    source: &Source,
    args: &[Bytes],
    settings: &Settings,
    cache: Option<&[u8]>,
    templates: &[(Bytes, Bytes)],
) -> Result<Start, Fault>
    ensures { Gives (λ s. s) result (
        given.started args.now (option_map (λ t. t.now) cache.entry) templates.now
        (script_of source.now) settings.now) }
{
    let old = old_cache(alloc, settings.cache_name.as_ref(), cache)?;
    let (mut vars, more) = checked_vars(alloc, source, &settings.vars, &old)?;
    check_templates(alloc, settings.no_create, templates, source)?;
    old.pour(&mut vars)?;
    let start = start_with(alloc, args, settings, vars, more)?;
    Ok(start)
}

/// Returns what a run begins with, once its inputs are read: the cache over its variables, the
/// precious variables and the templates.
///
/// # Errors
///
/// Returns the first fault: of the cache, of a precious variable, and then of a template.
pub fn begin(
    alloc: Global,
    needs: &Needs<'_>,
    cache: Option<&[u8]>,
    templates: &[(Bytes, Bytes)],
) -> Result<Start, Fault>
    ensures { Gives (λ s. s) result (
        given.started needs.now.arguments (option_map (λ t. t.now) cache.entry) templates.now
        (script_in needs.now) needs.now.settings) }
{
    let source = needs.source();
    let args = needs.args();
    let start = started(alloc, source, args, needs.settings(), cache, templates)?;
    Ok(start)
}
