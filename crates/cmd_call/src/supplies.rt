//! What a run is given besides its source: the texts of its cache and of its templates.

ghost use Rattle.std.specs.Prelude.{◌≡◌, ℕ, List, [], ◌∷◌, ◌++◌, Option, IfOk, IfSome, OnOk, option_copied, is_some};
ghost use Rattle.deftable.specs.Table.{value_of};
ghost use Rattle.file_texts.specs.Held.{GuardsMore, IsUnused};
ghost use Rattle.file_texts.specs.Places.{is_own};
ghost use Rattle.cmd_call.specs.Guarded.{AreGuarded, IsGuardedNow, inputs_of, paths_of};
ghost use Rattle.cmd_call.specs.Supplies as given;
ghost use Rattle.output_list.specs.declared.output.Output as lists;
ghost use Rattle.ac_tree.specs.Script.{script_of};

use crate::printing::LOG;
use ac_tree::Source;
use deftable::{Bytes, Vars};
use file_disk::Disk;
use file_texts::{FileOutputs, is_own, path_in, read_limited, read_text};
use options::Settings;
use output_list::Output;
use status_record::Record;
use std::alloc::{AllocError, Global};

/// What a run reads once its source is judged.
#[derive(Drop)]
pub struct Supplies {
    /// The text of the cache, if one is named and there.
    pub cache: Option<Bytes>,
    /// The templates that are there, by their names.
    pub templates: Vec<(Bytes, Bytes)>,
}

/// Returns the text of the template at a path, or `None` if it can't be read, or a run has the path
/// for itself: a check would write over it. Fails only if memory runs out.
#[tactic(auto, using(crate::proofs::Templates::own_unread, crate::proofs::Templates::read_other))]
fn read_template<D: Disk>(alloc: Global, disk: &D, path: &[u8]) -> Result<Option<Bytes>, AllocError>
    ensures { IfOk result (λ read. IfSome (D.known disk.now)
        (λ k. given.IsTemplateRead k path.now (is_own k path.now) read)) }
{
    if is_own(disk, path)? {
        return Ok(None);
    }
    read_text(alloc, disk, path)
}

/// Reads the text of a template, and appends it under its name. Does nothing if it counts as not
/// there.
fn add_template<D: Disk>(
    alloc: Global,
    disk: &D,
    srcdir: &[u8],
    name: &[u8],
    templates: &mut Vec<(Bytes, Bytes)>,
) -> Result<(), AllocError>
    ensures { OnOk result (
        (read : Option (List ℕ)) × given.ReadsTemplate (D.known disk.now) srcdir.now name.now read
        × (templates.new.items ≡ templates.old.items ++ given.entry_of name.now read)) }
{
    let path = path_in(alloc, srcdir, name)?;
    let Some(text) = read_template(alloc, disk, path.as_slice())? else {
        return Ok(());
    };
    let name = Bytes::from_slice(alloc, name)?;
    templates.push((name, text))?;
    Ok(())
}

/// Returns whether a name is among these.
fn has(names: &Vars, name: &[u8]) -> bool
    ensures { result ≡ is_some (value_of names.now name.now) }
{
    names.get(name).is_some()
}

/// Reads the template of this output, unless it was looked for before, and adds its name to those
/// that were looked for. The value of each of these names is empty.
fn add_needed<D: Disk>(
    alloc: Global,
    disk: &D,
    srcdir: &[u8],
    output: &Output,
    names: &mut Vars,
    templates: &mut Vec<(Bytes, Bytes)>,
) -> Result<(), AllocError>
    ensures { OnOk result (
        (before : List lists.Output)
        → given.AreLookedFor (D.known disk.now) srcdir.now before names.old templates.old.items
        → given.AreLookedFor (D.known disk.now) srcdir.now (before ++ output.now ∷ []) names.new
        templates.new.items) }
{
    let name = output.template.as_slice();
    if has(names, name) {
        return Ok(());
    }
    add_template(alloc, disk, srcdir, name, templates)?;
    names.set(name, b"")
}

/// Reads the templates of these outputs, each once.
fn add_templates<D: Disk>(
    alloc: Global,
    disk: &D,
    srcdir: &[u8],
    outputs: &[Output],
    names: &mut Vars,
    templates: &mut Vec<(Bytes, Bytes)>,
) -> Result<(), AllocError>
    ensures { OnOk result (
        (before : List lists.Output)
        → given.AreLookedFor (D.known disk.now) srcdir.now before names.old templates.old.items
        → given.AreLookedFor (D.known disk.now) srcdir.now (before ++ outputs.now) names.new
        templates.new.items) }
{
    'outputs: for output in outputs {
        add_needed(alloc, disk, srcdir, output, names, templates)?;
    }
    Ok(())
}

/// Reads the templates of files and headers, each once, with its name. One that can't be read is
/// left out, and so is one whose path a run has for itself, as [`is_own`] says (own).
///
/// # Errors
///
/// Fails only if memory runs out.
pub fn read_templates<D: Disk>(
    alloc: Global,
    disk: &D,
    srcdir: &[u8],
    outputs: &[Output],
    headers: &[Output],
) -> Result<Vec<(Bytes, Bytes)>, AllocError>
    ensures { IfOk result (λ templates.
        given.AreTemplates (D.known disk.now) srcdir.now (outputs.now ++ headers.now)
        templates.items) }
{
    let mut names = Vars::new(alloc);
    let mut templates = Vec::new(alloc);
    add_templates(alloc, disk, srcdir, outputs, &mut names, &mut templates)?;
    add_templates(alloc, disk, srcdir, headers, &mut names, &mut templates)?;
    Ok(templates)
}

/// Reads the cache, if one is named.
fn read_cache<D: Disk>(
    alloc: Global,
    disk: &D,
    name: Option<&Bytes>,
) -> Result<Option<Bytes>, AllocError>
    ensures { IfOk result (given.ReadsCache (D.known disk.now) (option_copied name.entry)) }
{
    let Some(name) = name else {
        return Ok(None);
    };
    read_limited(alloc, disk, name.as_slice())
}

/// Reads the templates that a run with these settings wants.
fn wanted_templates<D: Disk>(
    alloc: Global,
    disk: &D,
    source: &Source,
    settings: &Settings,
) -> Result<Vec<(Bytes, Bytes)>, AllocError>
    ensures { IfOk result (λ templates. given.AreTemplates (D.known disk.now) settings.now.srcdir
        (given.needed settings.now.no_create (script_of source.now)) templates.items) }
{
    if settings.no_create {
        return Ok(Vec::new(alloc));
    }
    read_templates(
        alloc,
        disk,
        settings.srcdir.as_slice(),
        source.files().as_slice(),
        source.headers().as_slice(),
    )
}

/// Reads the cache and the templates that a run with these settings is given.
///
/// A file that can't be read counts as not there: who runs the source then names it.
///
/// # Errors
///
/// Fails only if memory runs out.
pub fn read_supplies<D: Disk>(
    alloc: Global,
    disk: &D,
    source: &Source,
    settings: &Settings,
) -> Result<Supplies, AllocError>
    ensures { IfOk result (λ s.
        given.AreGiven (D.known disk.now) (script_of source.now) settings.now.cache_name
        settings.now.srcdir settings.now.no_create s.cache s.templates.items) }
{
    let cache = read_cache(alloc, disk, settings.cache_name.as_ref())?;
    let templates = wanted_templates(alloc, disk, source, settings)?;
    Ok(Supplies { cache, templates })
}

/// Reads the templates of a record, each once, with its name.
///
/// A template that can't be read is left out, so who makes its output finds it missing.
///
/// # Errors
///
/// Fails only if memory runs out.
pub fn record_templates<D: Disk>(
    alloc: Global,
    disk: &D,
    recorded: &Record,
) -> Result<Vec<(Bytes, Bytes)>, AllocError>
    ensures { IfOk result (λ templates.
        given.AreTemplates (D.known disk.now) recorded.now.srcdir
        (recorded.now.files ++ recorded.now.headers) templates.items) }
{
    read_templates(
        alloc,
        disk,
        recorded.srcdir.as_slice(),
        recorded.files.as_slice(),
        recorded.headers.as_slice(),
    )
}

/// Has puts to a file of the source directory refused.
#[tactic(auto, using(file_texts::proofs::Unused::guards_none, crate::proofs::Guards::guarded_at))]
fn keep_in<D: Disk>(
    alloc: Global,
    outputs: &mut FileOutputs<D>,
    srcdir: &[u8],
    name: &[u8],
) -> Result<(), AllocError>
    requires { IsUnused outputs.old }
    ensures more { GuardsMore outputs.old outputs.new }
    ensures guarded { OnOk result
        (IsGuardedNow D.known outputs.new (given.path_of srcdir.now name.now)) }
{
    let path = path_in(alloc, srcdir, name)?;
    outputs.keep(path.as_slice())
}

/// Has puts to the templates of the source directory refused.
#[tactic(auto, using(file_texts::proofs::Unused::guards_then, file_texts::proofs::Unused::more_unused))]
fn keep_templates<D: Disk>(
    alloc: Global,
    outputs: &mut FileOutputs<D>,
    srcdir: &[u8],
    templates: &[(Bytes, Bytes)],
) -> Result<(), AllocError>
    requires { IsUnused outputs.old }
    ensures more { GuardsMore outputs.old outputs.new }
    ensures guarded { OnOk result (
        AreGuarded (D.known outputs.new.disk) outputs.new.guards
        (paths_of srcdir.now templates.now)) }
{
    'templates: for template in templates {
        keep_in(alloc, outputs, srcdir, template.0.as_slice())?;
    }
    Ok(())
}

/// Has puts to the files refused that a run reads, or writes by itself: the source, these
/// templates, and the log. So no output of the run replaces one of them.
///
/// # Errors
///
/// Fails only if memory runs out.
#[tactic(auto, using(file_texts::proofs::Unused::guards_then, file_texts::proofs::Unused::more_unused))]
pub fn keep_inputs<D: Disk>(
    alloc: Global,
    outputs: &mut FileOutputs<D>,
    srcdir: &[u8],
    templates: &[(Bytes, Bytes)],
) -> Result<(), AllocError>
    requires { IsUnused outputs.old }
    ensures more { GuardsMore outputs.old outputs.new }
    ensures guarded { OnOk result (
        AreGuarded (D.known outputs.new.disk) outputs.new.guards
        (inputs_of srcdir.now templates.now)) }
{
    outputs.keep(LOG.as_bytes())?;
    keep_in(alloc, outputs, srcdir, b"configure.ac")?;
    keep_templates(alloc, outputs, srcdir, templates)
}
