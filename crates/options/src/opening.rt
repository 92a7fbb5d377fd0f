//! The variables that a run begins with.

ghost use Rattle.std.specs.List.{flat_map};
ghost use Rattle.std.specs.Prelude.{◌≡◌, ℕ, List, [], ◌++◌, None, IfOk, OnOk, fold, codes, option_map, unwrap_or};
ghost use Rattle.deftable.specs.Table.{value_of};
ghost use Rattle.options_line.specs.Directories.{directories as all_directories};
ghost use Rattle.options.specs.Opening as words;
ghost use Rattle.options.specs.Stepwise as steps;

use crate::reader::ReadArguments;
use crate::unrecognized::Unrecognized;
use deftable::{Bytes, Vars, is_shell_name};
use options_line::directory::{Directory, directories};
use options_line::slashes::without_slashes;
use std::alloc::{AllocError, Global};

#[tactic(auto, unfolding(crate::specs::Stepwise::with_environment))]
fn enter(vars: &mut Vars, entry: &(Bytes, Bytes)) -> Result<(), AllocError>
    ensures { OnOk result (vars.new ≡ steps.with_environment vars.old entry.now) }
{
    if is_shell_name(entry.0.as_slice()) {
        return vars.set(entry.0.as_slice(), entry.1.as_slice());
    }
    Ok(())
}

/// Sets the variables of the environment. If a name occurs twice, the last entry counts.
fn enter_all(vars: &mut Vars, env: &[(Bytes, Bytes)]) -> Result<(), AllocError>
    ensures { OnOk result (vars.new ≡ fold steps.with_environment vars.old env.now) }
{
    for entry in env {
        enter(vars, entry)?;
    }
    Ok(())
}

#[tactic(auto, unfolding(crate::specs::Stepwise::with_default))]
fn set_default(vars: &mut Vars, directory: Directory) -> Result<(), AllocError>
    ensures { OnOk result (vars.new ≡ steps.with_default vars.old directory) }
{
    vars.set(directory.variable(), directory.default_value())
}

/// Sets all directories to their defaults.
fn set_defaults(vars: &mut Vars) -> Result<(), AllocError>
    ensures { OnOk result (vars.new ≡ fold steps.with_default vars.old all_directories) }
{
    for directory in directories() {
        set_default(vars, *directory)?;
    }
    Ok(())
}

#[tactic(auto, unfolding(crate::specs::Stepwise::vars_before))]
fn vars_before(alloc: Global, env: &[(Bytes, Bytes)]) -> Result<Vars, AllocError>
    ensures { IfOk result (λ vars. vars ≡ steps.vars_before env.now) }
{
    let mut vars = Vars::new(alloc);
    enter_all(&mut vars, env)?;
    set_defaults(&mut vars)?;
    Ok(vars)
}

/// Returns the reader before the first argument.
#[tactic(auto, unfolding(crate::specs::Stepwise::reader_before))]
pub(crate) fn reader_before(
    alloc: Global,
    env: &[(Bytes, Bytes)],
) -> Result<ReadArguments, AllocError>
    ensures { IfOk result (λ r. r ≡ steps.reader_before env.now) }
{
    let vars = vars_before(alloc, env)?;
    Ok(ReadArguments {
        vars,
        cache_name: None,
        quiet: false,
        no_create: false,
        help: false,
        version: false,
        unrecognized: Unrecognized::new(alloc),
        awaited: None,
    })
}

/// Drops the final slashes of a directory's value.
#[tactic(auto, unfolding(crate::specs::Opening::with_unslashed))]
fn unslash(alloc: Global, vars: &mut Vars, directory: Directory) -> Result<(), AllocError>
    ensures { OnOk result (vars.new ≡ words.with_unslashed vars.old directory) }
{
    let Some(value) = vars.get(directory.variable()) else {
        return Ok(());
    };
    let value = Bytes::from_slice(alloc, without_slashes(value.as_slice()))?;
    vars.set(directory.variable(), value.as_slice())
}

#[tactic(auto, unfolding(crate::specs::Opening::unmarked))]
fn unslash_all(alloc: Global, vars: &mut Vars) -> Result<(), AllocError>
    ensures { OnOk result (vars.new ≡ words.unmarked vars.old) }
{
    for directory in directories() {
        unslash(alloc, vars, *directory)?;
    }
    Ok(())
}

/// Returns the name of a mark of a variable: `ac_cv_env_`, the variable, and an ending.
pub fn mark_name(alloc: Global, name: &[u8], ending: &[u8]) -> Result<Bytes, AllocError>
    ensures { IfOk result (λ mark. mark ≡ codes "ac_cv_env_" ++ name.now ++ ending.now) }
{
    Bytes::concat(alloc, &[b"ac_cv_env_", name, ending])
}

/// Returns the value of the mark for whether a variable is set.
fn set_mark(value: Option<&Bytes>) -> &'static [u8]
    ensures { result.now ≡ words.set_mark (option_map (λ v. v.now) value.entry) }
{
    match value {
        Some(_) => b"set",
        None => b"",
    }
}

/// Returns the mark for whether a variable is set.
fn set_mark_of(alloc: Global, vars: &Vars, name: &Bytes) -> Result<(Bytes, Bytes), AllocError>
    ensures { IfOk result (λ mark.
        mark ≡ (words.set_name name.now, words.set_mark (value_of vars.now name.now))) }
{
    let mark = mark_name(alloc, name.as_slice(), b"_set")?;
    let set = set_mark(vars.get(name.as_slice()));
    Ok((mark, Bytes::from_slice(alloc, set)?))
}

/// Returns the mark for the value of a variable.
fn value_mark_of(alloc: Global, vars: &Vars, name: &Bytes) -> Result<(Bytes, Bytes), AllocError>
    ensures { IfOk result (λ mark.
        mark ≡ (words.value_name name.now, unwrap_or (value_of vars.now name.now) [])) }
{
    let mark = mark_name(alloc, name.as_slice(), b"_value")?;
    let value = vars.value_or_empty(name.as_slice());
    Ok((mark, Bytes::from_slice(alloc, value)?))
}

/// Pushes the marks of a precious variable: whether it is set, and its value.
fn push_marks(
    alloc: Global,
    marks: &mut Vec<(Bytes, Bytes)>,
    vars: &Vars,
    name: &Bytes,
) -> Result<(), AllocError>
    ensures { OnOk result (marks.new.items
        ≡ marks.old.items ++ words.marks_of vars.now name.now) }
{
    let set = set_mark_of(alloc, vars, name)?;
    let value = value_mark_of(alloc, vars, name)?;
    marks.push(set)?;
    marks.push(value)?;
    Ok(())
}

/// Pushes the marks of precious variables, by their values before any mark.
fn push_all_marks(
    alloc: Global,
    marks: &mut Vec<(Bytes, Bytes)>,
    vars: &Vars,
    precious: &[Bytes],
) -> Result<(), AllocError>
    ensures { OnOk result (marks.new.items
        ≡ marks.old.items ++ flat_map (words.marks_of vars.now) precious.now) }
{
    for name in precious {
        push_marks(alloc, marks, vars, name)?;
    }
    Ok(())
}

/// Sets all variables of these entries.
pub(crate) fn set_all(vars: &mut Vars, entries: &[(Bytes, Bytes)]) -> Result<(), AllocError>
    ensures { OnOk result (vars.new ≡ fold words.with_variable vars.old entries.now) }
{
    for entry in entries {
        vars.set(entry.0.as_slice(), entry.1.as_slice())?;
    }
    Ok(())
}

#[tactic(auto, unfolding(crate::specs::Opening::with_marks))]
fn mark_all(alloc: Global, vars: &mut Vars, precious: &[Bytes]) -> Result<(), AllocError>
    ensures { OnOk result (vars.new ≡ words.with_marks precious.now vars.old) }
{
    let mut marks = Vec::new(alloc);
    push_all_marks(alloc, &mut marks, vars, precious)?;
    set_all(vars, &marks)
}

/// Drops the final slashes of directories, and then sets the marks of precious variables.
#[tactic(auto, unfolding(crate::specs::Opening::finished))]
pub(crate) fn finish_vars(
    alloc: Global,
    vars: &mut Vars,
    precious: &[Bytes],
) -> Result<(), AllocError>
    ensures { OnOk result (vars.new ≡ words.finished precious.now vars.old) }
{
    unslash_all(alloc, vars)?;
    mark_all(alloc, vars, precious)
}
