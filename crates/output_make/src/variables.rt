//! The output variables of a run, with their values.

ghost use Rattle.std.specs.Prelude.{◌≡◌, codes, bytes_eq, map, fold, OnOk, IfOk};
ghost use Rattle.options_line.specs.Directories.{variable_of};
ghost use Rattle.deftable.specs.NameList.{AreShellNames};
ghost use Rattle.deftable.specs.ShellName.{IsShellName};
ghost use Rattle.output_make.specs.Variables as words;

use deftable::{Bytes, Defs, SubstList, Vars};
use options_line::{Directory, directories};
use std::alloc::{AllocError, Global};

/// Returns whether the name is DEFS.
fn is_defs(name: &[u8]) -> bool
    ensures { result ≡ bytes_eq name.now (codes "DEFS") }
{
    name == b"DEFS".as_slice()
}

/// Returns the value of an output variable.
#[tactic(auto, unfolding(crate::specs::Variables::output_value))]
fn value<'a>(vars: &'a Vars, has_header: bool, name: &[u8]) -> &'a [u8]
    ensures { result.now ≡ words.output_value vars.now has_header name.now }
{
    if has_header && is_defs(name) {
        return b"-DHAVE_CONFIG_H";
    }
    vars.value_or_empty(name)
}

/// Adds an output variable.
fn add(table: &mut Defs, vars: &Vars, has_header: bool, name: &[u8]) -> Result<(), AllocError>
    requires { IsShellName name.now }
    ensures { OnOk result (table.new ≡ words.with_variable vars.now has_header table.old name.now) }
{
    table.define(name, value(vars, has_header, name))
}

/// Adds the output variables of AC_INIT.
#[tactic(auto, unfolding(crate::specs::Variables::package_names))]
fn add_package(table: &mut Defs, vars: &Vars, has_header: bool) -> Result<(), AllocError>
    ensures { OnOk result (
        table.new ≡ fold (words.with_variable vars.now has_header) table.old words.package_names) }
{
    add(table, vars, has_header, b"PACKAGE_NAME")?;
    add(table, vars, has_header, b"PACKAGE_TARNAME")?;
    add(table, vars, has_header, b"PACKAGE_VERSION")?;
    add(table, vars, has_header, b"PACKAGE_STRING")?;
    add(table, vars, has_header, b"PACKAGE_BUGREPORT")?;
    add(table, vars, has_header, b"PACKAGE_URL")?;
    Ok(())
}

/// Adds the variables of directories.
fn add_directories(
    table: &mut Defs,
    vars: &Vars,
    has_header: bool,
    directories: &[Directory],
) -> Result<(), AllocError>
    ensures { OnOk result (
        table.new
        ≡ fold (words.with_variable vars.now has_header) table.old
        (map variable_of directories.now)) }
{
    for i in 0..directories.len() {
        add(table, vars, has_header, directories[i].variable())?;
    }
    Ok(())
}

/// Adds the output variables that every run has.
#[tactic(auto, unfolding(crate::specs::Variables::preset_names, options_line::specs::Directories::directory_names))]
fn add_preset(table: &mut Defs, vars: &Vars, has_header: bool) -> Result<(), AllocError>
    ensures { OnOk result (
        table.new ≡ fold (words.with_variable vars.now has_header) table.old words.preset_names) }
{
    add_package(table, vars, has_header)?;
    add_directories(table, vars, has_header, directories())?;
    add(table, vars, has_header, b"LIBS")
}

/// Adds DEFS if the run makes a header.
#[tactic(auto, unfolding(crate::specs::Variables::header_names))]
fn add_defs(table: &mut Defs, vars: &Vars, has_header: bool) -> Result<(), AllocError>
    ensures { OnOk result (
        table.new
        ≡ fold (words.with_variable vars.now has_header) table.old
        (words.header_names has_header)) }
{
    if has_header {
        return add(table, vars, has_header, b"DEFS");
    }
    Ok(())
}

/// Adds output variables.
fn add_all(
    table: &mut Defs,
    vars: &Vars,
    has_header: bool,
    names: &[Bytes],
) -> Result<(), AllocError>
    requires { AreShellNames names.now }
    ensures { OnOk result (
        table.new ≡ fold (words.with_variable vars.now has_header) table.old names.now) }
{
    for name in names {
        add(table, vars, has_header, name.as_slice())?;
    }
    Ok(())
}

/// Adds the output variables of a run.
#[tactic(auto, unfolding(crate::specs::Variables::output_names_of))]
fn add_outputs(
    table: &mut Defs,
    vars: &Vars,
    has_header: bool,
    names: &SubstList,
) -> Result<(), AllocError>
    ensures { OnOk result (
        table.new
        ≡ fold (words.with_variable vars.now has_header) table.old
        (words.output_names_of has_header names.now)) }
{
    add_preset(table, vars, has_header)?;
    add_defs(table, vars, has_header)?;
    add_all(table, vars, has_header, names.names())
}

/// Returns the output variables of a run with their values. The names are the source's own output
/// variables, and `has_header` is whether the run makes a header.
#[tactic(auto, unfolding(crate::specs::Variables::output_variables))]
pub(crate) fn output_variables(
    alloc: Global,
    vars: &Vars,
    has_header: bool,
    names: &SubstList,
) -> Result<Defs, AllocError>
    ensures exact { IfOk result (λ t. t ≡ words.output_variables vars.now has_header names.now) }
    ensures each_once { IfOk result (words.AreOutputVariables vars.now has_header names.now) }
{
    let mut table = Defs::new(alloc);
    add_outputs(&mut table, vars, has_header, names)?;
    Ok(table)
}
