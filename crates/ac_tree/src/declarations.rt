//! How far a source is, and the lists that its statements declare.

ghost use Rattle.std.specs.Prelude.{◌≡◌, OnOk};
ghost use Rattle.deftable.specs.ShellName.{IsShellName};
ghost use Rattle.ac_tree.specs.Lists as lists;

use crate::feature::OptionKind;
use crate::help::{Help, HelpList};
use crate::statement::{Declares, OutputKind};
use deftable::{Bytes, Name, SubstList};
use output_list::OutputList;
use std::alloc::{AllocError, Global};

/// How far a source is: which of AC_INIT and AC_OUTPUT it has passed.
#[derive(Clone, Copy)]
pub enum Stage {
    /// Before AC_INIT.
    Before,
    /// Between AC_INIT and AC_OUTPUT.
    Open,
    /// After AC_OUTPUT.
    Ended,
}

/// How far a source is after statements, and what they declare.
pub struct Declarations {
    pub stage: Stage,
    /// The output variables of AC_SUBST, AC_ARG_VAR, AC_CHECK_PROG, AC_CHECK_PROGS, AC_PATH_PROG
    /// and AC_PROG_CC, each once, in the order of their first mention.
    pub substituted: SubstList,
    /// The precious variables of AC_ARG_VAR and AC_PROG_CC, in the same way.
    pub precious: SubstList,
    /// The variables of the features of AC_ARG_ENABLE, in the same way.
    pub features: SubstList,
    /// The variables of the packages of AC_ARG_WITH, in the same way.
    pub packages: SubstList,
    /// The help entries of AC_ARG_ENABLE, AC_ARG_WITH and AC_ARG_VAR, one for each call, in order.
    pub help: HelpList,
    /// The files to be made, in the order in which they are named.
    pub files: OutputList,
    /// The headers to be made, in the same way.
    pub headers: OutputList,
}

impl Drop for Declarations {
    fn drop(self) {
        let Declarations {
            stage: _stage,
            substituted: _substituted,
            precious: _precious,
            features: _features,
            packages: _packages,
            help: _help,
            files: _files,
            headers: _headers,
        } = self;
    }
}

impl Declarations {
    /// Returns the declarations before the first statement.
    pub fn new(alloc: Global) -> Declarations
        ensures { result ≡ lists.start }
    {
        Declarations {
            stage: Stage::Before,
            substituted: SubstList::new(alloc),
            precious: SubstList::new(alloc),
            features: SubstList::new(alloc),
            packages: SubstList::new(alloc),
            help: HelpList::new(alloc),
            files: OutputList::new(alloc),
            headers: OutputList::new(alloc),
        }
    }
}

/// Adds a precious variable, with its help.
fn declare_variable(
    alloc: Global,
    known: &mut Declarations,
    name: &Name,
    help: &Bytes,
) -> Result<(), AllocError>
    ensures { OnOk result (known.new ≡ lists.with_precious known.old name.now help.now) }
{
    let left = Bytes::from_slice(alloc, name.as_slice())?;
    let right = help.copy(alloc)?;
    known.substituted.add(name.as_slice())?;
    known.precious.add(name.as_slice())?;
    known.help.push(Help::Columns { left, right })
}

/// Adds a variable of the compiler, which is precious.
fn declare_tool(known: &mut Declarations, name: &[u8]) -> Result<(), AllocError>
    requires { IsShellName name.now }
    ensures { OnOk result (known.new ≡ lists.with_tool known.old name.now) }
{
    known.substituted.add(name)?;
    known.precious.add(name)?;
    Ok(())
}

/// Adds the variables of the compiler (Autoconf's manual, "C Compiler").
fn declare_tools(known: &mut Declarations) -> Result<(), AllocError>
    ensures { OnOk result (known.new ≡ lists.with_tools known.old) }
{
    declare_tool(known, b"CC")?;
    declare_tool(known, b"CFLAGS")?;
    declare_tool(known, b"LDFLAGS")?;
    declare_tool(known, b"LIBS")?;
    declare_tool(known, b"CPPFLAGS")?;
    Ok(())
}

/// Adds outputs of a kind.
fn declare_outputs(
    alloc: Global,
    known: &mut Declarations,
    kind: OutputKind,
    outputs: &OutputList,
) -> Result<(), AllocError>
    ensures { OnOk result (known.new ≡ lists.with_outputs known.old kind outputs.now) }
{
    match kind {
        OutputKind::File => known.files.push_copies(alloc, outputs.as_slice()),
        OutputKind::Header => known.headers.push_copies(alloc, outputs.as_slice()),
    }
}

/// Adds an option, with its help.
fn declare_option(
    alloc: Global,
    known: &mut Declarations,
    kind: OptionKind,
    variable: &Name,
    help: &Help,
) -> Result<(), AllocError>
    ensures { OnOk result (known.new ≡ lists.with_option known.old kind variable.now help.now) }
{
    match kind {
        OptionKind::Feature => known.features.add(variable.as_slice())?,
        OptionKind::Package => known.packages.add(variable.as_slice())?,
    }
    known.help.push(help.copy(alloc)?)
}

/// Adds what a statement declares. If memory runs out, some of it may have been added.
#[tactic(auto, unfolding(crate::specs::Lists::after))]
pub fn declare(
    alloc: Global,
    known: &mut Declarations,
    declares: &Declares,
) -> Result<(), AllocError>
    ensures { OnOk result (known.new ≡ lists.after known.old declares.now) }
{
    match declares {
        Declares::Nothing => Ok(()),
        Declares::Begin => {
            known.stage = Stage::Open;
            Ok(())
        }
        Declares::End => {
            known.stage = Stage::Ended;
            Ok(())
        }
        Declares::Outputs { kind, outputs } => declare_outputs(alloc, known, *kind, outputs),
        Declares::Variable { name } => known.substituted.add(name.as_slice()),
        Declares::Precious { name, help } => declare_variable(alloc, known, name, help),
        Declares::Compiler => declare_tools(known),
        Declares::Option {
            kind,
            variable,
            help,
        } => declare_option(alloc, known, *kind, variable, help),
    }
}
