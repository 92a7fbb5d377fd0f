//! Readers of macros that look for programs (Autoconf's manual, "Generic Programs" and "C
//! Compiler").

ghost use Rattle.std.specs.Prelude.{◌≡◌, map, IfOk};
ghost use Rattle.m4quote.specs.ItemValue.{span};
ghost use Rattle.ac_statement.specs.Reading.{Gives};
ghost use Rattle.ac_macros.specs.Searches as rows;
ghost use Rattle.ac_tree.specs.declared.statement.Declares.TheVariants.{Variable};

use crate::room::{MAX_NAMES, has_room};
use ac_args::ParseFault;
use ac_args::arguments::{is_given, name};
use ac_args::program::{program, programs};
use ac_args::shell::here_text;
use ac_statement::texts::arg_at;
use ac_tree::{Declarations, Declares, Effect, ProgramValue};
use deftable::{Bytes, Name, SubstList, Texts};
use m4quote::Arg;
use shellword::HereText;
use std::alloc::{AllocError, Global};

/// Reads the name of an output variable.
#[tactic(auto, unfolding(crate::specs::Searches::output_variable))]
pub(crate) fn output_variable(
    alloc: Global,
    known: &Declarations,
    arg: Arg<'_>,
) -> Result<Name, ParseFault>
    ensures { Gives (λ n. n) result (rows.output_variable known.now (span arg.entry)) }
{
    let name = name(alloc, arg)?;
    if !has_room(&known.substituted, &name) {
        return Err(ParseFault::TooMany(arg.at));
    }
    Ok(name)
}

/// Reads a value, if the argument is given.
#[tactic(auto, unfolding(crate::specs::Searches::optional_text))]
pub(crate) fn optional_text(alloc: Global, arg: Arg<'_>) -> Result<Option<HereText>, ParseFault>
    ensures { Gives (λ t. t) result (rows.optional_text (span arg.entry)) }
{
    if is_given(alloc, arg)? {
        let text = here_text(alloc, arg)?;
        Ok(Some(text))
    } else {
        Ok(None)
    }
}

/// Returns the declaration of an output variable.
fn declared(alloc: Global, variable: &Name) -> Result<Declares, AllocError>
    ensures { IfOk result (λ d. d ≡ Variable variable.now) }
{
    let name = variable.copy(alloc)?;
    Ok(Declares::Variable { name })
}

/// AC_CHECK_PROG(variable, program, value if found, [value if not found])
#[tactic(auto, unfolding(crate::specs::Searches::check_prog))]
pub(crate) fn check_prog(
    alloc: Global,
    known: &Declarations,
    args: &[Arg<'_>],
) -> Result<(Declares, Effect), ParseFault>
    ensures { Gives (λ s. s) result (rows.check_prog known.now (map span args.now)) }
{
    let variable = output_variable(alloc, known, arg_at(args, 0))?;
    let program = program(alloc, arg_at(args, 1))?;
    let found = here_text(alloc, arg_at(args, 2))?;
    let otherwise = optional_text(alloc, arg_at(args, 3))?;
    let declares = declared(alloc, &variable)?;
    let effect = Effect::Search {
        variable,
        program,
        value: ProgramValue::Text(found),
        otherwise,
    };
    Ok((declares, effect))
}

/// AC_CHECK_PROGS(variable, programs, [value if none is found])
#[tactic(auto, unfolding(crate::specs::Searches::check_progs))]
pub(crate) fn check_progs(
    alloc: Global,
    known: &Declarations,
    args: &[Arg<'_>],
) -> Result<(Declares, Effect), ParseFault>
    ensures { Gives (λ s. s) result (rows.check_progs known.now (map span args.now)) }
{
    let variable = output_variable(alloc, known, arg_at(args, 0))?;
    let names = programs(alloc, arg_at(args, 1))?;
    let otherwise = optional_text(alloc, arg_at(args, 2))?;
    let declares = declared(alloc, &variable)?;
    let effect = Effect::Searches {
        variable,
        programs: Texts::from_vec(names),
        otherwise,
    };
    Ok((declares, effect))
}

/// AC_PATH_PROG(variable, program, [value if not found])
#[tactic(auto, unfolding(crate::specs::Searches::path_prog))]
pub(crate) fn path_prog(
    alloc: Global,
    known: &Declarations,
    args: &[Arg<'_>],
) -> Result<(Declares, Effect), ParseFault>
    ensures { Gives (λ s. s) result (rows.path_prog known.now (map span args.now)) }
{
    let variable = output_variable(alloc, known, arg_at(args, 0))?;
    let program = program(alloc, arg_at(args, 1))?;
    let otherwise = optional_text(alloc, arg_at(args, 2))?;
    let declares = declared(alloc, &variable)?;
    let effect = Effect::Search {
        variable,
        program,
        value: ProgramValue::FullName,
        otherwise,
    };
    Ok((declares, effect))
}

/// Returns 1 if the name is new to the list, else 0.
fn growth(names: &SubstList, name: &[u8]) -> usize
    ensures { result ≡ rows.growth names.now name.now }
{
    if names.has(name) { 0 } else { 1 }
}

/// Returns whether a list of the source has room for the five variables of the compiler.
fn has_tool_room(names: &SubstList) -> bool
    ensures { result ≡ rows.has_tool_room names.now }
{
    let count = names.names().len();
    if count > MAX_NAMES {
        return false;
    }
    count
        + growth(names, b"CC")
        + growth(names, b"CFLAGS")
        + growth(names, b"LDFLAGS")
        + growth(names, b"LIBS")
        + growth(names, b"CPPFLAGS")
        <= MAX_NAMES
}

/// Returns the compilers of an AC_PROG_CC that names none.
fn usual_compilers(alloc: Global) -> Result<Vec<Bytes>, AllocError>
    ensures { IfOk result (λ v. v.items ≡ rows.usual_compilers) }
{
    let mut names = Vec::new(alloc);
    names.push(Bytes::from_slice(alloc, b"gcc")?)?;
    names.push(Bytes::from_slice(alloc, b"cc")?)?;
    Ok(names)
}

/// Reads the compilers of AC_PROG_CC.
#[tactic(auto, unfolding(crate::specs::Searches::compilers))]
fn compilers(alloc: Global, arg: Arg<'_>) -> Result<Vec<Bytes>, ParseFault>
    ensures { Gives (λ v. v.items) result (rows.compilers (span arg.entry)) }
{
    if is_given(alloc, arg)? {
        programs(alloc, arg)
    } else {
        Ok(usual_compilers(alloc)?)
    }
}

/// AC_PROG_CC([compilers]). `at` is the offset of the name.
#[tactic(auto, unfolding(crate::specs::Searches::prog_cc))]
pub(crate) fn prog_cc(
    alloc: Global,
    known: &Declarations,
    at: usize,
    args: &[Arg<'_>],
) -> Result<(Declares, Effect), ParseFault>
    ensures { Gives (λ s. s) result (rows.prog_cc known.now at (map span args.now)) }
{
    if !has_tool_room(&known.substituted) {
        return Err(ParseFault::TooMany(at));
    }
    let names = compilers(alloc, arg_at(args, 0))?;
    let variable = Name::from_slice(alloc, b"CC")?;
    let effect = Effect::Searches {
        variable,
        programs: Texts::from_vec(names),
        otherwise: None,
    };
    Ok((Declares::Compiler, effect))
}
