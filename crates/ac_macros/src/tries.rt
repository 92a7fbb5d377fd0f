//! Readers of macros that try programs (Autoconf's manual, "Running the Compiler" and "Generating
//! Sources").

ghost use Rattle.std.specs.Prelude.{◌≡◌, map};
ghost use Rattle.m4quote.specs.ItemValue.{span};
ghost use Rattle.ac_statement.specs.Reading.{Gives};
ghost use Rattle.ac_macros.specs.Tries as rows;

use ac_args::ParseFault;
use ac_args::helping::sole_call;
use ac_args::program::source_text;
use ac_args::shell::here_text;
use ac_statement::inside::call_items;
use ac_statement::texts::arg_at;
use ac_tree::{Program, Question, Try};
use m4quote::Arg;
use std::alloc::Global;

/// AC_LANG_PROGRAM([prologue], [body]). `at` is the offset of the name.
#[tactic(auto, unfolding(crate::specs::Tries::lang_program))]
fn lang_program(alloc: Global, args: &[Arg<'_>], at: usize) -> Result<Program, ParseFault>
    ensures { Gives (λ p. p) result (rows.lang_program (map span args.now) at) }
{
    if args.len() > 2 {
        return Err(ParseFault::ArgCount(at));
    }
    let prologue = source_text(alloc, arg_at(args, 0))?;
    let body = here_text(alloc, arg_at(args, 1))?;
    Ok(Program::Program { prologue, body })
}

/// AC_LANG_SOURCE(text). `at` is the offset of the name.
#[tactic(auto, unfolding(crate::specs::Tries::lang_source))]
fn lang_source(alloc: Global, args: &[Arg<'_>], at: usize) -> Result<Program, ParseFault>
    ensures { Gives (λ p. p) result (rows.lang_source (map span args.now) at) }
{
    if args.len() != 1 {
        return Err(ParseFault::ArgCount(at));
    }
    let text = source_text(alloc, arg_at(args, 0))?;
    Ok(Program::Whole { text })
}

/// Reads the program of an argument that is one call of AC_LANG_PROGRAM or AC_LANG_SOURCE.
#[tactic(auto, unfolding(crate::specs::Tries::tried_program))]
fn tried_program(alloc: Global, arg: Arg<'_>) -> Result<Program, ParseFault>
    ensures { Gives (λ p. p) result (rows.tried_program (span arg.entry)) }
{
    let items = call_items(alloc, arg)?;
    if let Some((args, at)) = sole_call(b"AC_LANG_PROGRAM", &items) {
        return lang_program(alloc, args, at);
    }
    match sole_call(b"AC_LANG_SOURCE", &items) {
        Some((args, at)) => lang_source(alloc, args, at),
        None => Err(ParseFault::UnknownStatement(arg.at)),
    }
}

/// AC_COMPILE_IFELSE(program, ..), AC_LINK_IFELSE, AC_PREPROC_IFELSE and AC_RUN_IFELSE.
#[tactic(auto, unfolding(crate::specs::Tries::tries))]
pub(crate) fn tries(alloc: Global, kind: Try, args: &[Arg<'_>]) -> Result<Question, ParseFault>
    ensures { Gives (λ q. q) result (rows.tries kind (map span args.now)) }
{
    let program = tried_program(alloc, arg_at(args, 0))?;
    Ok(Question::Tries { kind, program })
}
