//! Readers of arguments that are shell text. If the used text can't be read, the error is `Shell`
//! at the argument.

ghost use Rattle.std.specs.Prelude.{◌≡◌};
ghost use Rattle.m4quote.specs.ItemValue.{span};
ghost use Rattle.ac_statement.specs.Reading.{Gives};
ghost use Rattle.ac_args.specs.Shell as forms;

use crate::arguments::text;
use ac_statement::fault::{ParseFault, shell_fault};
use m4quote::Arg;
use shellword::{HereText, Patterns, Test, Word, read_here, read_patterns, read_test, read_word};
use std::alloc::Global;

/// Returns the used text as one word (POSIX, Shell Command Language, "Word Expansions").
#[tactic(auto, unfolding(crate::specs::Shell::word))]
pub fn word(alloc: Global, arg: Arg<'_>) -> Result<Word, ParseFault>
    ensures { Gives (λ w. w) result (forms.word (span arg.entry)) }
{
    let text = text(alloc, arg)?;
    match read_word(alloc, text.as_slice()) {
        Ok(word) => Ok(word),
        Err(fault) => Err(shell_fault(arg.at, fault)),
    }
}

/// Returns the used text as here text (POSIX, Shell Command Language, "Here-Document").
#[tactic(auto, unfolding(crate::specs::Shell::here_text))]
pub fn here_text(alloc: Global, arg: Arg<'_>) -> Result<HereText, ParseFault>
    ensures { Gives (λ h. h) result (forms.here_text (span arg.entry)) }
{
    let text = text(alloc, arg)?;
    match read_here(alloc, text.as_slice()) {
        Ok(here) => Ok(here),
        Err(fault) => Err(shell_fault(arg.at, fault)),
    }
}

/// Returns the used text as a test (POSIX, `test`).
#[tactic(auto, unfolding(crate::specs::Shell::shell_test))]
pub fn test(alloc: Global, arg: Arg<'_>) -> Result<Test, ParseFault>
    ensures { Gives (λ t. t) result (forms.shell_test (span arg.entry)) }
{
    let text = text(alloc, arg)?;
    match read_test(alloc, text.as_slice()) {
        Ok(test) => Ok(test),
        Err(fault) => Err(shell_fault(arg.at, fault)),
    }
}

/// Returns the used text as a list of patterns (POSIX, Shell Command Language, "Case Conditional
/// Construct").
#[tactic(auto, unfolding(crate::specs::Shell::patterns))]
pub fn patterns(alloc: Global, arg: Arg<'_>) -> Result<Patterns, ParseFault>
    ensures { Gives (λ p. p) result (forms.patterns (span arg.entry)) }
{
    let text = text(alloc, arg)?;
    match read_patterns(alloc, text.as_slice()) {
        Ok(patterns) => Ok(Patterns::from_vec(patterns)),
        Err(fault) => Err(shell_fault(arg.at, fault)),
    }
}
