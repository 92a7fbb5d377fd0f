//! What the program shows of its children.

ghost use Rattle.std.specs.Prelude.{◌≡◌, ◌≢◌, false, IsTrue};
ghost use Rattle.std.specs.List.{list_any};
ghost use Rattle.options_line.specs.Argument.{argument_of};
ghost use Rattle.cmd_call.specs.Calls.{call_of, IfConfigure};
ghost use Rattle.cmd_call.specs.Progress as meant;
ghost use Rattle.cmd_call.specs.declared.progress.Showing.TheVariants.{Nothing};

use crate::call::{ProgramCall, call_of};
use deftable::Bytes;
use options_line::argument::{Argument, Switch, read_argument};

/// What the program shows of the children of a run (own).
#[derive(Clone, Copy)]
pub enum Showing {
    /// Nothing.
    Nothing,
    /// The line of a terminal, which is written anew after each start and each end.
    Line,
    /// A line of its own for each child that is started.
    Lines,
}

/// Returns whether an argument with this reading is `--quiet`, in any of its forms.
fn turns_quiet(said: Argument<'_>) -> bool
    ensures { result ≡ meant.turns_quiet (argument_of said.entry) }
{
    match said {
        Argument::Flag(Switch::Quiet) => true,
        _ => false,
    }
}

/// Returns whether an argument is `--quiet`, in any of its forms.
fn is_quiet(argument: &Bytes) -> bool
    ensures { result ≡ meant.is_quiet argument.now }
{
    turns_quiet(read_argument(argument.as_slice()))
}

/// Returns whether one of the arguments is `--quiet`, in any of its forms.
fn has_quiet(arguments: &[Bytes]) -> bool
    ensures { result ≡ list_any meant.is_quiet arguments.now }
{
    arguments.iter().any(is_quiet)
}

/// Returns whether the program may show its progress, if it is given these words after its name: it
/// is asked to run a configure.ac, and none of the arguments is `--quiet`, in any of its forms.
fn may_show_progress(words: &[Bytes]) -> bool
    ensures value { result ≡ meant.may_show_progress (call_of words.now) }
    ensures quiet { IfConfigure (call_of words.now) (λ window arguments.
        IsTrue result → meant.IsNeverQuiet arguments) }
{
    match call_of(words) {
        ProgramCall::Configure(_, arguments) => !has_quiet(arguments),
        _ => false,
    }
}

/// Returns whether an entry of the environment is an ACRUN_PROGRESS with the value `lines`.
fn asks_lines(name: &[u8], value: &[u8]) -> bool
    ensures { result ≡ meant.asks_lines (name.now, value.now) }
{
    name == b"ACRUN_PROGRESS".as_slice() && value == b"lines".as_slice()
}

/// Returns whether the environment asks for lines.
fn has_lines(env: &[(Bytes, Bytes)]) -> bool
    ensures { result ≡ list_any meant.asks_lines env.now }
{
    env.iter()
        .any(|entry| asks_lines(entry.0.as_slice(), entry.1.as_slice()))
}

/// Returns what a run that isn't quiet shows.
fn showing_in(env: &[(Bytes, Bytes)], is_terminal: bool) -> Showing
    ensures { result ≡ meant.showing_in env.now is_terminal }
{
    if has_lines(env) {
        return Showing::Lines;
    }
    if is_terminal {
        return Showing::Line;
    }
    Showing::Nothing
}

/// Returns what the program shows of its children, if it is given these words after its name, this
/// environment, and a standard error that is a terminal or not: nothing unless it is asked to run a
/// configure.ac and none of the arguments is `--quiet`, in any of its forms; lines if an entry of
/// the environment is ACRUN_PROGRESS with the value `lines`; and otherwise the line of a terminal,
/// if there is one (own).
///
/// An argument that is the value of the option before it counts too, as in `--prefix -q`. So a run
/// that isn't quiet may show nothing, but a quiet one never shows anything.
pub fn showing_of(words: &[Bytes], env: &[(Bytes, Bytes)], is_terminal: bool) -> Showing
    ensures value { result ≡ meant.showing_of (call_of words.now) env.now is_terminal }
    ensures quiet { IfConfigure (call_of words.now) (λ window arguments.
        result ≢ Nothing → meant.IsNeverQuiet arguments) }
    // Nothing is shown unless it is asked for, or there is a terminal.
    ensures unasked { list_any meant.asks_lines env.now ≡ false → is_terminal ≡ false
        → result ≡ Nothing }
{
    if may_show_progress(words) {
        return showing_in(env, is_terminal);
    }
    Showing::Nothing
}
