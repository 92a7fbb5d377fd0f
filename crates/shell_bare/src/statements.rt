//! Reads the statements of bare text.

ghost use Rattle.std.specs.Prelude.{◌≡◌, ◌++◌, ◌≤◌, List, Ok, length, IfOk, IfErr, OnOk, option_to_list};
ghost use Rattle.shell_bare.specs.Faults.{IsBareFault};
ghost use Rattle.shell_bare.specs.Gives.{Gives};
ghost use Rattle.shell_bare.specs.Reading.{statements_from, statements_of};
ghost use Rattle.shell_bare.specs.Refused.{IsRefused};
ghost use Rattle.shell_bare.specs.Statements.{IsBareText};
ghost use Rattle.shell_bare.specs.declared.assignments.Assignment.{Assignment};
ghost use Rattle.shell_bare.specs.declared.fault.BareFault.TheVariants.{OutOfMemory};
ghost use Rattle.shell_bare.specs.declared.item.ReadStage.TheVariants.{Opening};

use crate::assignments::{Assignment, Assignments};
use crate::continuation::join_lines;
use crate::fault::BareFault;
use crate::item::{ReadStage, read_item};
use std::alloc::Global;

fn push_assignment(
    list: &mut Vec<Assignment>,
    assignment: Option<Assignment>,
) -> Result<(), BareFault>
    ensures ok { OnOk result (list.new.items ≡ list.old.items ++ option_to_list assignment) }
    ensures err { IfErr result (λ e. e ≡ OutOfMemory) }
{
    if let Some(assignment) = assignment {
        list.push(assignment)?;
    }
    Ok(())
}

/// Returns the assignments of a text without line continuations.
fn read_joined(alloc: Global, text: &[u8]) -> Result<Assignments, BareFault>
    ensures value { Gives (λ a. a) result (statements_from 0 Opening 0 text.now) }
    ensures fault { IfErr result (IsBareFault (length text.now)) }
{
    let mut list = Vec::new(alloc);
    let mut stage = ReadStage::Opening;
    let mut at = 0;
    while at < text.len() {
        let item = read_item(alloc, stage, at, &text[at..])?;
        push_assignment(&mut list, item.assignment)?;
        at += item.len;
        stage = item.stage;
    }
    Ok(Assignments::from_vec(list))
}

#[tactic(auto, unfolding(crate::specs::Reading::statements_of))]
fn read_whole(alloc: Global, text: &[u8]) -> Result<Assignments, BareFault>
    ensures exact { Gives (λ a. a) result (statements_of text.now) }
    ensures fault { IfErr result (IsBareFault (length text.now)) }
{
    let joined = join_lines(alloc, text)?;
    read_joined(alloc, &joined)
}

/// Reads the statements of bare text, as far as they are assignments (POSIX shell, 2.2, 2.3 and
/// 2.9.1).
///
/// A backslash before a newline is removed with it, except in single quotes and comments. A newline
/// or `;` outside quotes and comments ends a statement. Each statement is empty, a lone `:`, or
/// assignments `NAME=WORD` with spaces or tabs between them. A `#` at the start of a shell word
/// begins a comment, up to the end of its line.
///
/// The time and the memory are in proportion to the length of the text.
///
/// # Errors
///
/// Returns the first error from left to right. Its offset counts the bytes of the text without its
/// line continuations.
///
/// - [`BareFault::UnknownStatement`] if neither an assignment nor a lone `:` begins where one must.
/// - [`BareFault::Shell`] if the word of an assignment is an error of
///   [`shellword::read_word_front`].
pub fn read_statements(alloc: Global, text: &[u8]) -> Result<Assignments, BareFault>
    // The result as one function of the text.
    ensures exact { Gives (λ a. a) result (statements_of text.now) }
    // If assignments are returned, the text makes them.
    ensures sound { IfOk result (IsBareText text.now) }
    // If the text makes assignments, they are returned unless memory runs out.
    ensures complete { (list : List Assignment) → IsBareText text.now list
        → Gives (λ a. a) result (Ok list) }
    // If an error is returned, it is the first error of the text, or memory ran out.
    ensures error_sound { IfErr result (IsRefused text.now) }
    ensures fault { IfErr result (IsBareFault (length text.now)) }
{
    read_whole(alloc, text)
}
