//! A whole source.

ghost use Rattle.std.specs.Prelude.{◌≡◌, ◌≢◌, ◌↔◌, true, IfOk, IfErr, Ok};
ghost use Rattle.ac_statement.specs.declared.fault.ParseFault.TheVariants.{OutOfMemory};
ghost use Rattle.ac_statement.specs.Reading.{Gives};
ghost use Rattle.ac_tree.specs.Lists.{after_all, lists_of, start};
ghost use Rattle.m4quote.specs.ItemValue.{views};
ghost use Rattle.acparse.specs.Profile.{ended, source_of, source_read};
ghost use Rattle.ac_tree.specs.Script.{Script, script_of};
ghost use Rattle.acparse.specs.Source.{IsSource, IsSourceFault};
ghost use Rattle.ac_tree.specs.Commands.{HasCommands};
ghost use Rattle.ac_tree.specs.Decide as decide;
ghost use Rattle.ac_tree.specs.Resumable.{IsResumable};
ghost use Rattle.ac_tree.specs.TestNames.{HasTestNames};
ghost use Rattle.ac_tree.specs.Limits.{HasShortLists};
ghost use Rattle.output_list.specs.Output.{AreOutputs};

use crate::read::read_statements;
use ac_args::ParseFault;
use ac_macros::list_kind::ListKind;
use ac_statement::fault::quote_fault;
use ac_tree::{Declarations, Source, Stage, Stmt};
use m4quote::{Item, read_items};
use std::alloc::Global;

/// Checks that a source may end after these declarations.
fn check_end(known: &Declarations) -> Result<(), ParseFault>
    ensures { (s : Script) → Gives (λ _. s) result (ended known.now.stage s) }
{
    match known.stage {
        Stage::Before => Err(ParseFault::NoInit),
        Stage::Open => Err(ParseFault::NoOutput),
        Stage::Ended => Ok(()),
    }
}

/// Reads the statements of the items of a whole source. `known` becomes what they declare.
fn read_whole(
    alloc: Global,
    known: &mut Declarations,
    items: &[Item<'_>],
) -> Result<Vec<Stmt>, ParseFault>
    requires { known.now ≡ start }
    ensures value { Gives (λ v. script_of v.items) result (source_read (views items.now)) }
    ensures after { IfOk result (λ v. known.new ≡ after_all start (script_of v.items)) }
{
    let statements = read_statements(alloc, 31, ListKind::Top, known, items)?;
    check_end(known)?;
    Ok(statements)
}

/// Reads the statements of the items of a whole source, and decides whether it can be resumed.
/// `known` becomes what they declare.
fn read_decided(
    alloc: Global,
    known: &mut Declarations,
    items: &[Item<'_>],
) -> Result<(Vec<Stmt>, bool), ParseFault>
    requires { known.now ≡ start }
    ensures value { Gives (λ v. script_of v.0.items) result (source_read (views items.now)) }
    ensures after { IfOk result (λ v. known.new ≡ after_all start (script_of v.0.items)) }
    ensures decided { IfOk result (λ v. v.1 ≡ decide.is_resumable (script_of v.0.items)) }
{
    let statements = read_whole(alloc, known, items)?;
    let decided = ac_resumable::is_resumable(alloc, statements.as_slice());
    Ok(decided.map(|resumes| (statements, resumes))?)
}

/// Reads the items of a whole source (`m4quote::read_items`), for whoever has them already.
///
/// # Errors
///
/// Those of [`parse`], but for those of the quotes.
pub fn parse_items(alloc: Global, items: &[Item<'_>]) -> Result<Source, ParseFault>
    // The statements of the items are returned, or their first error, unless memory runs out.
    ensures { Gives script_of result (source_read (views items.now)) }
{
    let mut lists = Declarations::new(alloc);
    let read = read_decided(alloc, &mut lists, items);
    read.map(|(statements, resumes)| Source::new(statements, lists, resumes))
}

#[tactic(auto, unfolding(crate::specs::Profile::source_of))]
fn read_source(alloc: Global, text: &[u8]) -> Result<Source, ParseFault>
    ensures { Gives script_of result (source_of text.now) }
{
    match read_items(alloc, text) {
        Ok(items) => parse_items(alloc, &items),
        Err(fault) => Err(quote_fault(fault)),
    }
}

/// Reads the text of a configure.ac.
///
/// # Errors
///
/// The first error, with its offset in bytes from the start of the file (`ParseFault` lists them).
/// If memory runs out first, `OutOfMemory`.
pub fn parse(alloc: Global, text: &[u8]) -> Result<Source, ParseFault>
    // The statements that are returned are those of the source.
    ensures sound { IfOk result (λ s. IsSource text.now (script_of s)) }
    // Its lists are within their limits.
    ensures limits { IfOk result (λ s. HasShortLists (lists_of (script_of s))) }
    // The names and templates of its files and headers are paths, and no name occurs twice.
    ensures outputs { IfOk result (λ s.
        AreOutputs (lists_of (script_of s)).files (lists_of (script_of s)).headers) }
    // Each AC_CACHE_CHECK has a cache name, and commands that set it and do nothing else.
    ensures commands { IfOk result (λ s. HasCommands (script_of s)) }
    // The variable of each program that is looked for is a shell name.
    ensures names { IfOk result (λ s. HasTestNames (script_of s)) }
    // If a source has statements, they are returned, unless memory runs out.
    ensures complete { (s : Script) → IsSource text.now s → Gives script_of result (Ok s) }
    // An error names what is wrong at its offset, and everything before it is right.
    ensures error_sound { IfErr result (λ f. f ≢ OutOfMemory → IsSourceFault text.now f) }
    // The same as a function of the text. It also says which of two errors of one item is reported.
    ensures exact { Gives script_of result (source_of text.now) }
{
    read_source(alloc, text)
}

/// Returns whether a source can be resumed: if a run is cut, and is started again with the cache
/// that it saved, it ends as an uncut run does (`ac_tree::specs::Resumable` has the rules). `parse`
/// has decided it.
pub fn is_resumable(source: &Source) -> bool
    // It is true exactly if the statements keep the rules.
    ensures rules { (result ≡ true) ↔ IsResumable (script_of source.now) }
    // The same as a function of the statements.
    ensures exact { result ≡ decide.is_resumable (script_of source.now) }
{
    source.is_resumable()
}
