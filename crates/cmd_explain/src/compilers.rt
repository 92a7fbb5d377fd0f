//! A run in which no compiler passed, or one failed that wrote more than is kept.

ghost use Rattle.std.specs.Prelude.{◌≡◌, true, false, []};
ghost use Rattle.cmd_call.specs.Lines.{SaysLines};

use crate::failures::{put_failures, put_no_compiler};
use crate::page::put_key;
use cmd_call::Hears;
use crew_trait::{Entry, Reply};
use lint_table::keys;
use std::alloc::Global;

/// How many bytes of a child's diagnostics are kept.
const MOST_KEPT: usize = 65_536;

/// Returns whether the entry is a conftest that a compiler refused whose diagnostics are as long as
/// what is kept, so that more may have been dropped.
fn is_cut(entry: &Entry) -> bool {
    match entry {
        Entry::Child {
            job,
            reply: Reply::Answer { status, text },
        } if job.file.is_some() && *status != 0 => text.len() >= MOST_KEPT,
        _ => false,
    }
}

/// Says that a compiler failed whose diagnostics were cut, if there is one.
#[tactic(auto, using(cmd_call::proofs::Pages::says_nothing))]
fn put_cut_diagnostics<E: Hears>(alloc: Global, log: &[Entry], errors: &mut E)
    ensures paged { SaysLines E.contents E.has_failed errors.old errors.new true [] }
{
    if log.iter().any(is_cut) {
        put_key(alloc, keys::CUT_DIAGNOSTICS, errors);
    }
}

/// Says what is wrong with the compilers of the run with this log.
fn put_compilers<E: Hears>(alloc: Global, log: &[Entry], errors: &mut E)
    ensures paged { SaysLines E.contents E.has_failed errors.old errors.new true [] }
{
    put_no_compiler(alloc, log, errors);
    put_failures(alloc, log, errors);
    put_cut_diagnostics(alloc, log, errors);
}

/// Says of the run with this log, if it is asked, that no call of a compiler passed, if at least one
/// was answered: how many, and of the first its check, its command, the first line of its
/// diagnostics, and what to look at. If three links or more were answered, none passed, and a
/// compile did, or the reverse, it asks what is wrong. If the run stopped since there is no compiler,
/// and none was looked for, a line says so. One more line says that a compiler failed
/// whose diagnostics were cut, if there is one: nobody reads after 4 MiB, and a compiler that writes
/// more is ended by that (own).
#[tactic(auto, using(cmd_call::proofs::Pages::says_nothing, crate::proofs::Pages::asked_pages))]
pub fn explain_compilers<E: Hears>(alloc: Global, is_asked: bool, log: &[Entry], errors: &mut E)
    ensures silent { is_asked ≡ false → errors.new ≡ errors.old }
    ensures paged { SaysLines E.contents E.has_failed errors.old errors.new is_asked [] }
{
    if is_asked {
        put_compilers(alloc, log, errors);
    }
}
