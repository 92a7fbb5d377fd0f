//! The command that runs a configure.ac.

ghost use Rattle.std.specs.Prelude.{◌≡◌, true, Ok, IfNone, IfOk, IfSome, option_copied};
ghost use Rattle.acparse.specs.Profile.{source_of};
ghost use Rattle.cmd_configure.specs.Configures.{IsCacheApart, IsConfigured, IsRun, ReadsSource};
ghost use Rattle.cmd_configure.specs.Ended.{HasHappened, IsOwnCache, IsRunEnd, Prints};
ghost use Rattle.cmd_status.specs.Happened.{is_all_done, is_output_cut, status_after};
ghost use Rattle.cmd_status.specs.Printed.{WritesSo};
ghost use Rattle.crew_trait.specs.Events.{IsIdle};
ghost use Rattle.file_texts.specs.Held.{fresh};
ghost use Rattle.engine.specs.Judged.{IsRead};
ghost use Rattle.engine_frame.specs.Needed.{script_in};
ghost use Rattle.cmd_call.specs.Supplies.{AreGiven};
ghost use Rattle.output_list.specs.Output.{AreOutputs};
ghost use Rattle.proberun.specs.Ran.{IsWindow, MayRun};
ghost use Rattle.ac_tree.specs.Lists.{lists_of};
ghost use Rattle.ac_tree.specs.Script.{script_of};

use ac_tree::Source;
use acparse::parse;
use cmd_call::{Hears, Supplies, Terminal, keep_inputs, read_supplies};
use cmd_explain::{Given, Why};
use cmd_status::{
    Happened, finish_run, no_memory, print_shown, tell_own_cache, tell_run, tell_unread,
};
use crew_refusals::Causes;
use crew_resume::{Givens, Resumes};
use deftable::Bytes;
use engine::{Fault, Judged, Needs, go, judge};
use file_disk::Disk;
use file_texts::{is_own, path_in, read_limited};
use options::{Settings, srcdir_of};
use std::alloc::AllocError;
use std::io::Read;
use std::mem::ManuallyDrop;

/// Returns the text of the cache, if there is one.
fn cache_of(supplies: &Supplies) -> Option<&[u8]>
    ensures { option_copied result ≡ supplies.now.cache }
{
    match &supplies.cache {
        Some(text) => Some(text.as_slice()),
        None => None,
    }
}

/// Returns what a run is given, as its faults are explained by it.
fn given_of<'a>(needs: &'a Needs<'_>, cache: Option<&'a [u8]>) -> Given<'a>
    ensures source { result.source.now ≡ needs.now.statements }
    ensures settings { result.settings.now ≡ needs.now.settings }
{
    Given {
        source: needs.source(),
        settings: needs.settings(),
        cache: cache.unwrap_or(b""),
    }
}

/// Tells the crew what a run is given, if it has a cache.
fn tell_crew<C: Resumes>(
    why: &Why<'_>,
    environment: &[(Bytes, Bytes)],
    needs: &Needs<'_>,
    cache: Option<&[u8]>,
    crew: &mut C,
)
    ensures { C.account crew.new ≡ C.account crew.old }
{
    if needs.settings().cache_name.is_none() {
        return;
    }
    crew.resume(&Givens {
        source: why.text,
        arguments: why.args,
        environment,
        cache,
    });
}

/// Runs a source that was judged, with what was read for it, and returns what happened.
#[tactic(auto, using(file_texts::proofs::Unused::fresh_unused))]
fn run_supplied<D: Disk, C: Resumes + Causes, R: Read, W: Hears, E: Hears>(
    terminal: &mut Terminal<'_, D, R, W, E>,
    window: usize,
    why: &Why<'_>,
    needs: &Needs<'_>,
    supplies: &Supplies,
    crew: &mut C,
) -> Happened
    requires window { IsWindow window }
    requires may_run { MayRun (C.account crew.old) }
    requires asked { why.now.is_asked ≡ terminal.old.is_asked }
    requires apart { IsCacheApart (D.known terminal.old.outputs.disk)
        needs.now.settings.cache_name }
    requires source { IsRead (script_in needs.now) }
    requires given { AreGiven (D.known terminal.old.outputs.disk) (script_in needs.now)
        needs.now.settings.cache_name needs.now.settings.srcdir needs.now.settings.no_create
        supplies.now.cache supplies.now.templates.items }
    requires fresh { terminal.old.outputs ≡ fresh terminal.old.outputs.disk }
    ensures idle { IsIdle (C.account crew.new).events }
    ensures run { is_all_done result ≡ true
        → Prints (W.contents terminal.old.output) (W.contents terminal.new.output) E.contents
        E.has_failed terminal.old.errors terminal.new.errors terminal.old.is_asked (λ out said.
        IsRun window needs.now.arguments (script_in needs.now) needs.now.settings
        (C.account crew.old) (C.account crew.new) (D.known terminal.old.outputs.disk)
        (D.known terminal.new.outputs.disk) out said (status_after result)) }
    ensures ended { WritesSo W.contents W.has_failed E.contents E.has_failed terminal.old.output
        terminal.new.output terminal.old.errors terminal.new.errors terminal.old.is_asked
        (is_output_cut result) (
        IsRunEnd window needs.now.arguments (script_in needs.now) needs.now.settings
        (C.account crew.old) (C.account crew.new) (D.known terminal.old.outputs.disk)
        (D.known terminal.new.outputs.disk) result) }
    ensures input { terminal.new.input ≡ terminal.old.input }
{
    let alloc = terminal.alloc;
    let templates = supplies.templates.as_slice();
    let outputs = &mut terminal.outputs;
    let srcdir = needs.settings().srcdir.as_slice();
    let Ok(()) = keep_inputs(alloc, outputs, srcdir, templates) else {
        return no_memory(&mut terminal.errors);
    };
    let cache = cache_of(supplies);
    let answer = go(alloc, needs, cache, templates, crew, outputs, window);
    let given = given_of(needs, cache);
    finish_run(terminal, why, &given, answer, crew)
}

/// Tells the crew what a run is given, runs it, and returns what happened.
fn run_told<D: Disk, C: Resumes + Causes, R: Read, W: Hears, E: Hears>(
    terminal: &mut Terminal<'_, D, R, W, E>,
    window: usize,
    why: &Why<'_>,
    needs: &Needs<'_>,
    supplies: &Supplies,
    crew: &mut C,
) -> Happened
    requires window { IsWindow window }
    requires may_run { MayRun (C.account crew.old) }
    requires asked { why.now.is_asked ≡ terminal.old.is_asked }
    requires apart { IsCacheApart (D.known terminal.old.outputs.disk)
        needs.now.settings.cache_name }
    requires source { IsRead (script_in needs.now) }
    requires given { AreGiven (D.known terminal.old.outputs.disk) (script_in needs.now)
        needs.now.settings.cache_name needs.now.settings.srcdir needs.now.settings.no_create
        supplies.now.cache supplies.now.templates.items }
    requires fresh { terminal.old.outputs ≡ fresh terminal.old.outputs.disk }
    ensures idle { IsIdle (C.account crew.new).events }
    ensures run { is_all_done result ≡ true
        → Prints (W.contents terminal.old.output) (W.contents terminal.new.output) E.contents
        E.has_failed terminal.old.errors terminal.new.errors terminal.old.is_asked (λ out said.
        IsRun window needs.now.arguments (script_in needs.now) needs.now.settings
        (C.account crew.old) (C.account crew.new) (D.known terminal.old.outputs.disk)
        (D.known terminal.new.outputs.disk) out said (status_after result)) }
    ensures ended { WritesSo W.contents W.has_failed E.contents E.has_failed terminal.old.output
        terminal.new.output terminal.old.errors terminal.new.errors terminal.old.is_asked
        (is_output_cut result) (
        IsRunEnd window needs.now.arguments (script_in needs.now) needs.now.settings
        (C.account crew.old) (C.account crew.new) (D.known terminal.old.outputs.disk)
        (D.known terminal.new.outputs.disk) result) }
    ensures input { terminal.new.input ≡ terminal.old.input }
{
    tell_crew(why, terminal.env, needs, cache_of(supplies), crew);
    run_supplied(terminal, window, why, needs, supplies, crew)
}

/// Reads what a source that was judged needs, runs it, and returns what happened.
fn run_needs<D: Disk, C: Resumes + Causes, R: Read, W: Hears, E: Hears>(
    terminal: &mut Terminal<'_, D, R, W, E>,
    window: usize,
    why: &Why<'_>,
    needs: &Needs<'_>,
    crew: &mut C,
) -> Happened
    requires window { IsWindow window }
    requires may_run { MayRun (C.account crew.old) }
    requires asked { why.now.is_asked ≡ terminal.old.is_asked }
    requires apart { IsCacheApart (D.known terminal.old.outputs.disk)
        needs.now.settings.cache_name }
    requires source { IsRead (script_in needs.now) }
    requires fresh { terminal.old.outputs ≡ fresh terminal.old.outputs.disk }
    ensures idle { IsIdle (C.account crew.new).events }
    ensures run { is_all_done result ≡ true
        → Prints (W.contents terminal.old.output) (W.contents terminal.new.output) E.contents
        E.has_failed terminal.old.errors terminal.new.errors terminal.old.is_asked (λ out said.
        IsRun window needs.now.arguments (script_in needs.now) needs.now.settings
        (C.account crew.old) (C.account crew.new) (D.known terminal.old.outputs.disk)
        (D.known terminal.new.outputs.disk) out said (status_after result)) }
    ensures ended { WritesSo W.contents W.has_failed E.contents E.has_failed terminal.old.output
        terminal.new.output terminal.old.errors terminal.new.errors terminal.old.is_asked
        (is_output_cut result) (
        IsRunEnd window needs.now.arguments (script_in needs.now) needs.now.settings
        (C.account crew.old) (C.account crew.new) (D.known terminal.old.outputs.disk)
        (D.known terminal.new.outputs.disk) result) }
    ensures input { terminal.new.input ≡ terminal.old.input }
{
    let disk = terminal.outputs.disk();
    match read_supplies(terminal.alloc, disk, needs.source(), needs.settings()) {
        Ok(supplies) => {
            let happened = run_told(terminal, window, why, needs, &supplies, crew);
            // The process ends soon, and the system takes its memory back at once.
            let _kept = ManuallyDrop::new(supplies);
            happened
        }
        Err(_) => no_memory(&mut terminal.errors),
    }
}

/// Returns the name of the cache if a run has that name for itself. Fails only if memory runs out.
fn own_cache<'a, D: Disk>(disk: &D, settings: &'a Settings) -> Result<Option<&'a [u8]>, AllocError>
    ensures own { IfOk result (λ own. IfSome own (λ name.
        IsOwnCache (D.known disk.now) settings.now.cache_name name.now)) }
    ensures apart { IfOk result (λ own. IfNone own (
        IsCacheApart (D.known disk.now) settings.now.cache_name)) }
{
    let Some(name) = &settings.cache_name else {
        return Ok(None);
    };
    let name = name.as_slice();
    if is_own(disk, name)? {
        return Ok(Some(name));
    }
    Ok(None)
}

/// Runs a source that was judged, unless its cache has a name that a run has for itself, and returns
/// what happened.
fn run_judged<D: Disk, C: Resumes + Causes, R: Read, W: Hears, E: Hears>(
    terminal: &mut Terminal<'_, D, R, W, E>,
    window: usize,
    why: &Why<'_>,
    needs: &Needs<'_>,
    crew: &mut C,
) -> Happened
    requires window { IsWindow window }
    requires may_run { MayRun (C.account crew.old) }
    requires asked { why.now.is_asked ≡ terminal.old.is_asked }
    requires source { IsRead (script_in needs.now) }
    requires fresh { terminal.old.outputs ≡ fresh terminal.old.outputs.disk }
    ensures idle { IsIdle (C.account crew.new).events }
    ensures run { is_all_done result ≡ true
        → Prints (W.contents terminal.old.output) (W.contents terminal.new.output) E.contents
        E.has_failed terminal.old.errors terminal.new.errors terminal.old.is_asked (λ out said.
        IsRun window needs.now.arguments (script_in needs.now) needs.now.settings
        (C.account crew.old) (C.account crew.new) (D.known terminal.old.outputs.disk)
        (D.known terminal.new.outputs.disk) out said (status_after result)) }
    ensures ended { WritesSo W.contents W.has_failed E.contents E.has_failed terminal.old.output
        terminal.new.output terminal.old.errors terminal.new.errors terminal.old.is_asked
        (is_output_cut result) (
        IsRunEnd window needs.now.arguments (script_in needs.now) needs.now.settings
        (C.account crew.old) (C.account crew.new) (D.known terminal.old.outputs.disk)
        (D.known terminal.new.outputs.disk) result) }
    ensures input { terminal.new.input ≡ terminal.old.input }
{
    let alloc = terminal.alloc;
    match own_cache(terminal.outputs.disk(), needs.settings()) {
        Ok(Some(name)) => tell_own_cache(alloc, terminal.is_asked, name, &mut terminal.errors),
        Ok(None) => run_needs(terminal, window, why, needs, crew),
        Err(_) => no_memory(&mut terminal.errors),
    }
}

/// Judges a source, runs it or shows a text, and returns what happened.
fn run_source<D: Disk, C: Resumes + Causes, R: Read, W: Hears, E: Hears>(
    terminal: &mut Terminal<'_, D, R, W, E>,
    window: usize,
    why: &Why<'_>,
    source: &Source,
    crew: &mut C,
) -> Happened
    requires window { IsWindow window }
    requires may_run { MayRun (C.account crew.old) }
    requires asked { why.now.is_asked ≡ terminal.old.is_asked }
    requires found { ReadsSource (D.known terminal.old.outputs.disk) why.now.args.now
        why.now.text.now }
    requires source { source_of why.now.text.now ≡ Ok (script_of source.now) }
    requires outputs { AreOutputs (lists_of (script_of source.now)).files
        (lists_of (script_of source.now)).headers }
    requires fresh { terminal.old.outputs ≡ fresh terminal.old.outputs.disk }
    ensures idle { IsIdle (C.account crew.new).events }
    ensures run { is_all_done result ≡ true
        → Prints (W.contents terminal.old.output) (W.contents terminal.new.output) E.contents
        E.has_failed terminal.old.errors terminal.new.errors terminal.old.is_asked (λ out said.
        IsConfigured window why.now.args.now terminal.old.env.now (C.account crew.old)
        (C.account crew.new) (D.known terminal.old.outputs.disk)
        (D.known terminal.new.outputs.disk) out said (status_after result)) }
    ensures ended { WritesSo W.contents W.has_failed E.contents E.has_failed terminal.old.output
        terminal.new.output terminal.old.errors terminal.new.errors terminal.old.is_asked
        (is_output_cut result) (
        HasHappened window why.now.args.now terminal.old.env.now (C.account crew.old)
        (C.account crew.new) (D.known terminal.old.outputs.disk)
        (D.known terminal.new.outputs.disk) result) }
    ensures input { terminal.new.input ≡ terminal.old.input }
{
    match judge(terminal.alloc, source, why.args, terminal.env) {
        Ok(Judged::Shows(report)) => {
            let is_printed = print_shown(terminal, &report);
            Happened::Shown(is_printed)
        }
        Ok(Judged::Runs(needs)) => run_judged(terminal, window, why, &needs, crew),
        Err(fault) => {
            let disk = terminal.outputs.disk();
            let errors = &mut terminal.errors;
            tell_run(terminal.alloc, disk, why, None, errors, fault)
        }
    }
}

/// Reads a source, runs it, and returns what happened.
fn run_text<D: Disk, C: Resumes + Causes, R: Read, W: Hears, E: Hears>(
    terminal: &mut Terminal<'_, D, R, W, E>,
    window: usize,
    why: &Why<'_>,
    crew: &mut C,
) -> Happened
    requires window { IsWindow window }
    requires may_run { MayRun (C.account crew.old) }
    requires asked { why.now.is_asked ≡ terminal.old.is_asked }
    requires found { ReadsSource (D.known terminal.old.outputs.disk) why.now.args.now
        why.now.text.now }
    requires fresh { terminal.old.outputs ≡ fresh terminal.old.outputs.disk }
    ensures idle { IsIdle (C.account crew.new).events }
    ensures run { is_all_done result ≡ true
        → Prints (W.contents terminal.old.output) (W.contents terminal.new.output) E.contents
        E.has_failed terminal.old.errors terminal.new.errors terminal.old.is_asked (λ out said.
        IsConfigured window why.now.args.now terminal.old.env.now (C.account crew.old)
        (C.account crew.new) (D.known terminal.old.outputs.disk)
        (D.known terminal.new.outputs.disk) out said (status_after result)) }
    ensures ended { WritesSo W.contents W.has_failed E.contents E.has_failed terminal.old.output
        terminal.new.output terminal.old.errors terminal.new.errors terminal.old.is_asked
        (is_output_cut result) (
        HasHappened window why.now.args.now terminal.old.env.now (C.account crew.old)
        (C.account crew.new) (D.known terminal.old.outputs.disk)
        (D.known terminal.new.outputs.disk) result) }
    ensures input { terminal.new.input ≡ terminal.old.input }
{
    match parse(terminal.alloc, why.text) {
        Ok(source) => {
            let happened = run_source(terminal, window, why, &source, crew);
            let _kept = ManuallyDrop::new(source);
            happened
        }
        Err(fault) => {
            let wrong = Fault::from(fault);
            let disk = terminal.outputs.disk();
            let errors = &mut terminal.errors;
            tell_run(terminal.alloc, disk, why, None, errors, wrong)
        }
    }
}

/// Returns what the faults of a run with these arguments are explained by.
fn why_of<'a>(is_asked: bool, path: &'a [u8], text: &'a [u8], args: &'a [Bytes]) -> Why<'a>
    ensures asked { result.is_asked ≡ is_asked }
    ensures text { result.text.now ≡ text.now }
    ensures args { result.args.now ≡ args.now }
{
    Why {
        is_asked,
        srcdir: srcdir_of(args),
        path,
        text,
        args,
    }
}

/// Runs the configure.ac that the arguments name, with at most `window` children at once, and
/// returns what happened.
///
/// The source is `configure.ac` in the directory that `--srcdir` names, or else in the current one.
/// What the run hands over is written in the current directory, and then its log. If a text is
/// shown, nothing is written. If anything is wrong, standard error has a line for it (own). If it
/// is found before the run, nothing is started or written; if a put is refused, or the log can't be
/// written, outputs may have been written before that. If it is asked, further lines may say why.
pub fn run_configure<D: Disk, C: Resumes + Causes, R: Read, W: Hears, E: Hears>(
    terminal: &mut Terminal<'_, D, R, W, E>,
    window: usize,
    args: &[Bytes],
    crew: &mut C,
) -> Happened
    requires window { IsWindow window }
    requires may_run { MayRun (C.account crew.old) }
    requires fresh { terminal.old.outputs ≡ fresh terminal.old.outputs.disk }
    ensures idle { IsIdle (C.account crew.new).events }
    ensures run { is_all_done result ≡ true
        → Prints (W.contents terminal.old.output) (W.contents terminal.new.output) E.contents
        E.has_failed terminal.old.errors terminal.new.errors terminal.old.is_asked (λ out said.
        IsConfigured window args.now terminal.old.env.now (C.account crew.old)
        (C.account crew.new) (D.known terminal.old.outputs.disk)
        (D.known terminal.new.outputs.disk) out said (status_after result)) }
    // Standard output has what the run prints, or a front of it. Standard error has the messages of
    // the run and the lines of what could not be written, or the line that says why there was no
    // run. If it is asked why, it has pages among them, and otherwise nothing more.
    ensures ended { WritesSo W.contents W.has_failed E.contents E.has_failed terminal.old.output
        terminal.new.output terminal.old.errors terminal.new.errors terminal.old.is_asked
        (is_output_cut result) (
        HasHappened window args.now terminal.old.env.now (C.account crew.old)
        (C.account crew.new) (D.known terminal.old.outputs.disk)
        (D.known terminal.new.outputs.disk) result) }
    ensures input { terminal.new.input ≡ terminal.old.input }
{
    let alloc = terminal.alloc;
    let is_asked = terminal.is_asked;
    let Ok(path) = path_in(alloc, srcdir_of(args), b"configure.ac") else {
        return no_memory(&mut terminal.errors);
    };
    let path = path.as_slice();
    match read_limited(alloc, terminal.outputs.disk(), path) {
        Ok(Some(text)) => {
            let why = why_of(is_asked, path, text.as_slice(), args);
            run_text(terminal, window, &why, crew)
        }
        Ok(None) => {
            let disk = terminal.outputs.disk();
            let _ = tell_unread(alloc, disk, is_asked, path, &mut terminal.errors);
            Happened::NotRead
        }
        Err(_) => no_memory(&mut terminal.errors),
    }
}
