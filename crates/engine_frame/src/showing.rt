//! What is shown in place of a run.

ghost use Rattle.std.specs.Prelude.{◌≡◌, ◌∷◌, [], IfOk, option_map};
ghost use Rattle.deftable.specs.declared.note.Stream.TheVariants.{Out};
ghost use Rattle.ac_tree.specs.Script.{script_of};
ghost use Rattle.engine_frame.specs.Shown as words;

use crate::report::{Outcome, Report};
use ac_tree::{Effect, Source, Stmt};
use crew_trait::Log;
use deftable::{Bytes, Defs, Note, Notes, Stream};
use options::{Settings, help_text};
use std::alloc::{AllocError, Global};

/// Returns the line of a version.
fn line_of(alloc: Global, title: &[u8], version: &[u8]) -> Result<Bytes, AllocError>
    ensures { IfOk result (λ t. t ≡ words.line_of title.now version.now) }
{
    let mut line = Vec::from_slice(alloc, title)?;
    line.extend_from_slice(b" configure ")?;
    line.extend_from_slice(version)?;
    line.extend_from_slice(b"\n")?;
    Ok(Bytes::from_vec(line))
}

/// Returns the title and the version, if the effect is that of AC_INIT.
fn named_package(effect: &Effect) -> Option<(&[u8], &[u8])>
    ensures { option_map (λ p. words.line_of p.0.now p.1.now) result
        ≡ words.package_line effect.now }
{
    match effect {
        Effect::Package { title, version, .. } => Some((title.as_slice(), version.as_slice())),
        _ => None,
    }
}

/// Returns the line of the version, if the effect is that of AC_INIT.
fn package_line(alloc: Global, effect: &Effect) -> Result<Option<Bytes>, AllocError>
    ensures { IfOk result (λ line. line ≡ words.package_line effect.now) }
{
    let Some((title, version)) = named_package(effect) else {
        return Ok(None);
    };
    let line = line_of(alloc, title, version)?;
    Ok(Some(line))
}

/// Returns the same of any statement.
fn statement_line(alloc: Global, statement: &Stmt) -> Result<Option<Bytes>, AllocError>
    ensures { IfOk result (λ line. line ≡ words.statement_line statement.now) }
{
    match statement {
        Stmt::Do { effect, .. } => package_line(alloc, effect),
        Stmt::Choose { .. } => Ok(None),
        Stmt::CacheCheck { .. } => Ok(None),
    }
}

/// Returns the line of the version: the package and its version, by AC_INIT.
fn version_line(alloc: Global, statements: &[Stmt]) -> Result<Bytes, AllocError>
    ensures { IfOk result (λ t. t ≡ words.version_line (script_of statements.now)) }
{
    'statements: for i in 0..statements.len() {
        if let Some(line) = statement_line(alloc, &statements[i])? {
            return Ok(line);
        }
    }
    line_of(alloc, b"", b"")
}

/// Returns the text that is shown.
fn shown_text(alloc: Global, source: &Source, settings: &Settings) -> Result<Bytes, AllocError>
    ensures { IfOk result (λ t. t ≡ words.shown_text (script_of source.now) settings.now) }
{
    if settings.help {
        return help_text(alloc, source);
    }
    version_line(alloc, source.statements())
}

/// Returns a text for standard output alone.
fn sole_note(alloc: Global, text: Bytes) -> Result<Notes, AllocError>
    ensures { IfOk result (λ n. n ≡ record { stream = Out; text = text } ∷ []) }
{
    let mut notes = Notes::new(alloc);
    notes.push(Note {
        stream: Stream::Out,
        text,
    })?;
    Ok(notes)
}

/// Returns the report if a text is shown.
#[tactic(auto, unfolding(crate::specs::Shown::shown_report))]
pub fn shown(alloc: Global, source: &Source, settings: Settings) -> Result<Report, AllocError>
    ensures { IfOk result (λ r. r ≡ words.shown_report (script_of source.now) settings) }
{
    let text = shown_text(alloc, source, &settings)?;
    let messages = sole_note(alloc, text)?;
    Ok(Report {
        outcome: Outcome::Shown,
        vars: settings.vars,
        defs: Defs::new(alloc),
        messages,
        log: Log::new(alloc),
        handed: 0,
    })
}
