//! What the filter takes of a run: the text of a file, what is printed on standard error, and the
//! exit status.

ghost use Rattle.std.specs.Prelude.{◌≡◌, IfOk, find, false};
ghost use Rattle.std.specs.Option.{option_copied};
ghost use Rattle.cfglog.specs.Texts.{messages_of};
ghost use Rattle.deftable.specs.declared.note.Stream.TheVariants as streams;
ghost use Rattle.engine_frame.specs.Told as told;
ghost use Rattle.cmd_filter.specs.Handed as words;

use cfglog::messages_text;
use deftable::{Bytes, Stream};
use engine::{Artifact, Kind, Report, status_of};
use std::alloc::{AllocError, Global};

/// The text that is written, the text for standard error, and the exit status.
#[derive(Drop)]
pub(crate) struct Written {
    pub text: Bytes,
    pub errors: Vec<u8>,
    pub status: u8,
}

fn is_file(artifact: &Artifact) -> bool
    ensures { result ≡ words.is_file artifact.now }
{
    matches!(artifact.kind, Kind::File)
}

/// Returns the first file among these artifacts.
fn first_file(artifacts: &[Artifact]) -> Option<&Artifact>
    ensures { option_copied result ≡ find words.is_file artifacts.now }
{
    artifacts.iter().find(|artifact| is_file(artifact))
}

/// Returns the text of the first file among these artifacts, or the empty text if there is none.
fn first_text(alloc: Global, artifacts: &[Artifact]) -> Result<Bytes, AllocError>
    ensures { IfOk result (λ text. text ≡ words.first_text artifacts.now) }
{
    match first_file(artifacts) {
        None => Ok(Bytes::new(alloc)),
        Some(artifact) => artifact.text.copy(alloc),
    }
}

/// Returns what the filter takes of a run with this report, which handed over these artifacts.
pub(crate) fn taken(
    alloc: Global,
    report: &Report,
    artifacts: &[Artifact],
) -> Result<Written, AllocError>
    ensures text { IfOk result (λ w. w.text ≡ words.first_text artifacts.now) }
    ensures errors { IfOk result (λ w.
        w.errors.items ≡ messages_of streams.Err false report.now.messages) }
    ensures status { IfOk result (λ w. w.status ≡ told.status_of report.now.outcome) }
{
    let text = first_text(alloc, artifacts)?;
    let errors = messages_text(alloc, report.messages.as_slice(), Stream::Err, false)?;
    let status = status_of(report.outcome);
    Ok(Written {
        text,
        errors,
        status,
    })
}
