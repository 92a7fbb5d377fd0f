//! The lines on what was handed over.

ghost use Rattle.std.specs.Prelude.{◌≡◌, ◌++◌, OnOk, OnErr};
ghost use Rattle.file_texts.specs.Sayings as meant;
ghost use Rattle.file_texts.specs.Sayings.{said};

use output_put::Kind;
use std::alloc::{AllocError, Global};

/// What is said of an artifact.
#[derive(Clone, Copy)]
pub(crate) enum Saying {
    /// Nothing.
    Nothing,
    /// That the file is made.
    Creating,
    /// That the header had its text before.
    Unchanged,
}

/// Returns what is said of an artifact of this kind. `is_unchanged` says whether its file has its
/// text already. It matters for a header alone.
pub(crate) fn saying_of(kind: Kind, is_unchanged: bool) -> Saying
    ensures { result ≡ meant.saying_of kind is_unchanged }
{
    match kind {
        Kind::Cache => Saying::Nothing,
        Kind::Record => Saying::Nothing,
        Kind::File => Saying::Creating,
        Kind::Header if is_unchanged => Saying::Unchanged,
        Kind::Header => Saying::Creating,
    }
}

/// Appends a front, a name and an end. If memory runs out, it appends nothing.
fn add_line(
    alloc: Global,
    lines: &mut Vec<u8>,
    front: &[u8],
    name: &[u8],
    end: &[u8],
) -> Result<(), AllocError>
    ensures ok { OnOk result
        (lines.new.items ≡ lines.old.items ++ (front.now ++ (name.now ++ end.now))) }
    ensures err { OnErr result (lines.new.items ≡ lines.old.items) }
{
    let mut line = Vec::from_slice(alloc, front)?;
    line.extend_from_slice(name)?;
    line.extend_from_slice(end)?;
    lines.extend_from_slice(line.as_slice())?;
    Ok(())
}

/// Appends what is said of an artifact with this name. If memory runs out, it appends nothing.
pub(crate) fn say(
    alloc: Global,
    lines: &mut Vec<u8>,
    saying: Saying,
    name: &[u8],
) -> Result<(), AllocError>
    ensures ok { OnOk result (lines.new.items ≡ lines.old.items ++ said saying name.now) }
    ensures err { OnErr result (lines.new.items ≡ lines.old.items) }
{
    match saying {
        Saying::Nothing => Ok(()),
        Saying::Creating => add_line(alloc, lines, b"config.status: creating ", name, b"\n"),
        Saying::Unchanged => add_line(alloc, lines, b"config.status: ", name, b" is unchanged\n"),
    }
}
