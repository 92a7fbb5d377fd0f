//! Whether lines that say why are asked for.

ghost use Rattle.std.specs.Prelude.{◌≡◌};
ghost use Rattle.cmd_explain.specs.Asking as meant;

use deftable::Bytes;

/// Whether the lines of faults are explained, and what an explanation may quote.
#[derive(Clone, Copy)]
pub struct Why<'a> {
    /// If false, nothing follows the line of a fault.
    pub is_asked: bool,
    /// The directory of the sources.
    pub srcdir: &'a [u8],
    /// The path of the source, or of the record.
    pub path: &'a [u8],
    /// The text of that file.
    pub text: &'a [u8],
    /// The arguments of the run, or the names of the outputs that are to be made again.
    pub args: &'a [Bytes],
}

/// Returns whether an entry of the environment is an ACRUN_WHY that isn't empty.
fn is_asking(name: &[u8], value: &[u8]) -> bool
    ensures { result ≡ meant.is_asking (name.now, value.now) }
{
    name == b"ACRUN_WHY".as_slice() && !value.is_empty()
}

/// Returns whether the environment asks for lines that say why: it has an entry ACRUN_WHY whose
/// value isn't empty (own).
pub fn asks_why(env: &[(Bytes, Bytes)]) -> bool
    ensures { result ≡ meant.asks_why env.now }
{
    env.iter()
        .any(|entry| is_asking(entry.0.as_slice(), entry.1.as_slice()))
}
