//! Names of outputs and of templates.

ghost use Rattle.std.specs.Prelude.{◌≡◌, IfOk};
ghost use Rattle.std.specs.List.{list_all};
ghost use Rattle.output_list.specs.Path as specs;

use std::alloc::{AllocError, Global};
use text_cut::{is_blank, parts};

fn is_path_byte(byte: u8) -> bool
    ensures { result ≡ specs.is_path_byte byte }
{
    byte != b'$' && byte != b':' && !is_blank(byte)
}

fn is_path_text(path: &[u8]) -> bool
    ensures { result ≡ list_all specs.is_path_byte path.now }
{
    path.iter().all(|byte| is_path_byte(*byte))
}

fn is_step(part: &[u8]) -> bool
    ensures { result ≡ specs.is_step part.now }
{
    !part.is_empty() && part != b".".as_slice() && part != b"..".as_slice()
}

fn are_steps(parts: &[&[u8]]) -> bool
    ensures { result ≡ list_all (λ p. specs.is_step p.now) parts.now }
{
    parts.iter().all(|part| is_step(part))
}

/// Returns whether a text can be the name or the template of an output: a path below a directory,
/// without `$`, `:`, space, tab and newline (own).
#[tactic(auto, using(crate::proofs::Names::mapped), unfolding(crate::specs::Path::is_path))]
pub fn is_path(alloc: Global, path: &[u8]) -> Result<bool, AllocError>
    ensures { IfOk result (λ b. b ≡ specs.is_path path.now) }
{
    let steps = parts(alloc, path, b'/')?;
    Ok(is_path_text(path) && are_steps(steps.as_slice()))
}
