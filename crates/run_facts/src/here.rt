//! The fingerprint of a run in the current directory.

ghost use Rattle.std.specs.Prelude.{◌≡◌, ℕ, List, IfOk, IfSome, option_map};
ghost use Rattle.sha2.specs.Sha256.{sha256};
ghost use Rattle.run_facts.specs.Entries.{entries};
ghost use Rattle.run_fingerprint.specs.Fingerprint.{counted, run_text};
ghost use Rattle.run_fingerprint.specs.declared.inputs.ProgramAt.{ProgramAt};

use crate::entries::entries_of;
use crate::mask::mask_here;
use crate::programs::programs_of;
use crew_resume::Givens;
use deftable::Bytes;
use run_fingerprint::{ProgramAt, RunInputs, fingerprint_of};
use std::alloc::{AllocError, Global};
use std::env::Env;
use std::rt::Files;

/// The most bytes of the path of the current directory.
const MOST: usize = 4_096;

/// Returns the path of the current directory, if it is known.
fn directory_here<R: Env>(alloc: Global, rt: &R) -> Result<Option<Bytes>, AllocError> {
    let mut room = [0u8; MOST];
    match rt.current_dir(&mut room) {
        Ok(length) => {
            let path = Bytes::from_slice(alloc, &room[..length])?;
            Ok(Some(path))
        }
        Err(_) => Ok(None),
    }
}

/// What is found of a run, besides what it is given.
#[derive(Drop)]
struct Facts {
    directory: Bytes,
    mask: u32,
    programs: Vec<ProgramAt>,
}

/// Returns what is found of a run here, if the system says it.
fn facts_of<R: Files + Env>(
    alloc: Global,
    rt: &R,
    givens: &Givens<'_>,
) -> Result<Option<Facts>, AllocError> {
    let Some(directory) = directory_here(alloc, rt)? else {
        return Ok(None);
    };
    let Some(mask) = mask_here(alloc, rt) else {
        return Ok(None);
    };
    let programs = programs_of(alloc, rt, givens)?;
    Ok(Some(Facts {
        directory,
        mask,
        programs,
    }))
}

/// Returns the fingerprint of a run with these givens in the current directory, by a program of this
/// version, or `None` if the system doesn't say what it rests on (own). Of the environment also
/// ACRUN_AFRESH doesn't count.
///
/// # Errors
///
/// Fails only if memory runs out.
pub fn fingerprint_here<R: Files + Env>(
    alloc: Global,
    rt: &R,
    version: &[u8],
    givens: &Givens<'_>,
) -> Result<Option<[u8; 32]>, AllocError>
    // It is that of what the run is given, and of a directory, a mask and programs.
    ensures { IfOk result (λ found. IfSome found (λ digest.
        (directory : List ℕ) × (mask : ℕ) × (programs : List ProgramAt)
        × (digest ≡ sha256 (run_text (record {
          version = version.now;
          source = givens.now.source.now;
          arguments = givens.now.arguments.now;
          environment = counted (entries givens.now.environment.now);
          directory = directory;
          mask = mask;
          cache = option_map (λ t. t.now) givens.now.cache;
          programs = programs;
        }))))) }
{
    let environment = entries_of(alloc, givens.environment)?;
    let Some(facts) = facts_of(alloc, rt, givens)? else {
        return Ok(None);
    };
    Ok(Some(fingerprint_of(&RunInputs {
        version,
        source: givens.source,
        arguments: givens.arguments,
        environment: environment.as_slice(),
        directory: facts.directory.as_slice(),
        mask: facts.mask,
        cache: givens.cache,
        programs: facts.programs.as_slice(),
    })))
}
