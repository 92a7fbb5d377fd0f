//! The programs that a run is likely to start.

use crew_resume::Givens;
use deftable::Bytes;
use run_fingerprint::ProgramAt;
use std::alloc::{AllocError, Global};
use std::fs::{self, Metadata};
use std::os::unix::fs::MetadataExt;
use std::rt::Files;
use std::str;

/// The variables that name a compiler or a preprocessor.
const VARIABLES: [&[u8]; 2] = [b"CC", b"CPP"];

/// The compilers and preprocessors that are looked for if nothing names one.
const USUAL: [&[u8]; 4] = [b"gcc", b"cc", b"clang", b"cpp"];

/// Returns the value that a word gives a variable, if it is of this one.
fn value_of<'a>(word: &'a [u8], name: &[u8]) -> Option<&'a [u8]> {
    word.strip_prefix(name)?.strip_prefix(b"=")
}

/// Returns the value that the arguments give a variable, or else the environment.
fn value_in<'a>(givens: &Givens<'a>, name: &[u8]) -> &'a [u8] {
    let mut value = b"".as_slice();
    for (other, given) in givens.environment {
        if other.as_slice() == name {
            value = given.as_slice();
        }
    }
    for word in givens.arguments {
        if let Some(given) = value_of(word.as_slice(), name) {
            value = given;
        }
    }
    value
}

/// Returns the first word of a command.
fn first_word(command: &[u8]) -> &[u8] {
    for word in command.split(|byte| *byte == b' ' || *byte == b'\t' || *byte == b'\n') {
        if !word.is_empty() {
            return word;
        }
    }
    b""
}

/// Returns the nanoseconds since 1970 at which a file was last changed.
fn changed(found: &Metadata) -> u64 {
    let seconds = found.mtime().cast_unsigned().wrapping_mul(1_000_000_000);
    seconds.wrapping_add(found.mtime_nsec().cast_unsigned())
}

/// Returns the program at a path, if there is one that can be executed.
fn program_at<F: Files>(
    alloc: Global,
    files: &F,
    path: &[u8],
) -> Result<Option<ProgramAt>, AllocError> {
    let Ok(name) = str::from_utf8(path) else {
        return Ok(None);
    };
    match fs::metadata(files, name) {
        Ok(found) if found.is_file() && found.mode() & 0o111 != 0 => Ok(Some(ProgramAt {
            path: Bytes::from_slice(alloc, path)?,
            size: found.size(),
            changed: changed(&found),
            inode: found.ino(),
        })),
        _ => Ok(None),
    }
}

/// Returns the path of a name in a directory of PATH. An empty one is the current directory.
fn path_in(alloc: Global, directory: &[u8], name: &[u8]) -> Result<Vec<u8>, AllocError> {
    let mut path = Vec::from_slice(alloc, directory)?;
    if !directory.is_empty() {
        path.push(b'/')?;
    }
    path.extend_from_slice(name)?;
    Ok(path)
}

/// Returns the program that a name is of, by these directories.
fn found_program<F: Files>(
    alloc: Global,
    files: &F,
    directories: &[u8],
    name: &[u8],
) -> Result<Option<ProgramAt>, AllocError> {
    if name.contains(&b'/') {
        return program_at(alloc, files, name);
    }
    for directory in directories.split(|byte| *byte == b':') {
        let path = path_in(alloc, directory, name)?;
        if let Some(program) = program_at(alloc, files, path.as_slice())? {
            return Ok(Some(program));
        }
    }
    Ok(None)
}

/// Adds the program that a name is of, if there is one.
fn add_program<F: Files>(
    alloc: Global,
    files: &F,
    directories: &[u8],
    name: &[u8],
    programs: &mut Vec<ProgramAt>,
) -> Result<(), AllocError> {
    if name.is_empty() {
        return Ok(());
    }
    if let Some(program) = found_program(alloc, files, directories, name)? {
        programs.push(program)?;
    }
    Ok(())
}

/// Returns the programs that a run is likely to start as its compiler and its preprocessor: those
/// that CC and CPP name, and the usual ones, as far as PATH has them (own).
pub(crate) fn programs_of<F: Files>(
    alloc: Global,
    files: &F,
    givens: &Givens<'_>,
) -> Result<Vec<ProgramAt>, AllocError> {
    let directories = value_in(givens, b"PATH");
    let mut programs = Vec::new(alloc);
    for variable in &VARIABLES {
        let name = first_word(value_in(givens, variable));
        add_program(alloc, files, directories, name, &mut programs)?;
    }
    for name in &USUAL {
        add_program(alloc, files, directories, name, &mut programs)?;
    }
    Ok(programs)
}
