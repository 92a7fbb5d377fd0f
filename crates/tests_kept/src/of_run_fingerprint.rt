//! Fingerprints of runs that differ in one thing.

use deftable::{Bytes, Texts};
use run_fingerprint::{ProgramAt, RunInputs, fingerprint_of};
use std::alloc::{AllocError, Global};
use std::test::Fail;

/// Returns a list of these texts.
fn texts(alloc: Global, these: &[&[u8]]) -> Result<Texts, AllocError> {
    let mut list = Texts::new(alloc);
    for text in these {
        list.push(*text)?;
    }
    Ok(list)
}

/// Returns a program.
fn program(alloc: Global, inode: u64) -> Result<ProgramAt, AllocError> {
    Ok(ProgramAt {
        path: Bytes::from_slice(alloc, b"/bin/cc")?,
        size: 1,
        changed: 2,
        inode,
    })
}

/// Returns the fingerprint of a run with these arguments, variables, cache and program.
fn fingerprint(
    alloc: Global,
    arguments: &[&[u8]],
    environment: &[&[u8]],
    cache: Option<&[u8]>,
    inode: u64,
) -> Result<[u8; 32], AllocError> {
    let arguments = texts(alloc, arguments)?;
    let environment = texts(alloc, environment)?;
    let mut programs = Vec::new(alloc);
    programs.push(program(alloc, inode)?)?;
    Ok(fingerprint_of(&RunInputs {
        version: b"0.1.0",
        source: b"AC_INIT([a], [1])\nAC_OUTPUT\n",
        arguments: arguments.as_slice(),
        environment: environment.as_slice(),
        directory: b"/b",
        mask: 0o022,
        cache,
        programs: programs.as_slice(),
    }))
}

#[test]
fn a_run_that_differs_has_another_fingerprint(rt: HostRuntime) -> Result<(), Fail> {
    let alloc = rt.alloc();
    let usual = fingerprint(alloc, &[b"-C", b"a"], &[b"CC=gcc", b"_=x"], Some(b""), 3)?;
    // The last command of a shell doesn't count.
    let same = fingerprint(alloc, &[b"-C", b"a"], &[b"_=y", b"CC=gcc"], Some(b""), 3)?;
    assert!(rt; usual == same);
    let joined = fingerprint(alloc, &[b"-Ca"], &[b"CC=gcc"], Some(b""), 3)?;
    assert!(rt; usual != joined);
    let moved = fingerprint(alloc, &[b"-C"], &[b"a", b"CC=gcc"], Some(b""), 3)?;
    assert!(rt; usual != moved);
    let uncached = fingerprint(alloc, &[b"-C", b"a"], &[b"CC=gcc"], None, 3)?;
    assert!(rt; usual != uncached);
    let replaced = fingerprint(alloc, &[b"-C", b"a"], &[b"CC=gcc"], Some(b""), 4)?;
    assert!(rt; usual != replaced);
    Ok(())
}
