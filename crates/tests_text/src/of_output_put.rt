//! outputs: artifacts that are put to a receiver in memory.

use output_put::{Artifact, Artifacts, Kind, MemoryOutputs, Outputs, put_all};
use std::alloc::{AllocError, Global};
use test_rows::{Page, RowCall, cut};

fn kind_of(name: &[u8]) -> Kind {
    match name {
        [b'c', ..] => Kind::Cache,
        [b'r', ..] => Kind::Record,
        [b'h', ..] => Kind::Header,
        _ => Kind::File,
    }
}

fn put_kind(page: &mut Page, kind: Kind) {
    match kind {
        Kind::Cache => page.put(b"cache "),
        Kind::Record => page.put(b"record "),
        Kind::File => page.put(b"file "),
        Kind::Header => page.put(b"header "),
    }
}

fn artifact_of(alloc: Global, text: &[u8]) -> Result<Artifact, AllocError> {
    let (kind, rest) = cut(text, b" ");
    let (name, text) = cut(rest, b" ");
    Artifact::from_slices(alloc, kind_of(kind), name, text)
}

/// Adds an artifact to a list.
fn add_artifact(page: &mut Page, artifacts: &mut Artifacts, text: &[u8]) {
    let made = artifact_of(page.alloc(), text);
    if let Some(artifact) = page.given(made) {
        page.given(artifacts.push(artifact));
    }
}

fn artifacts_of(page: &mut Page, text: &[u8]) -> Artifacts {
    let mut artifacts = Artifacts::new(page.alloc());
    for piece in text.split(|byte| *byte == b';') {
        if !piece.is_empty() {
            add_artifact(page, &mut artifacts, piece);
        }
    }
    artifacts
}

fn number_of(text: &[u8]) -> u64 {
    match text {
        [digit] => u64::from(digit.saturating_sub(b'0')),
        _ => 0,
    }
}

fn put_handed(page: &mut Page, artifacts: &[Artifact]) {
    for artifact in artifacts {
        put_kind(page, artifact.kind);
        page.put(artifact.name.as_slice());
        page.put_text(artifact.text.as_slice());
    }
}

fn put_answer(page: &mut Page, answer: Result<(), u64>) {
    match answer {
        Ok(()) => page.put(b"done"),
        Err(number) => page.put_shown(&number),
    }
    page.put(b";");
}

fn put_all_once(page: &mut Page, refuse: u64, artifacts: &[Artifact]) {
    let mut outputs = MemoryOutputs::new(page.alloc(), refuse);
    put_answer(page, put_all(&mut outputs, artifacts));
    put_handed(page, outputs.handed());
}

fn put_all_twice(page: &mut Page, refuse: u64, artifacts: &[Artifact]) {
    let mut outputs = MemoryOutputs::new(page.alloc(), refuse);
    put_answer(page, put_all(&mut outputs, artifacts));
    put_answer(page, put_all(&mut outputs, artifacts));
    put_handed(page, outputs.handed());
}

fn put_one(page: &mut Page, refuse: u64, kind: Kind, name: &[u8], text: &[u8]) {
    let mut outputs = MemoryOutputs::new(page.alloc(), refuse);
    match outputs.put(kind, name, text) {
        Ok(()) => page.put(b"done"),
        Err(refused) => page.put_shown(&refused),
    }
    page.put(b";");
    put_handed(page, outputs.handed());
}

fn put_single(page: &mut Page, refuse: u64, text: &[u8]) {
    let (kind, rest) = cut(text, b" ");
    let (name, text) = cut(rest, b" ");
    put_one(page, refuse, kind_of(kind), name, text);
}

fn put_several(page: &mut Page, call: &[u8], refuse: u64, text: &[u8]) {
    let artifacts = artifacts_of(page, text);
    match call {
        [b'a', ..] => put_all_once(page, refuse, artifacts.as_slice()),
        _ => put_all_twice(page, refuse, artifacts.as_slice()),
    }
}

pub struct Puts;

impl RowCall for Puts {
    fn put(&self, page: &mut Page, given: &[u8]) {
        let (call, text) = cut(given, b" ");
        let (refuse, text) = cut(text, b"|");
        match call {
            [b'o', ..] => put_single(page, number_of(refuse), text),
            _ => put_several(page, call, number_of(refuse), text),
        }
    }
}
