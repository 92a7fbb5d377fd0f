//! making: records of runs, and the files and headers that are made of them.

use crate::of_deftable::text_of;
use deftable::{Bytes, Defs, SubstList, Texts, Vars, is_shell_name};
use output_make::{add_outputs, find_missing, find_unknown, make_file, make_outputs, record_of};
use output_put::{Artifact, Artifacts, Kind};
use status_record::{Output, OutputList, Record};
use std::alloc::{AllocError, Global};
use test_rows::{Page, RowCall, cut};

/// Adds an item to a list.
fn add<T: Drop>(page: &mut Page, list: &mut Vec<T>, item: T) {
    if list.push(item).is_err() {
        page.cut();
    }
}

fn texts_of(page: &mut Page, list: &[u8]) -> Vec<Bytes> {
    let mut texts = Vec::new(page.alloc());
    for piece in list.split(|byte| *byte == b';') {
        if !piece.is_empty() {
            let text = text_of(page, piece);
            add(page, &mut texts, text);
        }
    }
    texts
}

fn template_of(page: &mut Page, piece: &[u8]) -> (Bytes, Bytes) {
    let (name, text) = cut(piece, b" ");
    let name = text_of(page, name);
    let text = text_of(page, text);
    (name, text)
}

fn templates_of(page: &mut Page, list: &[u8]) -> Vec<(Bytes, Bytes)> {
    let mut templates = Vec::new(page.alloc());
    for piece in list.split(|byte| *byte == b';') {
        if !piece.is_empty() {
            let template = template_of(page, piece);
            add(page, &mut templates, template);
        }
    }
    templates
}

fn output_of(page: &mut Page, names: &[u8]) -> Output {
    let (name, template) = cut(names, b" ");
    let name = text_of(page, name);
    let template = text_of(page, template);
    Output { name, template }
}

/// Returns the outputs of this kind.
fn outputs_of(page: &mut Page, list: &[u8], kind: &[u8]) -> OutputList {
    let mut outputs = OutputList::new(page.alloc());
    for piece in list.split(|byte| *byte == b';') {
        let (first, names) = cut(piece, b" ");
        if first == kind {
            let output = output_of(page, names);
            page.given(outputs.push(output));
        }
    }
    outputs
}

fn vars_of(page: &mut Page, list: &[u8]) -> Vars {
    let mut vars = Vars::new(page.alloc());
    for piece in list.split(|byte| *byte == b';') {
        let (name, value) = cut(piece, b"=");
        if !name.is_empty() {
            page.given(vars.set(name, value));
        }
    }
    vars
}

fn own_names(page: &mut Page) -> SubstList {
    let mut names = SubstList::new(page.alloc());
    page.given(names.add(b"V"));
    page.given(names.add(b"CC"));
    page.given(names.add(b"srcdir"));
    names
}

fn own_defs(page: &mut Page) -> Defs {
    let mut defs = Defs::new(page.alloc());
    page.given(defs.define(b"X", b"1"));
    defs
}

fn own_args(page: &mut Page) -> Texts {
    let mut args = Texts::new(page.alloc());
    page.given(args.push(b"-C"));
    page.given(args.push(b"x y"));
    args
}

/// What a record has of a source.
#[derive(Clone, Copy)]
struct Own<'a> {
    vars: &'a Vars,
    names: &'a SubstList,
    defs: &'a Defs,
    args: &'a Texts,
}

/// Returns the record of these files and headers.
fn record_of_lists(
    alloc: Global,
    own: &Own<'_>,
    files: &OutputList,
    headers: &OutputList,
) -> Result<Record, AllocError> {
    let defs = own.defs.copy(alloc)?;
    record_of(
        alloc, own.vars, defs, own.names, b"../s", own.args, files, headers,
    )
}

fn record_with(page: &mut Page, own: &Own<'_>, outputs: &[u8]) -> Option<Record> {
    let files = outputs_of(page, outputs, b"file");
    let headers = outputs_of(page, outputs, b"header");
    let made = record_of_lists(page.alloc(), own, &files, &headers);
    page.given(made)
}

fn record_given(page: &mut Page, vars: &[u8], outputs: &[u8]) -> Option<Record> {
    let vars = vars_of(page, vars);
    let names = own_names(page);
    let defs = own_defs(page);
    let args = own_args(page);
    let own = Own {
        vars: &vars,
        names: &names,
        defs: &defs,
        args: &args,
    };
    record_with(page, &own, outputs)
}

/// Adds a name, if it is one.
fn add_name(page: &mut Page, names: &mut SubstList, name: &[u8]) {
    if is_shell_name(name) {
        page.given(names.add(name));
    }
}

/// Adds the name of this number.
fn add_numbered(page: &mut Page, names: &mut SubstList, number: usize) {
    let mut name = Page::new(page.alloc());
    name.put(b"V");
    name.put_number(number);
    add_name(page, names, name.text());
}

/// Returns 10,000 names.
fn many_names(page: &mut Page) -> SubstList {
    let mut names = SubstList::new(page.alloc());
    for number in 0..10_000 {
        add_numbered(page, &mut names, number);
    }
    names
}

/// Returns definitions of these names.
fn defs_of(page: &mut Page, names: &SubstList) -> Defs {
    let mut defs = Defs::new(page.alloc());
    for name in names.names() {
        if is_shell_name(name.as_slice()) {
            page.given(defs.define(name.as_slice(), b"1"));
        }
    }
    defs
}

fn record_of_many(page: &mut Page) -> Option<Record> {
    let names = many_names(page);
    let defs = defs_of(page, &names);
    let vars = Vars::new(page.alloc());
    let args = Texts::new(page.alloc());
    let own = Own {
        vars: &vars,
        names: &names,
        defs: &defs,
        args: &args,
    };
    record_with(page, &own, b"")
}

fn put_many(page: &mut Page) {
    if let Some(record) = record_of_many(page) {
        page.put_number(record.vars.len());
        page.put(b" ");
        page.put_number(record.defs.len());
    }
}

fn put_defs(page: &mut Page, defs: &Defs) {
    for i in 0..defs.len() {
        let (name, value) = defs.at(i);
        page.put(name);
        page.put_text(value);
    }
}

fn put_outputs(page: &mut Page, outputs: &OutputList) {
    for output in outputs.as_slice() {
        page.put(output.name.as_slice());
        page.put_text(output.template.as_slice());
    }
}

fn put_args(page: &mut Page, args: &Texts) {
    for arg in args.as_slice() {
        page.put_text(arg.as_slice());
    }
}

fn put_record(page: &mut Page, record: &Record) {
    put_defs(page, &record.vars);
    page.put(b";");
    page.put(record.srcdir.as_slice());
    if let Some(args) = &record.args {
        put_args(page, args);
    }
    page.put(b";");
    put_defs(page, &record.defs);
    page.put(b";");
    put_outputs(page, &record.files);
    page.put(b";");
    put_outputs(page, &record.headers);
}

fn put_kind(page: &mut Page, kind: Kind) {
    match kind {
        Kind::File => page.put(b"file "),
        Kind::Header => page.put(b"header "),
        _ => page.put(b"neither "),
    }
}

fn put_artifact(page: &mut Page, artifact: &Artifact) {
    put_kind(page, artifact.kind);
    page.put(artifact.name.as_slice());
    page.put_text(artifact.text.as_slice());
}

fn put_artifacts(page: &mut Page, artifacts: &[Artifact]) {
    for artifact in artifacts {
        put_artifact(page, artifact);
    }
}

/// Puts what is made twice in one list.
fn put_made_twice(page: &mut Page, record: &Record, templates: &[(Bytes, Bytes)], tags: &[Bytes]) {
    let alloc = page.alloc();
    let mut artifacts = Artifacts::new(alloc);
    page.given(add_outputs(alloc, &mut artifacts, record, templates, tags));
    page.given(add_outputs(alloc, &mut artifacts, record, templates, tags));
    put_artifacts(page, artifacts.as_slice());
}

fn put_made(page: &mut Page, made: Result<Artifacts, AllocError>) {
    if let Some(artifacts) = page.given(made) {
        put_artifacts(page, artifacts.as_slice());
    }
}

fn put_first_file(page: &mut Page, record: &Record, templates: &[(Bytes, Bytes)]) {
    if let Some(file) = record.files.as_slice().first() {
        let made = make_file(page.alloc(), record, templates, file);
        if let Some(artifact) = page.given(made) {
            put_artifact(page, &artifact);
        }
    }
}

fn put_output(page: &mut Page, kind: &[u8], output: &Output) {
    page.put(kind);
    page.put(output.name.as_slice());
    page.put_text(output.template.as_slice());
}

fn put_missing_of(
    page: &mut Page,
    kind: &[u8],
    outputs: &[Output],
    templates: &[(Bytes, Bytes)],
    tags: &[Bytes],
) {
    let found = find_missing(page.alloc(), templates, outputs, tags);
    match page.given(found) {
        Some(Some(output)) => put_output(page, kind, output),
        _ => page.put(b"none"),
    }
}

fn put_missing(page: &mut Page, record: &Record, templates: &[(Bytes, Bytes)], tags: &[Bytes]) {
    put_missing_of(page, b"file ", record.files.as_slice(), templates, tags);
    page.put(b";");
    put_missing_of(page, b"header ", record.headers.as_slice(), templates, tags);
}

fn put_unknown(page: &mut Page, record: &Record, tags: &[Bytes]) {
    match find_unknown(record, tags) {
        Some(index) => page.put_number(index),
        None => page.put(b"none"),
    }
}

fn put_call(
    page: &mut Page,
    call: &[u8],
    record: &Record,
    templates: &[(Bytes, Bytes)],
    tags: &[Bytes],
) {
    let alloc = page.alloc();
    match call {
        [b'r', ..] => put_record(page, record),
        [b'a', ..] => put_made_twice(page, record, templates, tags),
        [b'f', ..] => put_first_file(page, record, templates),
        [b'u', ..] => put_unknown(page, record, tags),
        [b'm', b'i', ..] => put_missing(page, record, templates, tags),
        _ => put_made(page, make_outputs(alloc, record, templates, tags)),
    }
}

fn put_with_tags(
    page: &mut Page,
    call: &[u8],
    record: &Record,
    templates: &[(Bytes, Bytes)],
    tags: &[u8],
) {
    let tags = texts_of(page, tags);
    put_call(page, call, record, templates, tags.as_slice());
}

fn put_with_templates(
    page: &mut Page,
    call: &[u8],
    record: &Record,
    templates: &[u8],
    tags: &[u8],
) {
    let templates = templates_of(page, templates);
    put_with_tags(page, call, record, templates.as_slice(), tags);
}

pub struct Making;

impl RowCall for Making {
    fn put(&self, page: &mut Page, given: &[u8]) {
        let (call, rest) = cut(given, b" ");
        if call == b"many".as_slice() {
            return put_many(page);
        }
        let (vars, rest) = cut(rest, b"|");
        let (outputs, rest) = cut(rest, b"|");
        let (templates, tags) = cut(rest, b"|");
        if let Some(record) = record_given(page, vars, outputs) {
            put_with_templates(page, call, &record, templates, tags);
        }
    }
}
