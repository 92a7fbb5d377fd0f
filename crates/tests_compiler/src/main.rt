//! Conftests for a real compiler, as the crate `conftest` makes them.
//!
//! Without an argument it lists samples: a name, whether its conftest is compiled, linked, or
//! linked and run, and whether that succeeds. With a compiler and the name of a sample it writes
//! the sample's job: a line with the words of the command, and then the text of the conftest.
//! `examples/conftest_samples/run.sh` does what all these jobs say.
#![tactic(auto)]

use conftest::{Job, JobFault, compile_job, link_job};
use conftest_source::{default_includes, function_source, header_source, program_source};
use deftable::{Bytes, Defs, Vars, is_shell_name};
use std::alloc::{AllocError, Global};
use std::env;
use std::io::{self, Write};
use std::process::ExitCode;
use test_forms::{Snippet, TestForm, declaration_form, type_form};

/// How many definitions the sample with many of them has.
const DEFINITIONS: u32 = 2000;

/// What a conftest tests.
#[derive(Clone, Copy)]
enum Test {
    Header,
    Function,
    Declaration,
    Type,
    SecondType,
    Program,
}

/// A sample: the name, what is done with the conftest, whether that succeeds, the test, its
/// includes if they are not the default ones, and what is tested.
type Sample<'a> = (&'a str, &'a str, &'a str, Test, Option<&'a [u8]>, &'a [u8]);

#[rattlefmt::skip]
const SAMPLES: &[Sample] = &[
    ("header", "compile", "yes", Test::Header, None, b"sys/stat.h"),
    ("header-missing", "compile", "no", Test::Header, None, b"no/such/header.h"),
    ("header-given", "compile", "yes", Test::Header, Some(b"#include <sys/types.h>"), b"sys/stat.h"),
    ("header-broken", "compile", "no", Test::Header, Some(b"int int;"), b"sys/stat.h"),
    ("function", "link", "yes", Test::Function, None, b"getpid"),
    ("function-missing", "link", "no", Test::Function, None, b"no_such_function"),
    ("function-exit", "link", "yes", Test::Function, None, b"exit"),
    ("function-printf", "link", "yes", Test::Function, None, b"printf"),
    ("declaration", "compile", "yes", Test::Declaration, None, b"strlen"),
    ("declaration-macro", "compile", "yes", Test::Declaration, None, b"offsetof"),
    ("declaration-missing", "compile", "no", Test::Declaration, None, b"no_such_name"),
    ("type", "compile", "yes", Test::Type, None, b"size_t"),
    ("type-again", "compile", "no", Test::SecondType, None, b"size_t"),
    ("pointer", "compile", "yes", Test::Type, None, b"char *"),
    ("pointer-again", "compile", "no", Test::SecondType, None, b"char *"),
    ("value", "compile", "yes", Test::Type, None, b"stdout"),
    ("value-again", "compile", "yes", Test::SecondType, None, b"stdout"),
    ("type-missing", "compile", "no", Test::Type, None, b"no_such_type"),
    ("type-given", "compile", "yes", Test::Type, Some(GIVEN), b"struct stat"),
    ("type-given-again", "compile", "no", Test::SecondType, Some(GIVEN), b"struct stat"),
    ("type-not-given", "compile", "no", Test::Type, Some(b""), b"struct stat"),
    ("type-of-words", "compile", "yes", Test::Type, None, b"unsigned long int * const *"),
    ("type-of-words-again", "compile", "no", Test::SecondType, None, b"unsigned long int * const *"),
    ("program", "run", "yes", Test::Program, None, b""),
    ("definitions", "run", "yes", Test::Program, None, LAST_DEFINITION),
    ("definitions-missing", "compile", "no", Test::Program, None, LAST_DEFINITION),
];

/// Includes that a macro gives.
const GIVEN: &[u8] = b"#include <sys/types.h>\n#include <sys/stat.h>\n";

/// The source of a try of this form that has a body: no text if it has none.
fn tried(
    alloc: Global,
    form: TestForm,
    place: usize,
    includes: &[u8],
) -> Result<Bytes, AllocError> {
    let Some(found) = form.try_at(alloc, place)? else {
        return Ok(Bytes::new(alloc));
    };
    match &found.snippet {
        Snippet::Body { text } => program_source(alloc, includes, text.as_slice()),
        _ => Ok(Bytes::new(alloc)),
    }
}

/// The source of a sample.
fn source_of(alloc: Global, sample: &Sample) -> Result<Bytes, AllocError> {
    let (_, _, _, test, includes, tested) = *sample;
    let includes = includes.unwrap_or(default_includes());
    match test {
        Test::Header => header_source(alloc, includes, tested),
        Test::Function => function_source(alloc, tested),
        Test::Declaration => tried(alloc, declaration_form(alloc, tested, false)?, 0, includes),
        Test::Type => tried(alloc, type_form(alloc, tested, false)?, 0, includes),
        Test::SecondType => tried(alloc, type_form(alloc, tested, false)?, 1, includes),
        Test::Program => program_source(alloc, b"", tested),
    }
}

/// A body that wants the last of many definitions, and one that holds quotes.
const LAST_DEFINITION: &[u8] =
    b"char quoted[sizeof (PACKAGE_STRING) == 9 ? 1 : -1]; return NAME_1999 - 1999 + sizeof quoted - 1;";

/// The definitions of a sample: none, or many.
fn definitions_of(alloc: Global, name: &str) -> Result<Defs, AllocError> {
    let mut defs = Defs::new(alloc);
    if name != "definitions" {
        return Ok(defs);
    }
    defs.define(b"PACKAGE_STRING", b"\"demo \\\"1\\\"\"")?;
    defs.define(b"EMPTY", b"/**/")?;
    for i in 0..DEFINITIONS {
        let value = format!(in alloc; "{i}")?;
        define_numbered(alloc, &mut defs, value.as_bytes())?;
    }
    Ok(defs)
}

/// Defines `NAME_` with a number after it as that number.
fn define_numbered(alloc: Global, defs: &mut Defs, value: &[u8]) -> Result<(), AllocError> {
    let mut name = Vec::from_slice(alloc, b"NAME_")?;
    name.extend_from_slice(value)?;
    if is_shell_name(name.as_slice()) {
        defs.define(name.as_slice(), value)?;
    }
    Ok(())
}

/// The job of a sample.
fn job_of(alloc: Global, compiler: &str, sample: &Sample) -> Result<Job, JobFault> {
    let source = source_of(alloc, sample)?;
    let defs = definitions_of(alloc, sample.0)?;
    let mut vars = Vars::new(alloc);
    vars.set(b"CC", compiler.as_bytes())?;
    if sample.1 == "compile" {
        compile_job(alloc, &vars, &defs, source.as_slice(), 0)
    } else {
        link_job(alloc, &vars, &defs, source.as_slice(), 0)
    }
}

/// The job of the sample of this name: none if there is no such sample, or memory runs out.
fn job_named(alloc: Global, compiler: &str, name: &str) -> Option<Job> {
    for sample in SAMPLES {
        if sample.0 == name {
            return job_of(alloc, compiler, sample).ok();
        }
    }
    None
}

/// Writes the list of samples.
fn list<W: Write>(output: &mut W) -> io::Result<()> {
    for (name, how, passes, ..) in SAMPLES {
        writeln!(output, "{name} {how} {passes}")?;
    }
    Ok(())
}

/// Writes the words of a job, with blanks between them, and the text of its conftest.
fn write_job<W: Write>(output: &mut W, job: &Job) -> io::Result<()> {
    for word in job.words.as_slice() {
        output.write_all(word.as_slice())?;
        output.write_all(b" ")?;
    }
    output.write_all(b"\n")?;
    if let Some((_, text)) = &job.file {
        output.write_all(text.as_slice())?;
    }
    Ok(())
}

fn main(rt: HostRuntime) -> io::Result<ExitCode> {
    let mut output = io::writer(&rt);
    let mut args = env::args(&rt)?.skip(1);
    let Some(compiler) = args.next() else {
        list(&mut output)?;
        return Ok(ExitCode::from(0));
    };
    let Some(name) = args.next() else {
        return Ok(ExitCode::from(2));
    };
    match job_named(rt.alloc(), compiler.as_str(), name.as_str()) {
        Some(job) => {
            write_job(&mut output, &job)?;
            Ok(ExitCode::from(0))
        }
        None => Ok(ExitCode::from(2)),
    }
}
