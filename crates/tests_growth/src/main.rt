//! Runs and records over memory, for growths of memory that are refused.
//!
//! The program makes the calls of `rows`, one after the other: of `configure` and `remake` over a
//! crew and a receiver in memory, and of `read_record` and `write_record`. Each answer is compared
//! with what is right, and the comparison takes no memory. A right answer is the whole of what the
//! call does with ample memory, or that memory ran out with nothing handed over and no child in
//! flight, or that a put was refused, with the artifacts before it handed over, each whole.
//!
//! The program ends at the first call that has no whole answer. Its exit status is then 3 if memory
//! ran out, 4 if a put was refused for it, and 2 if the call was not made, since memory ran out
//! before. It prints the name of a call whose answer isn't right. It prints nothing else.
//! `tools/refuse_each.py` refuses each growth in turn.
//!
//! Read `answers` first, then `runs` and `records`, and then `rows`.
#![tactic(auto)]

mod answers;
mod given;
mod records;
mod rows;
mod runs;
mod wanted;

use answers::Verdict;
use records::{found_of_record, found_of_remake};
use rows::{
    CACHED_RUN, HEADER_RUN, LIST_RUN, OUTPUTS_RUN, RECORD, REMAKE, UNKNOWN_TAG, VALUE_OF_A,
    WIDE_RUN,
};
use runs::{Run, found_of_run};
use std::alloc::Global;
use std::process::ExitCode;

const RUNS: [(&str, Run); 5] = [
    ("header", HEADER_RUN),
    ("cached", CACHED_RUN),
    ("list", LIST_RUN),
    ("wide", WIDE_RUN),
    ("outputs", OUTPUTS_RUN),
];

/// Returns the name of the first run that has no whole answer, and what is found of it.
fn first_run(alloc: Global) -> Option<(&'static str, Verdict)> {
    for (name, run) in &RUNS {
        let found = found_of_run(alloc, run);
        if found != Verdict::Whole {
            return Some((*name, found));
        }
    }
    None
}

/// Returns the same of the records.
fn first_record(alloc: Global) -> Option<(&'static str, Verdict)> {
    let found = [
        ("remake", found_of_remake(alloc, &REMAKE)),
        ("tag", found_of_remake(alloc, &UNKNOWN_TAG)),
        ("record", found_of_record(alloc, RECORD, VALUE_OF_A)),
    ];
    for (name, found) in found {
        if found != Verdict::Whole {
            return Some((name, found));
        }
    }
    None
}

fn first(alloc: Global) -> Option<(&'static str, Verdict)> {
    match first_run(alloc) {
        Some(found) => Some(found),
        None => first_record(alloc),
    }
}

fn main(rt: HostRuntime) -> ExitCode {
    let status = match first(rt.alloc()) {
        None | Some((_, Verdict::Whole)) => 0,
        Some((_, Verdict::OutOfMemory)) => 3,
        Some((_, Verdict::PutRefused)) => 4,
        Some((_, Verdict::NotCalled)) => 2,
        Some((name, Verdict::Wrong)) => {
            let _ = println!(rt; "{name}");
            0
        }
    };
    ExitCode::from(status)
}
