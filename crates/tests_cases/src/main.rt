//! Cases in files: what is to be read of a source, and what a run of it is to give.
//!
//! The arguments are names of files. `report` goes through the cases of a file. The crate
//! `test_answers` has what the engine makes of what a case gives, and `steps` has the cases over
//! files, rows of calls among them (`rows`). A case differs if that is not what the file says.
//! `data/README` says how to add a case.
//!
//! It prints a line for each file, before it what was wanted and found of each case that differs,
//! and exits with status 1 if one does. If the first argument is `standin`, it is the stand-in for
//! a compiler instead, as a child of a case is.
#![tactic(auto)]

mod calling;
mod report;
mod rows;
mod stand_ins;
mod steps;

use report::{Report, check_file};
use stand_ins::played;
use std::io::{self, Write};
use std::process::ExitCode;
use std::{env, fs};

/// Checks the cases of the file of this name.
fn check(rt: &HostRuntime, name: &str) -> io::Result<Report> {
    let text = fs::read(rt, name)?;
    Ok(check_file(rt, name.as_bytes(), text.as_slice())?)
}

fn main(rt: HostRuntime) -> io::Result<ExitCode> {
    if let Some(status) = played(&rt) {
        return Ok(ExitCode::from(status));
    }
    let mut output = io::writer(&rt);
    let mut all_right = true;
    for name in env::args(&rt)?.skip(1) {
        let found = check(&rt, name.as_str())?;
        output.write_all(found.page.text())?;
        all_right &= found.is_right;
    }
    Ok(ExitCode::from(u8::from(!all_right)))
}
