//! Rows in files: tests of the crates that hold, cut and make texts, and hand them over, and of
//! those that read a source and a command line.
//!
//! They have what no clause says: an ordinary answer of each call, with ample memory; worked
//! examples, each answer found by hand from the rules; and printed text, as that of an error. Each
//! crate has a module, `of_` and its name, and a file of rows in `data/`; template, ac_args and
//! options have more of both. `told` has how answers are written, `rowfile` reads the files, and
//! `calls` has the call of each table. `data/README` says how to add a row. The crate `tests_cases`
//! has more sources and command lines.
//!
//! The arguments are names of files. It prints a line for each file, before it the rows that have
//! another answer, and exits with status 1 if one has.
#![tactic(auto)]

mod calls;
mod of_ac_args;
mod of_ac_args_entries;
mod of_ac_macros;
mod of_acparse;
mod of_cachefile;
mod of_cfglog;
mod of_conftest;
mod of_deftable;
mod of_lint_macros;
mod of_m4quote;
mod of_options;
mod of_options_precious;
mod of_output_make;
mod of_output_put;
mod of_shell_bare;
mod of_shellword;
mod of_status_record;
mod of_template;
mod of_template_headers;
mod of_template_pieces;
mod of_text_cut;
mod rowfile;
mod told;

use calls::{CALLS, LARGE};
use rowfile::put_file;
use std::io::{self, Write};
use std::process::ExitCode;
use std::{env, fs};
use test_rows::Page;

/// Puts what is found of the file of this name. Returns whether each row is as it should be.
fn try_file(page: &mut Page, rt: &HostRuntime, name: &str) -> bool {
    match &fs::read(rt, name) {
        Ok(text) => put_file(page, &CALLS, &LARGE, name.as_bytes(), text.as_slice()),
        Err(_) => {
            page.put(name.as_bytes());
            page.put(b" can't be read\n");
            false
        }
    }
}

/// Puts what is found of each file that an argument names. Returns whether all is as it should be.
fn try_files(page: &mut Page, rt: &HostRuntime) -> io::Result<bool> {
    let mut is_right = true;
    for name in env::args(rt)?.skip(1) {
        is_right &= try_file(page, rt, name.as_str());
    }
    Ok(is_right)
}

fn main(rt: HostRuntime) -> ExitCode {
    let mut page = Page::new(rt.alloc());
    let is_right = try_files(&mut page, &rt).unwrap_or(false) && !page.is_cut();
    let is_written = io::writer(&rt).write_all(page.text()).is_ok();
    ExitCode::from(u8::from(!is_right || !is_written))
}
