//! The program of the tools: `tools_runner`, called with the arguments and the environment.
//!
//! `acrun` starts it for the commands that explain or rewrite a source. The gate runs it with the
//! words in `args` on the files in `data`.
#![tactic(auto)]

use std::alloc::AllocError;
use std::process::ExitCode;
use tools_runner::{Heard, ProcessTexts, VERSION, command, environment, tell_memory, words};

/// Runs the command that the program's arguments name, and returns its exit status.
fn run(rt: HostRuntime) -> Result<u8, AllocError> {
    let given = ProcessTexts::new(&rt);
    let words = words(rt.alloc(), &given)?;
    let env = environment(rt.alloc(), &given)?;
    Ok(command(rt, rt.alloc(), VERSION, words.as_slice(), env.as_slice()))
}

/// Ends the process with the exit status of the command. If memory runs out before the command is
/// known, the status is 2.
fn main(rt: HostRuntime) -> ExitCode {
    let status = match run(rt) {
        Ok(status) => status,
        Err(_) => tell_memory(&mut Heard::new(rt.stderr())),
    };
    ExitCode::from(status)
}
