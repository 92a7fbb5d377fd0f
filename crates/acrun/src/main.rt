//! The program: `runner`, called with the arguments, the environment, a crew of real children, and
//! what starts the program of the tools beside it.
//!
//! If standard error is a terminal, or ACRUN_PROGRESS asks for lines, the crew shows its children
//! there. With a cache, a run goes on from the answers of one that was interrupted, and keeps its own
//! in a file until it ends. The log of an earlier run is removed before the first child is started, so that a run
//! that is interrupted leaves none that looks like its own.
//!
//! The gate runs it with the words in `args` on the files in `data`: a whole run of a configure.ac
//! over real children, with an environment, a cache, a file and a header that has its text already.
#![tactic(auto)]

use crew::ReadyCrew;
use crew_progress::Watched;
use patient_writer::Patient;
use run_answers::Resumed;
use runner::{
    FilterFault, Heard, LOG, ProcessTexts, VERSION, command, environment, showing_of, tell, words,
};
use std::alloc::AllocError;
use std::io::IsTerminal;
use std::process::ExitCode;
use tool_start::Neighbour;

/// Runs the command that the program's arguments name, and returns its exit status.
fn run(rt: HostRuntime) -> Result<u8, AllocError> {
    let given = ProcessTexts::new(&rt);
    let words = words(rt.alloc(), &given)?;
    let env = environment(rt.alloc(), &given)?;
    let errors = rt.stderr();
    let is_terminal = errors.is_terminal();
    let showing = showing_of(words.as_slice(), env.as_slice(), is_terminal);
    let children = ReadyCrew::removing(rt, rt.alloc(), LOG)?;
    let watched = Watched::new(children, Heard::new(Patient::new(errors, &rt)), showing);
    let said = Heard::new(Patient::new(rt.stderr(), &rt));
    let mut crew = Resumed::new(rt.alloc(), &rt, watched, said, VERSION);
    let mut tools = Neighbour::new(rt, rt.alloc(), VERSION);
    let status = command(
        rt,
        rt.alloc(),
        words.as_slice(),
        env.as_slice(),
        &mut crew,
        &mut tools,
    );
    crew.end();
    Ok(status)
}

/// Ends the process with the exit status of the command. If memory runs out before the command is
/// known, the status is 2.
fn main(rt: HostRuntime) -> ExitCode {
    let status = match run(rt) {
        Ok(status) => status,
        Err(_) => tell(&mut Heard::new(rt.stderr()), &FilterFault::OutOfMemory),
    };
    ExitCode::from(status)
}
