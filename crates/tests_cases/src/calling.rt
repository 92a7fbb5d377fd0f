//! Calls of the program over a crew.

ghost use Rattle.proberun.specs.Ran.{MayRun};

use cmd_standin::MeetingFiles;
use crew::{MemoryCrew, Order, ProcessCrew};
use crew_progress::{Showing, Watched};
use crew_refusals::{Cause, Causes};
use crew_resume::Resumes;
use crew_tally::Children;
use deftable::Bytes;
use file_disk::Host;
use file_texts::FileOutputs;
use runner::{Heard, Terminal, asks_why, command, run};
use std::alloc::Global;
use std::fs::File;
use std::io::{Read, Write};
use test_rows::Page;
use test_runs::given::{entries_of, replies_in};
use tool_start::Tools;

/// What a command is given besides its words.
#[derive(Clone, Copy)]
pub struct Around<'a> {
    /// An option for the number of children at once, or nothing.
    pub window: &'a [u8],
    /// The environment.
    pub env: &'a [u8],
    /// Standard input, of a command that is not run as `main` runs it.
    pub input: &'a [u8],
    /// If true, the crew starts real children.
    pub has_children: bool,
    /// The replies of the crew, if it starts none.
    pub replies: &'a [u8],
    /// If true, the youngest child ends first.
    pub is_youngest_first: bool,
    /// If true, nothing can be written to standard output.
    pub is_full: bool,
    /// If true, a command that is run as `main` runs it shows its progress.
    pub is_watched: bool,
}

/// Given nothing.
pub const NOTHING: Around<'static> = Around {
    window: b"",
    env: b"",
    input: b"",
    has_children: false,
    replies: b"",
    is_youngest_first: false,
    is_full: false,
    is_watched: false,
};

/// In place of the program of the tools: its status is the number of its words, and it can't be
/// started with fewer than two.
#[derive(Drop)]
struct Counting {
    alloc: Global,
}

impl Tools for Counting {
    fn start(&mut self, words: &[Bytes]) -> Result<u8, Cause> {
        match u8::try_from(words.len()) {
            Ok(count) if count > 1 => Ok(count),
            _ => Err(Cause::of_words(self.alloc, b"acrun-tools", b"too few words")),
        }
    }
}

/// Returns the exit status of the program over a crew. It promises nothing, so that its callers
/// don't see the long contract of the command.
pub fn status_over<C: Resumes + Causes, R: Read, W: Write, E: Write>(
    rt: &HostRuntime,
    words: &[Bytes],
    env: &[(Bytes, Bytes)],
    crew: &mut C,
    input: &mut R,
    output: &mut W,
    errors: &mut E,
) -> u8
    requires may_run { MayRun (C.account crew.old) }
{
    let mut terminal = Terminal {
        alloc: rt.alloc(),
        is_asked: asks_why(env),
        env,
        outputs: FileOutputs::new(rt.alloc(), Host::new(rt)),
        input,
        output: Heard::new(output),
        errors: Heard::new(errors),
    };
    run(
        &mut terminal,
        &mut MeetingFiles::new(rt),
        words,
        crew,
        &mut Counting { alloc: rt.alloc() },
    )
}

/// Returns the exit status of the whole program over a crew, on the streams of the process.
pub fn command_over<C: Resumes + Causes + Children>(
    rt: &HostRuntime,
    words: &[Bytes],
    env: &[(Bytes, Bytes)],
    crew: &mut C,
) -> u8
    requires may_run { MayRun (C.account crew.old) }
{
    match rt.clone() {
        Ok(own) => command(
            own,
            rt.alloc(),
            words,
            env,
            crew,
            &mut Counting { alloc: rt.alloc() },
        ),
        Err(_) => 2,
    }
}

/// Returns the order in which children end.
fn order_of(around: &Around<'_>) -> Order {
    if around.is_youngest_first {
        return Order::Youngest;
    }
    Order::Oldest
}

/// Returns the exit status of the program over a crew in memory.
fn status_in_memory<W: Write>(
    page: &mut Page,
    rt: &HostRuntime,
    words: &[Bytes],
    env: &[(Bytes, Bytes)],
    around: &Around<'_>,
    output: &mut W,
    errors: &mut Vec<u8>,
) -> u8 {
    let replies = replies_in(page, around.replies);
    match &mut MemoryCrew::new(page.alloc(), replies, order_of(around)) {
        Ok(crew) => {
            let mut input = around.input;
            status_over(rt, words, env, crew, &mut input, output, errors)
        }
        Err(_) => {
            page.cut();
            2
        }
    }
}

/// Puts the status of the whole program with these words, over a crew in memory, and its progress
/// on a page of its own. What it prints goes to the streams of the process.
pub fn put_command(
    page: &mut Page,
    progress: &mut Page,
    rt: &HostRuntime,
    around: &Around<'_>,
    words: &[Bytes],
) {
    let env = entries_of(page, around.env);
    let replies = replies_in(page, around.replies);
    match MemoryCrew::new(page.alloc(), replies, order_of(around)) {
        Ok(mut crew) => {
            if !around.is_watched {
                page.put_shown(&command_over(rt, words, env.as_slice(), &mut crew));
                return;
            }
            let mut crew = Watched::new(crew, Heard::new(Vec::new(page.alloc())), Showing::Line);
            page.put_shown(&command_over(rt, words, env.as_slice(), &mut crew));
            progress.put(crew.stream().stream().as_slice());
        }
        Err(_) => page.cut(),
    }
}

/// Returns the exit status of the program over real children, or 2 if there can be none.
pub fn status_of_children<R: Read, W: Write, E: Write>(
    rt: &HostRuntime,
    words: &[Bytes],
    env: &[(Bytes, Bytes)],
    input: &mut R,
    output: &mut W,
    errors: &mut E,
) -> u8 {
    let Ok(own) = rt.clone() else {
        return 2;
    };
    match &mut ProcessCrew::new(own, rt.alloc()) {
        Ok(crew) => status_over(rt, words, env, crew, input, output, errors),
        Err(_) => 2,
    }
}

/// Returns the exit status of the program with this output.
fn status_of<W: Write>(
    page: &mut Page,
    rt: &HostRuntime,
    words: &[Bytes],
    around: &Around<'_>,
    output: &mut W,
    errors: &mut Vec<u8>,
) -> u8 {
    let env = entries_of(page, around.env);
    if around.has_children {
        let mut input = around.input;
        return status_of_children(rt, words, env.as_slice(), &mut input, output, errors);
    }
    status_in_memory(page, rt, words, env.as_slice(), around, output, errors)
}

/// Returns the exit status of the program with standard output on a full device.
fn status_on_full(
    page: &mut Page,
    rt: &HostRuntime,
    words: &[Bytes],
    around: &Around<'_>,
    errors: &mut Vec<u8>,
) -> u8 {
    match &mut File::create(rt, "/dev/full") {
        Ok(output) => status_of(page, rt, words, around, output, errors),
        Err(_) => {
            page.put(b"no full device ");
            2
        }
    }
}

/// Puts the exit status of the program with these words, and what it writes to the streams.
pub fn put_status(
    page: &mut Page,
    rt: &HostRuntime,
    around: &Around<'_>,
    words: &[Bytes],
    output: &mut Vec<u8>,
    errors: &mut Vec<u8>,
) {
    let status = if around.is_full {
        status_on_full(page, rt, words, around, errors)
    } else {
        status_of(page, rt, words, around, output, errors)
    };
    page.put_shown(&status);
}
