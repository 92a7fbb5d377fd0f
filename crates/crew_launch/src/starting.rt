//! Starts a real child.

ghost use Rattle.std.specs.Prelude.{◌≡◌, ◌⊎◌, [], ◌∷◌, ◌++◌, None, All, IfErr, IfOk, IfSome, IsUtf8, OnErr, OnOk, option_map};
ghost use Rattle.std.specs.Bool.{OnFalse, OnTrue};
ghost use Rattle.std.specs.List.{find};
ghost use Rattle.std.specs.Process.{command_args, command_program};
ghost use Rattle.std.specs.Str.{is_utf8};
ghost use Rattle.crew_launch.specs.Launch.{Adds, AreCommand, Failed, IsClearing, IsOfJob, Spawned, Wrote, failing, launch, writing};
ghost use Rattle.crew_launch.specs.Piped.{IsUnread};
ghost use Rattle.crew_launch.specs.Reasons as reasons;
ghost use Rattle.crew_launch.specs.Reasons.{IsNoProgram, IsOfCommand, IsOfFile, IsOfName, IsOfSpawn, SaysNoMemory, SaysNoText, SaysNul, is_no_text};

use crate::launcher::Launcher;
use crate::started::Started;
use crew_jobs::Job;
use crew_refusals::Cause;
use deftable::Bytes;
use std::alloc::{AllocError, Global};
use std::io;
use std::process::Command;

/// Writes the conftest of a job, starts its child, and returns it.
///
/// # Errors
///
/// If the job has no word, if a word isn't UTF-8, if the conftest can't be written or the command
/// can't be started, or if memory runs out, nothing is started, and the cause is returned.
#[tactic(auto, using(crate::proofs::Naming::all_unstarted, crate::proofs::Naming::of_no_program))]
pub fn start_child<L: Launcher>(
    launcher: &mut L,
    alloc: Global,
    job: &Job,
) -> Result<Started<L::Process>, Cause>
    // If it succeeds, the launcher wrote the conftest, if there is one, and then started the command
    // with all words of the job.
    ensures taken { OnOk result (
        Adds (L.calls launcher.old) (L.calls launcher.new) (launch job.now)) }
    ensures unread { IfOk result (λ child. IsUnread child.pipe) }
    // If it fails, the launcher did nothing, or it wrote the conftest and the command didn't start.
    ensures refused { OnErr result (Adds (L.calls launcher.old) (L.calls launcher.new) []
        ⊎ Adds (L.calls launcher.old) (L.calls launcher.new) (failing job.now)) }
    // The cause is the first of these: the job has no word, its program or an argument isn't UTF-8,
    // its conftest wasn't written, a word has a NUL, or the system refused the command. Instead it
    // may be that memory ran out for the command.
    ensures cause { IfErr result (λ cause. IsOfJob job.now cause) }
    // A file that is stale is removed before the child is started.
    ensures cleared { OnOk result (L.stale launcher.new ≡ None) }
    // If it fails, the file that is stale was removed, or is as before.
    ensures stale { OnErr result (IsClearing (L.stale launcher.old) (L.stale launcher.new)) }
{
    match program_of(alloc, job.words.as_slice()) {
        Ok((program, arguments)) => start_words(launcher, alloc, program, arguments, &job.file),
        Err(cause) => Err(cause),
    }
}

/// Writes the conftest, if there is one, and starts the child of these words.
#[tactic(auto, using(crate::proofs::Naming::of_memory))]
fn start_words<L: Launcher>(
    launcher: &mut L,
    alloc: Global,
    program: &str,
    arguments: &[Bytes],
    file: &Option<(Bytes, Bytes)>,
) -> Result<Started<L::Process>, Cause>
    ensures taken { OnOk result (Adds (L.calls launcher.old) (L.calls launcher.new)
        (writing file.now ++ Spawned (program.now ∷ arguments.now) ∷ [])) }
    ensures unread { IfOk result (λ child. IsUnread child.pipe) }
    ensures refused { OnErr result (Adds (L.calls launcher.old) (L.calls launcher.new) []
        ⊎ Adds (L.calls launcher.old) (L.calls launcher.new) (writing file.now ++ Failed ∷ [])) }
    ensures cause { IfErr result
        (λ cause. IfSome cause (IsOfCommand program.now arguments.now file.now)) }
    ensures cleared { OnOk result (L.stale launcher.new ≡ None) }
    ensures stale { OnErr result (IsClearing (L.stale launcher.old) (L.stale launcher.new)) }
{
    let Ok(mut command) = Command::new(alloc, program) else {
        return Err(no_memory(alloc, program.as_bytes()));
    };
    run(
        launcher,
        alloc,
        &mut command,
        program.as_bytes(),
        arguments,
        file,
    )
}

/// Returns the cause that memory ran out.
fn no_memory(alloc: Global, name: &[u8]) -> Cause
    ensures { IfSome result (SaysNoMemory name.now) }
{
    Cause::of_words(alloc, name, b"out of memory")
}

/// Returns the cause that a text isn't UTF-8.
fn no_text(alloc: Global, text: &[u8]) -> Cause
    ensures { IfSome result (SaysNoText text.now) }
{
    Cause::of_words(alloc, text, b"not UTF-8")
}

/// Adds the arguments to a command that has none, writes the conftest, and starts the command.
#[tactic(auto, using(crate::proofs::Naming::of_argument, crate::proofs::Naming::of_memory, crate::proofs::Naming::of_file, crate::proofs::Naming::all_refused,))]
fn run<L: Launcher>(
    launcher: &mut L,
    alloc: Global,
    command: &mut Command,
    program: &[u8],
    arguments: &[Bytes],
    file: &Option<(Bytes, Bytes)>,
) -> Result<Started<L::Process>, Cause>
    requires program { command_program command.old ≡ program.now }
    requires arguments { command_args command.old ≡ [] }
    ensures taken { OnOk result (Adds (L.calls launcher.old) (L.calls launcher.new)
        (writing file.now ++ Spawned (command_program command.old ∷ arguments.now) ∷ [])) }
    ensures unread { IfOk result (λ child. IsUnread child.pipe) }
    ensures refused { OnErr result (Adds (L.calls launcher.old) (L.calls launcher.new) []
        ⊎ Adds (L.calls launcher.old) (L.calls launcher.new) (writing file.now ++ Failed ∷ [])) }
    ensures cause { IfErr result
        (λ cause. IfSome cause (IsOfCommand program.now arguments.now file.now)) }
    ensures cleared { OnOk result (L.stale launcher.new ≡ None) }
    ensures stale { OnErr result (IsClearing (L.stale launcher.old) (L.stale launcher.new)) }
{
    if let Some(argument) = first_no_text(arguments) {
        return Err(no_text(alloc, argument));
    }
    let Ok(true) = put_arguments(command, arguments) else {
        return Err(no_memory(alloc, program));
    };
    match write_conftest(launcher, alloc, file) {
        Ok(()) => spawn(launcher, alloc, command, program, arguments),
        Err(cause) => Err(cause),
    }
}

/// Starts a command, which has this program and these arguments.
fn spawn<L: Launcher>(
    launcher: &mut L,
    alloc: Global,
    command: &mut Command,
    program: &[u8],
    arguments: &[Bytes],
) -> Result<Started<L::Process>, Cause>
    ensures taken { OnOk result (Adds (L.calls launcher.old) (L.calls launcher.new)
        (Spawned (command_program command.old ∷ command_args command.old) ∷ [])) }
    ensures unread { IfOk result (λ child. IsUnread child.pipe) }
    ensures refused { OnErr result (
        Adds (L.calls launcher.old) (L.calls launcher.new) (Failed ∷ [])) }
    ensures cause { IfErr result (λ cause. IfSome cause (IsOfSpawn program.now arguments.now)) }
    ensures stale { L.stale launcher.new ≡ None }
{
    match launcher.spawn(command) {
        Ok(child) => Ok(Started::new(alloc, child)),
        Err(error) => Err(spawn_cause(alloc, program, arguments, &error)),
    }
}

/// Returns why a command wasn't started: the first word with a NUL, which no word of a command can
/// have, or else the error.
#[tactic(auto, unfolding(crate::specs::Reasons::IsOfSpawn))]
fn spawn_cause(alloc: Global, program: &[u8], arguments: &[Bytes], error: &io::Error) -> Cause
    ensures { IfSome result (IsOfSpawn program.now arguments.now) }
{
    if has_nul(program) {
        return no_nul(alloc, program);
    }
    match first_with_nul(arguments) {
        Some(argument) => no_nul(alloc, argument),
        None => Cause::of_error(alloc, program, error),
    }
}

/// Returns the first argument with a NUL.
fn first_with_nul(arguments: &[Bytes]) -> Option<&[u8]>
    ensures { option_map (λ word. word.now) result ≡ find reasons.has_nul arguments.now }
{
    for argument in arguments {
        if has_nul(argument.as_slice()) {
            return Some(argument.as_slice());
        }
    }
    None
}

fn has_nul(text: &[u8]) -> bool
    ensures { result ≡ reasons.has_nul text.now }
{
    text.contains(&0)
}

/// Returns the cause that a text has a NUL.
fn no_nul(alloc: Global, text: &[u8]) -> Cause
    ensures { IfSome result (SaysNul text.now) }
{
    Cause::of_words(alloc, text, b"has a NUL")
}

/// Writes the conftest, if there is one.
fn write_conftest<L: Launcher>(
    launcher: &mut L,
    alloc: Global,
    file: &Option<(Bytes, Bytes)>,
) -> Result<(), Cause>
    ensures written { OnOk result (
        Adds (L.calls launcher.old) (L.calls launcher.new) (writing file.now)) }
    ensures refused { OnErr result (Adds (L.calls launcher.old) (L.calls launcher.new) []) }
    ensures cause { IfErr result (λ cause. IfSome cause (IsOfFile file.now)) }
    ensures stale { IsClearing (L.stale launcher.old) (L.stale launcher.new) }
{
    match file {
        Some((name, text)) => write_file(launcher, alloc, name.as_slice(), text.as_slice()),
        None => Ok(()),
    }
}

#[tactic(auto, using(crate::proofs::Naming::no_name, crate::proofs::Naming::no_file))]
fn write_file<L: Launcher>(
    launcher: &mut L,
    alloc: Global,
    name: &[u8],
    text: &[u8],
) -> Result<(), Cause>
    ensures written { OnOk result (
        Adds (L.calls launcher.old) (L.calls launcher.new) (Wrote name.now text.now ∷ [])) }
    ensures refused { OnErr result (Adds (L.calls launcher.old) (L.calls launcher.new) []) }
    ensures cause { IfErr result (λ cause. IfSome cause (IsOfName name.now)) }
    ensures stale { IsClearing (L.stale launcher.old) (L.stale launcher.new) }
{
    let Ok(path) = std::str::from_utf8(name) else {
        return Err(no_text(alloc, name));
    };
    match launcher.write(path, text) {
        Ok(()) => Ok(()),
        Err(error) => Err(Cause::of_error(alloc, name, &error)),
    }
}

/// Returns the program and the arguments, or an error if there is no word or the program isn't
/// UTF-8.
fn program_of(alloc: Global, words: &[Bytes]) -> Result<(&str, &[Bytes]), Cause>
    ensures words { IfOk result (λ p. p.0.now ∷ p.1.now ≡ words.now) }
    ensures fault { OnErr result (¬ (AreCommand words.now)) }
    ensures cause { IfErr result (λ cause. IfSome cause (IsNoProgram words.now)) }
{
    let Some((program, arguments)) = words.split_first() else {
        return Err(Cause::of_words(alloc, b"command", b"no word"));
    };
    match std::str::from_utf8(program.as_slice()) {
        Ok(program) => Ok((program, arguments)),
        Err(_) => Err(no_text(alloc, program.as_slice())),
    }
}

/// Adds arguments to a command, up to the first that isn't UTF-8. Returns whether all were added.
fn put_arguments(command: &mut Command, arguments: &[Bytes]) -> Result<bool, AllocError>
    requires { command_args command.old ≡ [] }
    ensures words { IfOk result (λ all.
        OnTrue all (
        (command_program command.new ≡ command_program command.old)
        × (command_args command.new ≡ arguments.now))) }
    ensures fault { IfOk result (λ all. OnFalse all (¬ (All IsUtf8 arguments.now))) }
{
    for argument in arguments {
        let Ok(argument) = std::str::from_utf8(argument.as_slice()) else {
            return Ok(false);
        };
        command.arg(argument)?;
    }
    Ok(true)
}

/// Returns the first argument that isn't UTF-8.
fn first_no_text(arguments: &[Bytes]) -> Option<&[u8]>
    ensures { option_map (λ word. word.now) result ≡ find is_no_text arguments.now }
{
    for argument in arguments {
        if !is_text(argument.as_slice()) {
            return Some(argument.as_slice());
        }
    }
    None
}

fn is_text(text: &[u8]) -> bool
    ensures { result ≡ is_utf8 text.now }
{
    match std::str::from_utf8(text) {
        Ok(_) => true,
        Err(_) => false,
    }
}
