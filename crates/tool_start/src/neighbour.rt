//! The program that lies beside the running one.

ghost use Rattle.std.specs.Prelude.{◌≡◌, [], ◌∷◌, ◌++◌, IfOk, OnOk, codes, string_bytes};
ghost use Rattle.std.specs.Path.{path_buf_bytes, path_with_file_name};
ghost use Rattle.std.specs.Process.{command_args, command_program};
ghost use Rattle.tool_start.specs.Starts.{IsHandedOn};

use crate::tools::Tools;
use crew_refusals::Cause;
use deftable::Bytes;
use file_disk::{Disk, Host};
use std::alloc::{AllocError, Global};
use std::os::unix::process::ExitStatusExt;
use std::path::{Path, PathBuf};
use std::process::{Command, ExitStatus, Processes};
use std::rt::Files;
use std::str;

/// The link to the file that the running program is, with all links followed (proc(5)).
const OWN: &str = "/proc/self/exe";

/// The name of the program of the tools.
const NAME: &str = "acrun-tools";

/// Starts the file `acrun-tools` that lies in the directory of the running program, after links. The
/// first word is `--acrun=VERSION`, so that a program of another version can refuse the words that
/// follow (own).
#[derive(Drop)]
pub struct Neighbour<R: Files + Processes + Drop> {
    rt: R,
    alloc: Global,
    /// The version of the running program.
    version: &'static str,
}

impl<R: Files + Processes + Drop> Neighbour<R> {
    /// Returns what starts the tools, for a program of this version.
    pub fn new(rt: R, alloc: Global, version: &'static str) -> Neighbour<R> {
        Neighbour { rt, alloc, version }
    }
}

/// Returns the cause that memory ran out.
fn no_memory(alloc: Global) -> Cause {
    Cause::of_words(alloc, NAME.as_bytes(), b"out of memory")
}

/// Returns the path of the tools beside a program of this path.
fn beside(alloc: Global, program: &str) -> Result<PathBuf, Cause>
    ensures { IfOk result (λ path. path_buf_bytes path
        ≡ path_with_file_name program.now (codes "acrun-tools")) }
{
    match Path::new(program).with_file_name(alloc, NAME) {
        Ok(path) => Ok(path),
        Err(_) => Err(no_memory(alloc)),
    }
}

/// Returns the path of the tools beside the running program. A path that isn't absolute, as the
/// system gives it for a file outside the root of the process, is no path.
fn program_path<R: Files>(rt: &R, alloc: Global) -> Result<PathBuf, Cause> {
    match Host::new(rt).link_target(alloc, OWN) {
        Ok(own) => {
            if !own.as_str().starts_with('/') {
                return Err(Cause::of_words(alloc, OWN.as_bytes(), b"not an absolute path"));
            }
            beside(alloc, own.as_str())
        }
        Err(error) => Err(Cause::of_error(alloc, OWN.as_bytes(), &error)),
    }
}

/// Returns the number that is handed on for an exit status.
fn number_of(status: ExitStatus) -> u8
    ensures { IsHandedOn status result }
{
    match (status.code(), status.signal()) {
        (Some(code), _) => code.unsigned_abs() as u8,
        (None, Some(signal)) => 128 + signal.unsigned_abs() as u8,
        (None, None) => 255,
    }
}

/// Adds a word to a command.
fn put_word(alloc: Global, command: &mut Command, word: &[u8]) -> Result<(), Cause>
    ensures program { OnOk result (command_program command.new ≡ command_program command.old) }
    ensures word { OnOk result (
        command_args command.new ≡ command_args command.old ++ word.now ∷ []) }
{
    let Ok(text) = str::from_utf8(word) else {
        return Err(Cause::of_words(alloc, word, b"not UTF-8"));
    };
    match command.arg(text) {
        Ok(_) => Ok(()),
        Err(_) => Err(no_memory(alloc)),
    }
}

/// Adds words to a command.
fn put_words(alloc: Global, command: &mut Command, words: &[Bytes]) -> Result<(), Cause>
    ensures program { OnOk result (command_program command.new ≡ command_program command.old) }
    ensures words { OnOk result (
        command_args command.new ≡ command_args command.old ++ words.now) }
{
    for word in words {
        put_word(alloc, command, word.as_slice())?;
    }
    Ok(())
}

/// Returns the word that names the version of the running program.
fn version_word(alloc: Global, version: &str) -> Result<String, Cause>
    ensures { IfOk result (λ word. string_bytes word ≡ codes "--acrun=" ++ version.now) }
{
    match joined(alloc, "--acrun=", version) {
        Ok(word) => Ok(word),
        Err(_) => Err(no_memory(alloc)),
    }
}

fn joined(alloc: Global, first: &str, second: &str) -> Result<String, AllocError>
    ensures { IfOk result (λ text. string_bytes text ≡ first.now ++ second.now) }
{
    let mut text = String::from_str(alloc, first)?;
    text.push_str(second)?;
    Ok(text)
}

/// Returns the command of the program at this path with these words. It changes nothing of its
/// environment, and sets no stream.
fn command_of(alloc: Global, path: &str, version: &str, words: &[Bytes]) -> Result<Command, Cause>
    ensures program { IfOk result (λ command. command_program command ≡ path.now) }
    ensures words { IfOk result (λ command. command_args command
        ≡ (codes "--acrun=" ++ version.now) ∷ words.now) }
{
    let word = version_word(alloc, version)?;
    let Ok(mut command) = Command::new(alloc, path) else {
        return Err(no_memory(alloc));
    };
    put_word(alloc, &mut command, word.as_bytes())?;
    put_words(alloc, &mut command, words)?;
    Ok(command)
}

impl<R: Files + Processes + Drop> Tools for Neighbour<R> {
    fn start(&mut self, words: &[Bytes]) -> Result<u8, Cause> {
        let path = program_path(&self.rt, self.alloc)?;
        let mut command = command_of(self.alloc, path.as_str(), self.version, words)?;
        match command.status(&self.rt) {
            Ok(status) => Ok(number_of(status)),
            Err(error) => Err(Cause::of_error(self.alloc, path.as_str().as_bytes(), &error)),
        }
    }
}
