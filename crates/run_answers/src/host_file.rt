//! The file of the answers on a real disk.

use crew_journal::AnswerFile;
use std::alloc::{AllocError, Global};
use std::fs::{self, File};
use std::io::{self, Write};
use std::os::unix::fs::OpenOptionsExt;
use std::rt::Files;

/// The name of the file.
pub(crate) const ANSWERS: &str = "config.answers";

/// The names of the files that become it.
const NEW_NAMES: [&str; 4] = ["acrun-1.tmp", "acrun-2.tmp", "acrun-3.tmp", "acrun-4.tmp"];

/// The mode of the file: nobody else may write answers.
const MODE: u32 = 0o600;

/// How the file begins.
#[derive(Clone, Copy)]
pub(crate) enum Begin {
    /// It isn't there, and nothing is under its name.
    New,
    /// It is there, and is replaced by one that begins with what it had.
    After,
    /// Nothing is written.
    Never,
}

/// The file of the answers of a run, in the current directory. It is made at the first answer.
#[derive(Drop)]
pub(crate) struct HostFile<'a, F: Files> {
    files: &'a F,
    alloc: Global,
    begin: Begin,
    // What is before the first answer.
    front: Vec<u8>,
    file: Option<F::File>,
}

/// Removes the file, if it is a regular file or a link. A link is not followed.
pub(crate) fn remove<F: Files>(files: &F) {
    match fs::symlink_metadata(files, ANSWERS) {
        Ok(found) if found.is_file() || found.is_symlink() => {
            let _ = fs::remove_file(files, ANSWERS);
        }
        _ => {}
    }
}

/// Makes a new file.
fn made<F: Files>(files: &F, name: &str) -> io::Result<F::File> {
    File::options()
        .write(true)
        .create_new(true)
        .mode(MODE)
        .open(files, name)
}

/// Writes a text at once, and returns whether the whole of it was written.
fn write_once<W: Write>(writer: &mut W, text: &[u8]) -> bool {
    match writer.write(text) {
        Ok(count) => count == text.len(),
        Err(_) => false,
    }
}

/// Makes the file with a text, if nothing is under its name. Returns it, if all was written.
fn begin_new<F: Files>(files: &F, text: &[u8]) -> Option<F::File> {
    let mut file = made(files, ANSWERS).ok()?;
    if write_once(&mut file, text) {
        return Some(file);
    }
    let _ = fs::remove_file(files, ANSWERS);
    None
}

/// Makes a file of this name with a text, and gives it the name of the file. Returns it, if all of
/// that was done.
fn begin_as<F: Files>(files: &F, name: &str, text: &[u8]) -> Option<F::File> {
    let mut file = made(files, name).ok()?;
    if file.write_all(text).is_ok() && fs::rename(files, name, ANSWERS).is_ok() {
        return Some(file);
    }
    let _ = fs::remove_file(files, name);
    None
}

/// Replaces the file by one with a text. Returns it, if that was done.
fn begin_after<F: Files>(files: &F, text: &[u8]) -> Option<F::File> {
    for name in &NEW_NAMES {
        if let Some(file) = begin_as(files, name, text) {
            return Some(file);
        }
    }
    None
}

impl<'a, F: Files> HostFile<'a, F> {
    /// Returns a file to which nothing is written.
    pub(crate) fn never(alloc: Global, files: &'a F) -> HostFile<'a, F> {
        HostFile {
            files,
            alloc,
            begin: Begin::Never,
            front: Vec::new(alloc),
            file: None,
        }
    }

    /// Returns a file that begins so at the first answer, with this before it.
    pub(crate) fn new(
        alloc: Global,
        files: &'a F,
        begin: Begin,
        front: Vec<u8>,
    ) -> HostFile<'a, F> {
        HostFile {
            files,
            alloc,
            begin,
            front,
            file: None,
        }
    }

    /// Returns whether this run has made the file.
    pub(crate) fn is_made(&self) -> bool {
        self.file.is_some()
    }

    /// Returns what is before the first answer, with an answer after it.
    fn first_text(&self, text: &[u8]) -> Result<Vec<u8>, AllocError> {
        let mut all = Vec::from_slice(self.alloc, self.front.as_slice())?;
        all.extend_from_slice(text)?;
        Ok(all)
    }

    /// Makes the file with the first answer. Returns whether that was done.
    fn begin(&mut self, text: &[u8]) -> bool {
        let Ok(all) = self.first_text(text) else {
            return false;
        };
        self.file = match self.begin {
            Begin::New => begin_new(self.files, all.as_slice()),
            Begin::After => begin_after(self.files, all.as_slice()),
            Begin::Never => None,
        };
        self.begin = Begin::Never;
        self.file.is_some()
    }
}

impl<'a, F: Files> AnswerFile for HostFile<'a, F> {
    fn append(&mut self, text: &[u8]) -> bool {
        match &mut self.file {
            Some(file) => write_once(file, text),
            None => self.begin(text),
        }
    }
}
