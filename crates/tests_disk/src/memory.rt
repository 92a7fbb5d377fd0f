//! A disk in memory.

ghost use Rattle.std.specs.Prelude.{◌≡◌, ◌∷◌, ◌++◌, [], ◌≤◌, ◌^◌, Some, None, IfNone, IfOk, IfSome, bytes_eq, length, map, option_map, reverse, if◌then◌else◌};
ghost use Rattle.std.specs.Option.{option_copied};
ghost use Rattle.file_disk.specs.Known.{limited};
ghost use Rattle.file_texts.specs.Names as names;
ghost use Rattle.tests_disk.specs.Memory as meant;

use crate::done::{Placed, Step};
use deftable::Bytes;
use file_disk::{Disk, Found, LARGEST_TEXT, not_regular};
use std::alloc::{AllocError, Global};
use std::io::{self, ErrorKind};
use std::process::Abort;

/// A disk in memory of user 0, of one directory without links, on which each name is that of its
/// last part. It keeps what is done to it, and what is written can be read again. A file that did
/// not get all of its text has none. If the disk is full, no file can be filled.
#[derive(Drop)]
pub struct MemoryDisk<'a, R: Abort> {
    rt: &'a R,
    alloc: Global,
    files: &'a [Placed],
    is_full: bool,
    steps: Vec<Step>,
}

impl<'a, R: Abort> MemoryDisk<'a, R> {
    /// Returns a disk to which nothing was done, on which these files are. If `is_full` is true, no
    /// file can be filled.
    pub fn new(rt: &'a R, alloc: Global, files: &'a [Placed], is_full: bool) -> MemoryDisk<'a, R>
        ensures { result.steps.items ≡ [] }
    {
        MemoryDisk {
            rt,
            alloc,
            files,
            is_full,
            steps: Vec::new(alloc),
        }
    }

    /// Returns what was done.
    pub fn steps(&self) -> &[Step] {
        self.steps.as_slice()
    }

    /// Returns the text under a name, or `None` if nothing is under it.
    pub fn text(&self, name: &[u8]) -> Option<&[u8]>
        ensures { option_copied result ≡ option_map (λ f. f.text)
            (meant.file_after self.now.files.now
            (reverse (map meant.deed_of self.now.steps.items)) (names.last_of name.now)) }
    {
        text_after(self.files, self.steps.as_slice(), last_of(name))
    }

    /// Returns what is under this name.
    fn found(&self, name: &[u8]) -> Found
        ensures { result ≡ meant.kind_of
            (meant.file_after self.now.files.now
            (reverse (map meant.deed_of self.now.steps.items)) (names.last_of name.now)) }
    {
        kind_after(self.files, self.steps.as_slice(), last_of(name))
    }
}

/// Returns what is after the last slash of a name, or the whole of it.
fn last_of(name: &[u8]) -> &[u8]
    ensures { result.now ≡ names.last_of name.now }
{
    let mut end = name.len();
    while end > 0 {
        if name[end - 1] == b'/' {
            return &name[end..];
        }
        end -= 1;
    }
    name
}

/// Returns a name in the directory, unless it is the last part of the other one.
fn unless_last<'a>(own: &'a [u8], name: &Bytes) -> Option<&'a [u8]>
    ensures { option_copied result
        ≡ (if bytes_eq own.now (names.last_of name.now) then None else Some own.now) }
{
    if own == last_of(name.as_slice()) {
        return None;
    }
    Some(own)
}

/// Returns the name under which a step that renames a file finds what it leaves under this one.
fn before_renaming<'a>(own: &'a [u8], from: &'a Bytes, to: &Bytes) -> Option<&'a [u8]>
    ensures { option_copied result ≡ (if bytes_eq own.now (names.last_of to.now)
        then Some (names.last_of from.now)
        else (if bytes_eq own.now (names.last_of from.now) then None else Some own.now)) }
{
    if own == last_of(to.as_slice()) {
        return Some(last_of(from.as_slice()));
    }
    unless_last(own, from)
}

/// Returns the name under which a step finds what it leaves under this one, or `None` if it makes
/// it or takes it away.
fn source_of<'a>(step: &'a Step, own: &'a [u8]) -> Option<&'a [u8]>
    ensures { option_copied result ≡ meant.source_of (meant.deed_of step.now) own.now }
{
    match step {
        Step::MadeDirectories(_) => Some(own),
        Step::Made(name) => unless_last(own, name),
        Step::Filled(name, _, _) => unless_last(own, name),
        Step::Failed(name) => unless_last(own, name),
        Step::Renamed(from, to) => before_renaming(own, from, to),
        Step::Removed(name) => unless_last(own, name),
    }
}

/// Returns the text that a step gives to the file that it makes or fills.
fn text_by(step: &Step) -> Option<&[u8]>
    ensures { option_copied result ≡ meant.text_by (meant.deed_of step.now) }
{
    match step {
        Step::MadeDirectories(_) => None,
        Step::Made(_) => Some(b""),
        Step::Filled(_, _, text) => Some(text.as_slice()),
        Step::Failed(_) => Some(b""),
        Step::Renamed(_, _) => None,
        Step::Removed(_) => None,
    }
}

/// Returns the text of the file of this name in the directory, if it is one of these.
fn text_among<'a>(files: &'a [Placed], own: &[u8]) -> Option<&'a [u8]>
    ensures { option_copied result
        ≡ option_map (λ f. f.text) (meant.file_among files.now own.now) }
{
    for file in files {
        if own == last_of(file.name.as_slice()) {
            return Some(file.text.as_slice());
        }
    }
    None
}

/// Returns what is found of the file of this name in the directory.
fn kind_among(files: &[Placed], own: &[u8]) -> Found
    ensures { result ≡ meant.kind_of (meant.file_among files.now own.now) }
{
    for file in files {
        if own == last_of(file.name.as_slice()) {
            return Found::File { mode: file.mode };
        }
    }
    Found::Nothing
}

/// Returns the text under a name in the directory after these steps.
fn text_after<'a>(files: &'a [Placed], steps: &'a [Step], own: &[u8]) -> Option<&'a [u8]>
    ensures { option_copied result ≡ option_map (λ f. f.text)
        (meant.file_after files.now (reverse (map meant.deed_of steps.now)) own.now) }
{
    match steps.split_last() {
        Some((last, earlier)) => match source_of(last, own) {
            Some(before) => text_after(files, earlier, before),
            None => text_by(last),
        },
        None => text_among(files, own),
    }
}

/// Returns what is found of a file that a step makes, if it makes one.
fn new_kind(text: Option<&[u8]>) -> Found
    ensures { result ≡ meant.kind_of (option_map meant.new_file (option_copied text.entry)) }
{
    match text {
        Some(_) => Found::File { mode: 0o100644 },
        None => Found::Nothing,
    }
}

/// Returns what is found under a name in the directory after these steps.
fn kind_after(files: &[Placed], steps: &[Step], own: &[u8]) -> Found
    ensures { result ≡ meant.kind_of
        (meant.file_after files.now (reverse (map meant.deed_of steps.now)) own.now) }
{
    match steps.split_last() {
        Some((last, earlier)) => match source_of(last, own) {
            Some(before) => kind_after(files, earlier, before),
            None => new_kind(text_by(last)),
        },
        None => kind_among(files, own),
    }
}

/// Returns a text, or its first 64 MiB and one byte more.
fn limited(text: &[u8]) -> &[u8]
    ensures { result.now ≡ limited text.now }
{
    if text.len() > LARGEST_TEXT {
        &text[..LARGEST_TEXT + 1]
    } else {
        text
    }
}

/// Returns the error of a text of more than 64 MiB.
fn if_too_large(text: Option<&[u8]>) -> Option<io::Error>
    ensures { IfNone result (IfSome (option_copied text.entry) (λ t. length t ≤ 2 ^ 26)) }
{
    match text {
        Some(text) if text.len() > LARGEST_TEXT => Some(io::Error::from(ErrorKind::FileTooLarge)),
        _ => None,
    }
}

/// Returns a copy of a text, or of its first 64 MiB and one byte more.
fn front_of(alloc: Global, text: &[u8]) -> Result<Option<Bytes>, AllocError>
    ensures { IfOk result (λ o. o ≡ Some (limited text.now)) }
{
    let front = Bytes::from_slice(alloc, limited(text))?;
    Ok(Some(front))
}

/// Returns a copy of a name or of a text. If memory runs out, ends the test.
pub fn copied<R: Abort>(rt: &R, alloc: Global, text: &[u8]) -> Bytes
    ensures { result ≡ text.now }
{
    Bytes::from_slice(alloc, text).expect(rt, "memory")
}

/// Appends a step. If memory runs out, ends the test.
fn add<R: Abort>(rt: &R, steps: &mut Vec<Step>, step: Step)
    ensures { steps.new.items ≡ steps.old.items ++ step ∷ [] }
{
    let added = steps.push(step).is_ok();
    assert!(rt; added);
}

impl<'a, R: Abort> Disk for MemoryDisk<'a, R> {
    type File = ();

    ghost known = { λ m. Some (meant.known_of m.files.now m.steps.items) };

    fn read(&self, alloc: Global, name: &str) -> Result<Option<Bytes>, AllocError> {
        match self.text(name.as_bytes()) {
            Some(text) => front_of(alloc, text),
            None => Ok(None),
        }
    }

    fn cause(&self, name: &str) -> Option<io::Error> {
        let name = name.as_bytes();
        match self.found(name) {
            Found::File { .. } => if_too_large(self.text(name)),
            found => Some(not_regular(found)),
        }
    }

    fn look(&self, name: &str) -> io::Result<Found> {
        Ok(self.found(name.as_bytes()))
    }

    fn link_target(&self, _alloc: Global, _name: &str) -> io::Result<String> {
        Err(io::Error::from(ErrorKind::InvalidInput))
    }

    fn directory(&self, _name: &str) -> io::Result<(u64, u64)> {
        Ok((0, 0))
    }

    fn make_directories(&mut self, name: &str) -> io::Result<()> {
        let name = copied(self.rt, self.alloc, name.as_bytes());
        add(self.rt, &mut self.steps, Step::MadeDirectories(name));
        Ok(())
    }

    fn create(&mut self, name: &str) -> io::Result<()> {
        let Found::Nothing = self.found(name.as_bytes()) else {
            return Err(io::Error::from(ErrorKind::AlreadyExists));
        };
        let name = copied(self.rt, self.alloc, name.as_bytes());
        add(self.rt, &mut self.steps, Step::Made(name));
        Ok(())
    }

    fn mode(&self, name: &str, _file: &()) -> io::Result<u32> {
        match self.found(name.as_bytes()) {
            Found::File { mode } => Ok(mode),
            _ => Err(io::Error::from(ErrorKind::NotFound)),
        }
    }

    fn fill(&mut self, name: &str, _file: (), mode: Option<u32>, text: &[u8]) -> io::Result<()> {
        let name = copied(self.rt, self.alloc, name.as_bytes());
        if self.is_full {
            add(self.rt, &mut self.steps, Step::Failed(name));
            return Err(io::Error::from(ErrorKind::StorageFull));
        }
        let text = copied(self.rt, self.alloc, text);
        add(self.rt, &mut self.steps, Step::Filled(name, mode, text));
        Ok(())
    }

    fn rename(&mut self, from: &str, to: &str) -> io::Result<()> {
        let from = copied(self.rt, self.alloc, from.as_bytes());
        let to = copied(self.rt, self.alloc, to.as_bytes());
        add(self.rt, &mut self.steps, Step::Renamed(from, to));
        Ok(())
    }

    fn remove(&mut self, name: &str) -> io::Result<()> {
        let name = copied(self.rt, self.alloc, name.as_bytes());
        add(self.rt, &mut self.steps, Step::Removed(name));
        Ok(())
    }
}
