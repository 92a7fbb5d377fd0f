//! The receiver that writes to files.

ghost use Rattle.std.specs.Prelude.{◌≡◌, ◌+◌, ◌^◌, ◌<◌, true, false, List, ℕ, [], OnOk, OnErr, IfOk, IfSome, is_err, option_map, string_bytes};
ghost use Rattle.crew_refusals.specs.Shown.{IsShown};
ghost use Rattle.file_disk.specs.Known.{Adds, Does};
ghost use Rattle.output_put.specs.Receipt.{with_artifact, with_refusal};
ghost use Rattle.file_texts.specs.Done as done;
ghost use Rattle.file_texts.specs.Done.{IsEnd, IsReplaceable, IsTakenSo, IsRefused, IsAllDone, IsDoneApart};
ghost use Rattle.file_texts.specs.Held.{fresh, receipt_of, lasting_of, IsTaken, IsCounted, IsClosed, IsGuarded, IsUnused, GuardsMore, AreUnguarded};
ghost use Rattle.file_texts.specs.Keeping as meant;
ghost use Rattle.file_texts.specs.Keeping.{IsKept, AreSame, IsLeft, MayReplace, IsStepped, IsUnstepped, Takes, keeps_of, made_for};
ghost use Rattle.file_texts.specs.Lines.{AreLines};
ghost use Rattle.file_texts.specs.Names.{IsFileName};
ghost use Rattle.file_texts.specs.Places.{AreMore, ArePlaced, is_held, is_name_guarded, is_own_in};
ghost use Rattle.file_texts.specs.Sayings.{said};
ghost use Rattle.file_texts.specs.Steps.{IsReplaced, IsBegun, directories_for};

use crate::lines::{Saying, say, saying_of};
use crate::links::end_of;
use crate::names::{directory_of, file_name, no_name};
use crate::places::{Guards, Places, add_place, guard_of, held_error, is_kept};
use crate::reading::read_text;
use crate::writing::{Keeps, write_new, write_text};
use crew_refusals::Cause;
use deftable::Bytes;
use file_disk::{Disk, Found, LARGEST_TEXT};
use output_put::{Artifact, Kind, Outputs, PutRefused};
use std::alloc::{AllocError, Global};
use std::io::{self, ErrorKind};
use std::marker::Model;

/// A receiver that writes each artifact to the file of its name (own).
///
/// For a file and a header it makes the directories of the name. A header or a cache whose file has
/// this text already isn't written, and its file isn't touched. If a cache is a link, the file that
/// the link leads to is written; any other link is replaced. The receiver keeps a copy of what it
/// took, and the lines that are to be printed.
///
/// A put is refused if memory runs out, no file can have the name, the system refuses to write, the
/// file is that of an earlier put or one that [`FileOutputs::keep`] names, the run has its name for
/// itself, as [`crate::is_own`] says, it is a record of more than 64 MiB, which couldn't be read
/// again, or a cache whose file is there and can't be read, or the receiver is closed. Then the file
/// is as it was, as [`write_text`] says, but directories that were made for it stay. The receiver
/// keeps why the last put was refused.
pub struct FileOutputs<D: Disk> {
    alloc: Global,
    disk: D,
    guards: Guards,
    places: Places,
    artifacts: Vec<Artifact>,
    failures: u64,
    lines: Vec<u8>,
    cause: Option<Cause>,
    is_closed: bool,
}

impl<D: Disk> Drop for FileOutputs<D> {
    fn drop(self) {
        let FileOutputs {
            alloc: _alloc,
            disk: _disk,
            guards: _guards,
            places: _places,
            artifacts: _artifacts,
            failures: _failures,
            lines: _lines,
            cause: _cause,
            is_closed: _is_closed,
        } = self;
    }
}

impl<D: Disk> Model for FileOutputs<D> {
    ghost use Rattle.std.specs.Prelude.{◌≡◌, false, IfSome};
    ghost use Rattle.file_texts.specs.Done.{IsDoneApart};
    ghost use Rattle.file_texts.specs.Held.{Held, AreUnguarded};
    ghost use Rattle.file_texts.specs.Lines.{AreLines};

    ghost Value = { Held D };

    ghost view = { λ o. record { handed = o.artifacts.items; failures = o.failures; lines = o.lines.items; guards = o.guards; places = o.places; closed = o.is_closed; disk = o.disk } };

    ghost invariant = { λ o. AreLines o.artifacts.items o.lines.items
        × AreUnguarded o.guards o.artifacts.items
        × (o.is_closed ≡ false → IfSome (D.known o.disk)
        (λ k. IsDoneApart k o.guards o.artifacts.items o.failures o.lines.items o.places)) };
}

/// Returns the error of an allocation that failed.
fn no_memory() -> io::Error {
    io::Error::from(ErrorKind::OutOfMemory)
}

/// Returns the error of directories that weren't made. If something is there already, it is no
/// directory.
fn unmade(error: io::Error) -> io::Error {
    match error.kind() {
        ErrorKind::AlreadyExists => io::Error::new(ErrorKind::NotADirectory, "Not a directory"),
        _ => error,
    }
}

/// Makes the directories of a file that don't exist.
fn make_directories<D: Disk>(disk: &mut D, name: &str) -> io::Result<()>
    ensures { Adds (D.known disk.old) (D.known disk.new) (directories_for name.now) }
{
    match directory_of(name) {
        Some(directory) => disk.make_directories(directory).map_err(unmade),
        None => Ok(()),
    }
}

/// Makes the directories of a file or a header that is to be made.
fn make_for<D: Disk>(disk: &mut D, saying: Saying, name: &str) -> io::Result<()>
    ensures { Adds (D.known disk.old) (D.known disk.new) (made_for saying name.now) }
{
    match saying {
        Saying::Creating => make_directories(disk, name),
        Saying::Nothing | Saying::Unchanged => Ok(()),
    }
}

/// Adds the place of an artifact. If its name is that of a link which leads to the file, adds the
/// place of the file before that.
fn add_places<D: Disk>(
    alloc: Global,
    disk: &D,
    guards: &Guards,
    places: &mut Places,
    name: &str,
    end: &Option<String>,
) -> io::Result<()>
    ensures placed { OnOk result (IfSome (D.known disk.now)
        (λ k. ArePlaced k guards.now places.old places.new name.now
        (meant.file_of (option_map string_bytes end.now) name.now))) }
    ensures more { AreMore places.old places.new }
{
    match end {
        Some(file) => add_both(alloc, disk, guards, places, name, file.as_str()),
        None => add_place(alloc, disk, guards, places, name),
    }
}

/// Adds the place of a file, and that of a link that leads to it.
fn add_both<D: Disk>(
    alloc: Global,
    disk: &D,
    guards: &Guards,
    places: &mut Places,
    name: &str,
    file: &str,
) -> io::Result<()>
    ensures placed { OnOk result (IfSome (D.known disk.now)
        (λ k. ArePlaced k guards.now places.old places.new name.now file.now)) }
    ensures more { AreMore places.old places.new }
{
    add_place(alloc, disk, guards, places, file)?;
    add_place(alloc, disk, guards, places, name)
}

/// Returns whether an artifact of this kind with this text can be read again. A record can, if it
/// has at most 64 MiB. A cache that is too long is a fault of the run that reads it, and what else
/// is made isn't read.
fn can_be_read(kind: Kind, text: &[u8]) -> bool
    ensures { result ≡ done.can_be_read kind text.now }
{
    match kind {
        Kind::Record => text.len() <= LARGEST_TEXT,
        Kind::Cache | Kind::File | Kind::Header => true,
    }
}

/// Returns the error of a record that couldn't be read again.
fn too_large() -> io::Error {
    io::Error::new(ErrorKind::FileTooLarge, "has more than 64 MiB")
}

/// Returns what permissions the file of an artifact of this kind keeps. A record is no program, so
/// nobody is to execute it.
fn kept_by(kind: Kind) -> Keeps
    ensures { result ≡ keeps_of kind }
{
    match kind {
        Kind::Record => Keeps::NoExecution,
        Kind::Cache | Kind::File | Kind::Header => Keeps::Permissions,
    }
}

/// An artifact that is put, before it is written.
#[derive(Clone, Copy)]
struct Put<'a> {
    kind: Kind,
    /// What is said of it.
    saying: Saying,
    /// Whether its file has this text already.
    unchanged: bool,
    name: &'a str,
    text: &'a [u8],
}

/// Writes an artifact to its file, if it isn't unchanged, and adds its places. If that fails, some
/// place may have been added.
#[tactic(auto, using(crate::proofs::Placed::stepped_if_left, crate::proofs::Placed::stepped_if_not))]
fn write_placed<D: Disk>(
    alloc: Global,
    disk: &mut D,
    guards: &Guards,
    places: &mut Places,
    put: &Put<'_>,
    end: &Option<String>,
) -> io::Result<()>
    ensures stepped { OnOk result (
        Does (D.known disk.old) (D.known disk.new) (λ k deeds.
        IsStepped k guards.now places.old places.new put.now.saying
        put.now.unchanged (keeps_of put.now.kind) put.now.name.now
        (meant.file_of (option_map string_bytes end.now) put.now.name.now) put.now.text.now
        deeds)) }
    ensures undone { OnErr result
        (Does (D.known disk.old) (D.known disk.new)
        (λ _ deeds. IsUnstepped put.now.saying put.now.name.now
        (meant.file_of (option_map string_bytes end.now) put.now.name.now) deeds)) }
    ensures more { AreMore places.old places.new }
{
    make_for(disk, put.saying, put.name)?;
    add_places(alloc, disk, guards, places, put.name, end)?;
    if put.unchanged {
        return Ok(());
    }
    let file = file_of(end, put.name);
    write_text(alloc, disk, file.as_bytes(), kept_by(put.kind), put.text)
}

/// Returns whether an artifact of this kind is compared with the text that its file has. What is
/// not compared is written in any case: a file, and the record, so that it is newer than what it
/// was made of.
fn is_compared(kind: Kind) -> bool
    ensures { result ≡ meant.is_compared kind }
{
    match kind {
        Kind::Cache | Kind::Header => true,
        Kind::Record | Kind::File => false,
    }
}

/// Returns whether a text that was read, if one was, is this text.
fn is_same(found: Option<Bytes>, text: &[u8]) -> bool
    ensures { result ≡ meant.is_same found text.now }
{
    match found {
        Some(found) => found.as_slice() == text,
        None => false,
    }
}

/// Returns whether the file of a header or a cache has this text already. For anything else it is
/// false. Fails only if memory runs out.
fn is_unchanged<D: Disk>(
    alloc: Global,
    disk: &D,
    kind: Kind,
    name: &str,
    text: &[u8],
) -> Result<bool, AllocError>
    requires { IsFileName name.now }
    ensures { IfOk result
        (λ left. IfSome (D.known disk.now) (λ k. IsLeft kind k name.now text.now left)) }
{
    if !is_compared(kind) {
        return Ok(false);
    }
    let found = read_text(alloc, disk, name.as_bytes())?;
    Ok(is_same(found, text))
}

/// Returns the name of the file that a link leads to, if a cache is a link. Any other link is
/// replaced.
fn end_for<D: Disk>(alloc: Global, disk: &D, kind: Kind, name: &str) -> io::Result<Option<String>>
    ensures { IfOk result
        (λ o. IfSome (D.known disk.now)
        (λ k. IsEnd k name.now kind (meant.file_of (option_map string_bytes o) name.now))) }
{
    match kind {
        Kind::Cache => end_of(alloc, disk, name),
        Kind::Record => Ok(None),
        Kind::File => Ok(None),
        Kind::Header => Ok(None),
    }
}

/// Returns why the text of a cache was not read.
fn unread<D: Disk>(disk: &D, name: &str) -> io::Error {
    match disk.cause(name) {
        Some(e) => e,
        None => io::Error::other("can't be read"),
    }
}

/// Fails if something is under the name of the file of a cache, and its text can't be read under
/// the name of the cache.
#[tactic(auto, using(crate::proofs::Readings::replaceable))]
fn check_cache<D: Disk>(alloc: Global, disk: &D, name: &str, file: &str) -> io::Result<()>
    ensures { OnOk result (IfSome (D.known disk.now) (λ k. IsReplaceable k name.now file.now)) }
{
    match disk.look(file)? {
        Found::Nothing => Ok(()),
        _ => match read_text(alloc, disk, name.as_bytes()) {
            Ok(Some(_)) => Ok(()),
            Ok(None) => Err(unread(disk, name)),
            Err(_) => Err(no_memory()),
        },
    }
}

/// Fails if an artifact is a cache that is to be written over a file that can't be read: nobody
/// knows what answers would be lost.
fn check_replaced<D: Disk>(
    alloc: Global,
    disk: &D,
    kind: Kind,
    is_left: bool,
    name: &str,
    file: &str,
) -> io::Result<()>
    ensures { OnOk result
        (IfSome (D.known disk.now) (λ k. MayReplace kind is_left k name.now file.now)) }
{
    match kind {
        Kind::Cache => {
            if is_left {
                return Ok(());
            }
            check_cache(alloc, disk, name, file)
        }
        Kind::Record => Ok(()),
        Kind::File => Ok(()),
        Kind::Header => Ok(()),
    }
}

/// Returns the name of the file that an artifact is written to.
fn file_of<'a>(end: &'a Option<String>, name: &'a str) -> &'a str
    ensures { result.now ≡ meant.file_of (option_map string_bytes end.now) name.now }
{
    match end {
        Some(end) => end.as_str(),
        None => name,
    }
}

/// Appends an artifact and what is said of it, writes the artifact, and adds its places. If the put
/// is refused, it appends nothing and adds no place. So there is memory to keep the artifact before
/// its file is written.
fn keep_written<D: Disk>(
    alloc: Global,
    disk: &mut D,
    guards: &Guards,
    places: &mut Places,
    artifacts: &mut Vec<Artifact>,
    lines: &mut Vec<u8>,
    artifact: Artifact,
    put: &Put<'_>,
    end: &Option<String>,
) -> io::Result<()>
    ensures ok { OnOk result (
        IsKept artifacts.old.items lines.old.items artifacts.new.items lines.new.items artifact
        (said put.now.saying put.now.name.now)) }
    ensures err { OnErr result
        (AreSame artifacts.old.items lines.old.items artifacts.new.items lines.new.items) }
    ensures unplaced { OnErr result (places.new ≡ places.old) }
    ensures stepped { OnOk result (
        Does (D.known disk.old) (D.known disk.new) (λ k deeds.
        IsStepped k guards.now places.old places.new put.now.saying
        put.now.unchanged (keeps_of put.now.kind) put.now.name.now
        (meant.file_of (option_map string_bytes end.now) put.now.name.now) put.now.text.now
        deeds)) }
    ensures undone { OnErr result
        (Does (D.known disk.old) (D.known disk.new)
        (λ _ deeds. IsUnstepped put.now.saying put.now.name.now
        (meant.file_of (option_map string_bytes end.now) put.now.name.now) deeds)) }
{
    let count = artifacts.len();
    let len = lines.len();
    let placed = places.len();
    if artifacts.push(artifact).is_err() {
        return Err(no_memory());
    }
    if say(alloc, lines, put.saying, put.name.as_bytes()).is_err() {
        artifacts.truncate(count);
        return Err(no_memory());
    }
    let done = write_placed(alloc, disk, guards, places, put, end);
    if done.is_err() {
        artifacts.truncate(count);
        lines.truncate(len);
        places.truncate(placed);
    }
    done
}

/// Takes an artifact. If the put is refused, only its deeds are left of it.
#[tactic(auto, using(crate::proofs::Puts::refused_before))]
fn take<'a, D: Disk>(
    alloc: Global,
    disk: &mut D,
    guards: &Guards,
    places: &mut Places,
    artifacts: &mut Vec<Artifact>,
    lines: &mut Vec<u8>,
    is_closed: bool,
    kind: Kind,
    name: &'a [u8],
    text: &'a [u8],
) -> io::Result<()>
    ensures unclosed { OnOk result (is_closed ≡ false) }
    ensures taken { OnOk result (
        Takes (D.known disk.old) (D.known disk.new) guards.now places.old places.new
        artifacts.old.items lines.old.items artifacts.new.items lines.new.items
        (record { kind = kind; name = name.now; text = text.now })) }
    ensures name { IfOk result (λ _. IsFileName name.now) }
    ensures unguarded { OnOk result (is_name_guarded name.now guards.now ≡ false) }
    ensures readable { OnOk result (done.can_be_read kind text.now ≡ true) }
    ensures held { is_held (D.known disk.old) name.now guards.now places.old ≡ true
        → (is_err result ≡ true) × (disk.new ≡ disk.old) }
    ensures own { is_own_in (D.known disk.old) name.now ≡ true
        → (is_err result ≡ true) × (disk.new ≡ disk.old) }
    ensures unchanged { OnErr result
        (AreSame artifacts.old.items lines.old.items artifacts.new.items lines.new.items) }
    ensures unplaced { OnErr result (places.new ≡ places.old) }
    ensures undone { OnErr result
        (Does (D.known disk.old) (D.known disk.new) (λ k deeds. IsRefused k name.now kind deeds)) }
{
    if is_closed {
        return Err(io::Error::other("is handed over after the last file"));
    }
    let Some(path) = file_name(name) else {
        return Err(no_name(name));
    };
    let Ok(kept) = is_kept(alloc, disk, guards, places, path) else {
        return Err(no_memory());
    };
    if kept {
        return Err(held_error());
    }
    if !can_be_read(kind, text) {
        return Err(too_large());
    }
    take_free(
        alloc, disk, guards, places, artifacts, lines, kind, name, path, text,
    )
}

/// Takes an artifact whose name is not guarded and none that a run has for itself, and whose place,
/// if it is known already, is free.
fn take_free<'a, D: Disk>(
    alloc: Global,
    disk: &mut D,
    guards: &Guards,
    places: &mut Places,
    artifacts: &mut Vec<Artifact>,
    lines: &mut Vec<u8>,
    kind: Kind,
    name: &'a [u8],
    path: &'a str,
    text: &'a [u8],
) -> io::Result<()>
    requires path { path.now ≡ name.now }
    requires name { IsFileName name.now }
    requires unguarded { is_name_guarded name.now guards.now ≡ false }
    requires own { is_own_in (D.known disk.now) name.now ≡ false }
    requires readable { done.can_be_read kind text.now ≡ true }
    ensures taken { OnOk result (
        Takes (D.known disk.old) (D.known disk.new) guards.now places.old places.new
        artifacts.old.items lines.old.items artifacts.new.items lines.new.items
        (record { kind = kind; name = name.now; text = text.now })) }
    ensures unchanged { OnErr result
        (AreSame artifacts.old.items lines.old.items artifacts.new.items lines.new.items) }
    ensures unplaced { OnErr result (places.new ≡ places.old) }
    ensures undone { OnErr result
        (Does (D.known disk.old) (D.known disk.new) (λ k deeds. IsRefused k name.now kind deeds)) }
{
    let Ok(unchanged) = is_unchanged(alloc, disk, kind, path, text) else {
        return Err(no_memory());
    };
    let end = end_for(alloc, disk, kind, path)?;
    check_replaced(alloc, disk, kind, unchanged, path, file_of(&end, path))?;
    let Ok(artifact) = Artifact::from_slices(alloc, kind, name, text) else {
        return Err(no_memory());
    };
    let saying = saying_of(kind, unchanged);
    let put = Put {
        kind,
        saying,
        unchanged,
        name: path,
        text,
    };
    keep_written(
        alloc, disk, guards, places, artifacts, lines, artifact, &put, &end,
    )
}

/// Returns the line of a cause, or the empty text if there is no cause or no line.
#[tactic(auto, using(crate::proofs::Shown::none))]
fn line_of(cause: &Option<Cause>) -> &[u8]
    ensures { IsShown result.now }
{
    let Some(cause) = cause else {
        return b"";
    };
    match cause.line() {
        Some(line) => line,
        None => b"",
    }
}

impl<D: Disk> FileOutputs<D> {
    /// Returns a receiver that has taken nothing, and writes to this disk. It doesn't allocate.
    pub fn new(alloc: Global, disk: D) -> FileOutputs<D>
        requires { IfSome (D.known disk) (λ k. k.deeds ≡ []) }
        ensures { result ≡ fresh disk }
    {
        FileOutputs {
            alloc,
            disk,
            guards: Guards::new(alloc),
            places: Places::new(alloc),
            artifacts: Vec::new(alloc),
            failures: 0,
            lines: Vec::new(alloc),
            cause: None,
            is_closed: false,
        }
    }

    /// Returns the disk, for what is to be read from it.
    pub fn disk(&self) -> &D
        ensures { result.now ≡ self.now.disk }
    {
        &self.disk
    }

    /// Returns why the last put was refused that was: `NAME: CAUSE`, with the words of the system,
    /// or with words of the receiver's own. If none was refused, or memory ran out, it is empty.
    /// It has no control byte and no newline.
    pub fn cause(&self) -> &[u8]
        ensures { IsShown result.now }
    {
        line_of(&self.cause)
    }

    /// Returns what it took, in order.
    pub fn handed(&self) -> &[Artifact]
        ensures { result.now ≡ self.now.handed }
    {
        self.artifacts.as_slice()
    }

    /// Returns a line for each file and header that was taken, in order: `config.status: creating
    /// NAME`, or for a header whose file had this text already `config.status: NAME is unchanged`.
    /// Each line ends in a newline.
    #[tactic(auto, using(crate::proofs::Puts::all_of_apart))]
    pub fn lines(&self) -> &[u8]
        ensures value { result.now ≡ self.now.lines }
        ensures lines { AreLines self.now.handed result.now }
        // Unless it is closed, what was done to the disk is what was done for the puts.
        ensures done { self.now.closed ≡ false → IfSome (D.known self.now.disk)
            (λ k. IsAllDone k self.now.handed self.now.failures self.now.lines) }
        // No artifact has a guarded name, whether anything is known of the files or not.
        ensures unguarded { AreUnguarded self.now.guards self.now.handed }
        // Each artifact has a file of its own, which is not that of a guarded name.
        ensures apart { self.now.closed ≡ false
            → IfSome (D.known self.now.disk) (λ k.
            IsDoneApart k self.now.guards self.now.handed self.now.failures self.now.lines
            self.now.places) }
    {
        self.lines.as_slice()
    }

    /// Has each later put to this file refused, because the run reads it or writes it by itself. A
    /// put to another name of the file is refused too, if the directory of this name is there.
    ///
    /// # Errors
    ///
    /// Fails only if memory runs out, and then the file is not guarded.
    #[tactic(auto, using(crate::proofs::Unused::guards_none))]
    pub fn keep(&mut self, name: &[u8]) -> Result<(), AllocError>
        requires { IsUnused self.old }
        ensures unnamed { (IsFileName name.now → ⊥) → self.new ≡ self.old }
        ensures guarded { OnOk result (
            IsFileName name.now → IsGuarded D.known self.old self.new name.now) }
        ensures named { OnOk result (
            IsFileName name.now → is_name_guarded name.now self.new.guards ≡ true) }
        ensures err { OnErr result (self.new ≡ self.old) }
        ensures more { GuardsMore self.old self.new }
    {
        let Some(name) = file_name(name) else {
            return Ok(());
        };
        let guard = guard_of(self.alloc, &self.disk, name)?;
        self.guards.push(self.alloc, guard)?;
        Ok(())
    }

    /// Writes a last file, which is no artifact, such as a log. A regular file or a link of this
    /// name is removed first. From then on each put is refused.
    ///
    /// # Errors
    ///
    /// Fails if no file can have this name, or the system refuses a step. Then what was under the
    /// name may be gone, and the new file may have a part of the text. The receiver is closed also
    /// then.
    #[tactic(auto, using(crate::proofs::Puts::all_of_apart))]
    pub fn close(&mut self, name: &[u8], text: &[u8]) -> io::Result<()>
        // Unless it was closed already, what was done to the disk before is what was done for the
        // puts.
        ensures done { self.old.closed ≡ false → IfSome (D.known self.old.disk)
            (λ k. IsAllDone k self.old.handed self.old.failures self.old.lines) }
        ensures closed { IsClosed self.old self.new }
        ensures written { OnOk result
            (Does (D.known self.old.disk) (D.known self.new.disk)
            (λ k deeds. IsReplaced k name.now text.now deeds)) }
        ensures begun { OnErr result
            (Does (D.known self.old.disk) (D.known self.new.disk)
            (λ k deeds. IsBegun k name.now deeds)) }
        ensures name { IfOk result (λ _. IsFileName name.now) }
    {
        self.is_closed = true;
        write_new(&mut self.disk, name, text)
    }
}

impl<D: Disk> Outputs for FileOutputs<D> {
    ghost use Rattle.file_texts.specs.Held.{Lasting};

    ghost receipt = { receipt_of };

    ghost Kept = { Lasting };

    ghost kept = { lasting_of D.known };

    fn put(&mut self, kind: Kind, name: &[u8], text: &[u8]) -> Result<(), PutRefused>
        requires failures { (receipt_of self.old).failures < 2 ^ 62 }
        ensures taken { OnOk result (
            receipt_of self.new
            ≡ with_artifact (receipt_of self.old)
            (record { kind = kind; name = name.now; text = text.now })) }
        ensures refused { OnErr result (receipt_of self.new ≡ with_refusal (receipt_of self.old)) }
        ensures name { IfOk result (λ _. IsFileName name.now) }
        ensures unclosed { OnOk result (self.old.closed ≡ false) }
        // Nothing is put to a name that is guarded, whether anything is known of the files or not.
        ensures unguarded { OnOk result (is_name_guarded name.now self.old.guards ≡ false) }
        // A record that couldn't be read again is refused, whether anything is known of the files or
        // not.
        ensures readable { OnOk result (done.can_be_read kind text.now ≡ true) }
        // A put to a guarded name, to its place, or to that of another artifact does nothing.
        ensures held { is_held (D.known self.old.disk) name.now self.old.guards self.old.places
            ≡ true → (is_err result ≡ true) × (self.new.disk ≡ self.old.disk) }
        // Neither does a put to a name that a run has for itself.
        ensures own { is_own_in (D.known self.old.disk) name.now ≡ true
            → (is_err result ≡ true) × (self.new.disk ≡ self.old.disk) }
        // What was done to the disk, if that is known, and what is said of the artifact.
        ensures done { OnOk result (
            (line : List ℕ)
            × IsTaken self.old self.new
            (record { kind = kind; name = name.now; text = text.now }) line
            × Does (D.known self.old.disk) (D.known self.new.disk) (λ k deeds.
            IsTakenSo k self.old.guards self.old.places self.new.places
            (record { kind = kind; name = name.now; text = text.now }) line deeds)) }
        ensures counted { OnErr result (IsCounted self.old self.new) }
        ensures undone { OnErr result
            (Does (D.known self.old.disk) (D.known self.new.disk)
            (λ k deeds. IsRefused k name.now kind deeds)) }
        ensures kept { lasting_of D.known self.new ≡ lasting_of D.known self.old }
    {
        match take(
            self.alloc,
            &mut self.disk,
            &self.guards,
            &mut self.places,
            &mut self.artifacts,
            &mut self.lines,
            self.is_closed,
            kind,
            name,
            text,
        ) {
            Ok(()) => Ok(()),
            Err(e) => {
                self.failures += 1;
                self.cause = Some(Cause::of_error(self.alloc, name, &e));
                Err(PutRefused)
            }
        }
    }
}
