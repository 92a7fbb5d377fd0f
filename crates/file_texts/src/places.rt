//! Where files are: which names are names of one file, and which are guarded.

ghost use Rattle.std.specs.Prelude.{◌≡◌, ◌≢◌, ◌∷◌, ◌++◌, [], Some, None, IsTrue, IfOk, IfErr, IfSome, OnOk, OnErr, true, false, is_some, length, take};
ghost use Rattle.std.specs.IoError.{error_kind};
ghost use Rattle.deftable.specs.Table.{value_of, with_entry};
ghost use Rattle.file_disk.specs.Known.{directory_under};
ghost use Rattle.file_texts.specs.Keys.{place_key, guard_key};
ghost use Rattle.file_texts.specs.Names as names;
ghost use Rattle.file_texts.specs.Names.{IsFileName};
ghost use Rattle.file_texts.specs.Places as meant;
ghost use Rattle.file_texts.specs.Places.{IsAdded, place_under, place_in};

use crate::names::{file_name, home_of, last_of};
use deftable::{Bytes, Vars};
use file_disk::Disk;
use std::alloc::{AllocError, Global};
use std::io::{self, ErrorKind};
use std::marker::Model;

/// The place of a file: its directory, by device and number, and the last part of its name. Two
/// names are of one place exactly if their directories are one, and their last parts are equal.
#[derive(Drop)]
pub(crate) struct FilePlace {
    device: u64,
    directory: u64,
    name: Bytes,
}

/// A name to which nothing is to be put, and its place, if its directory is there.
#[derive(Drop)]
pub(crate) struct Guard {
    name: Bytes,
    place: Option<FilePlace>,
}

/// Returns the device and the number of the directory in which a name is.
fn home<D: Disk>(disk: &D, name: &str) -> io::Result<(u64, u64)>
    ensures found { IfOk result (λ d.
        IfSome (D.known disk.now) (λ k. directory_under k (names.home_of name.now) ≡ Some d)) }
    ensures missing { IfErr result (λ e. error_kind e ≢ ErrorKind.OutOfMemory
        → IfSome (D.known disk.now) (λ k. directory_under k (names.home_of name.now) ≡ None)) }
{
    disk.directory(home_of(name))
}

/// Returns the place of a name in this directory.
fn place_at(alloc: Global, name: &str, directory: (u64, u64)) -> Result<FilePlace, AllocError>
    ensures { IfOk result (λ place. place ≡ meant.place_at name.now directory) }
{
    let name = Bytes::from_slice(alloc, last_of(name).as_bytes())?;
    Ok(FilePlace {
        device: directory.0,
        directory: directory.1,
        name,
    })
}

/// Returns the place of a name. Fails if there is no such directory, memory runs out, or the system
/// refuses to look.
fn place_of<D: Disk>(alloc: Global, disk: &D, name: &str) -> io::Result<FilePlace>
    ensures { IfOk result
        (λ place. IfSome (D.known disk.now) (λ k. place_under k name.now ≡ Some place)) }
{
    let directory = home(disk, name)?;
    let place = place_at(alloc, name, directory)?;
    Ok(place)
}

/// Returns the place of a name, or `None` if there is no such directory, or the system refuses to
/// look. Fails only if memory runs out.
fn place_if_there<D: Disk>(
    alloc: Global,
    disk: &D,
    name: &str,
) -> Result<Option<FilePlace>, AllocError>
    ensures { IfOk result
        (λ place. IfSome (D.known disk.now) (λ k. place ≡ place_under k name.now)) }
{
    match home(disk, name) {
        Ok(directory) => {
            let place = place_at(alloc, name, directory)?;
            Ok(Some(place))
        }
        Err(e) if e.kind() == ErrorKind::OutOfMemory => Err(AllocError),
        Err(_) => Ok(None),
    }
}

/// Returns a directory by its device and number, or `None` if there is no such directory, or the
/// system refuses to look. Fails only if memory runs out.
fn directory_if_there<D: Disk>(disk: &D, name: &str) -> Result<Option<(u64, u64)>, AllocError>
    ensures { IfOk result (λ o. IfSome (D.known disk.now) (λ k. o ≡ directory_under k name.now)) }
{
    match disk.directory(name) {
        Ok(directory) => Ok(Some(directory)),
        Err(e) if e.kind() == ErrorKind::OutOfMemory => Err(AllocError),
        Err(_) => Ok(None),
    }
}

/// Returns whether two directories are there, and are one.
fn is_one(a: Option<(u64, u64)>, b: Option<(u64, u64)>) -> bool
    ensures { result ≡ meant.is_one a b }
{
    match a {
        Some(a) => match b {
            Some(b) => a.0 == b.0 && a.1 == b.1,
            None => false,
        },
        None => false,
    }
}

/// Returns whether a name is in the current directory. Fails only if memory runs out.
fn is_here<D: Disk>(disk: &D, name: &str) -> Result<bool, AllocError>
    ensures { IfOk result
        (λ here. IfSome (D.known disk.now) (λ k. here ≡ meant.is_here k name.now)) }
{
    let home = directory_if_there(disk, home_of(name))?;
    let here = directory_if_there(disk, ".")?;
    Ok(is_one(home, here))
}

/// Returns whether the last part of a name begins with `conftest`, or is `config.answers`.
fn is_own_part(name: &str) -> bool
    ensures { result ≡ meant.is_own_part name.now }
{
    let last = last_of(name).as_bytes();
    last.starts_with(b"conftest") || last == b"config.answers".as_slice()
}

/// Returns whether a run has this name for itself. Fails only if memory runs out.
fn is_own_path<D: Disk>(disk: &D, name: &str) -> Result<bool, AllocError>
    ensures { IfOk result
        (λ own. IfSome (D.known disk.now) (λ k. own ≡ meant.is_own k name.now)) }
{
    if !is_own_part(name) {
        return Ok(false);
    }
    is_here(disk, name)
}

/// Returns whether a run has this name of a file for itself: the name is in the current directory,
/// and its last part begins with `conftest`, as the names of all files that a check makes, or is
/// `config.answers`, in which a run keeps its answers until it ends (own).
///
/// A name whose directory isn't there, or that no file can have, is no such name.
///
/// # Errors
///
/// Fails only if memory runs out.
pub fn is_own<D: Disk>(disk: &D, name: &[u8]) -> Result<bool, AllocError>
    ensures name { IfOk result (λ own. own ≡ true → IsFileName name.now) }
    ensures value { IfOk result (λ own. IsFileName name.now
        → IfSome (D.known disk.now) (λ k. own ≡ meant.is_own k name.now)) }
{
    let Some(name) = file_name(name) else {
        return Ok(false);
    };
    is_own_path(disk, name)
}

impl FilePlace {
    /// Returns whether two places are one.
    fn is(&self, other: &FilePlace) -> bool
        ensures value { result ≡ meant.is_place self.now other.now }
    {
        self.directory == other.directory
            && self.device == other.device
            && self.name.as_slice() == other.name.as_slice()
    }
}

impl Guard {
    /// Returns whether the guarded name has this place.
    fn is_at(&self, place: &FilePlace) -> bool
        ensures { result ≡ meant.is_at place.now self.now.place }
    {
        match &self.place {
            Some(other) => place.is(other),
            None => false,
        }
    }
}

/// Returns whether a key is one of these.
#[tactic(auto, using(crate::proofs::Keyed::has_value))]
fn has_key(keys: &Vars, key: &[u8]) -> bool
    ensures { result ≡ is_some (value_of keys.now key.now) }
{
    keys.get(key).is_some()
}

/// Returns the key of a place. Two places of one key are compared.
#[tactic(auto, unfolding(crate::specs::Keys::place_key))]
fn key_of(alloc: Global, place: &FilePlace) -> Result<Bytes, AllocError>
    ensures { IfOk result (λ key. key ≡ place_key place.now) }
{
    let mut key = Vec::from_slice(alloc, &place.directory.to_be_bytes())?;
    key.extend_from_slice(place.name.as_slice())?;
    Ok(Bytes::from_vec(key))
}

/// Returns the key of the place of a guard, which is empty if it has none.
fn key_of_guard(alloc: Global, guard: &Guard) -> Result<Bytes, AllocError>
    ensures { IfOk result (λ key. key ≡ guard_key guard.now) }
{
    match &guard.place {
        Some(place) => key_of(alloc, place),
        None => Ok(Bytes::new(alloc)),
    }
}

/// The places of what was taken, in order. Their keys are kept, so that a new place isn't compared
/// with each of them. A key may stay whose place is gone.
pub(crate) struct Places {
    list: Vec<FilePlace>,
    keys: Vars,
}

impl Drop for Places {
    fn drop(self) {
        let Places {
            list: _list,
            keys: _keys,
        } = self;
    }
}

impl Model for Places {
    ghost use Rattle.std.specs.Prelude.{List};
    ghost use Rattle.file_texts.specs.Keys.{AreKeyed};
    ghost use Rattle.file_texts.specs.declared.places.FilePlace.{FilePlace as Place};

    ghost Value = { List Place };

    ghost view = { λ p. p.list.items };

    ghost invariant = { λ p. AreKeyed p.keys p.list.items };
}

#[tactic(auto, using(crate::proofs::Keyed::keying))]
impl Places {
    pub(crate) fn new(alloc: Global) -> Places
        ensures { result ≡ [] }
    {
        Places {
            list: Vec::new(alloc),
            keys: Vars::new(alloc),
        }
    }

    pub(crate) fn len(&self) -> usize
        ensures { result ≡ length self.now }
    {
        self.list.len()
    }

    /// Drops the places from an index on.
    pub(crate) fn truncate(&mut self, len: usize)
        ensures { self.new ≡ take len self.old }
    {
        self.list.truncate(len);
    }

    /// Appends a place.
    fn push(&mut self, alloc: Global, place: FilePlace) -> Result<(), AllocError>
        ensures ok { OnOk result (self.new ≡ self.old ++ place ∷ []) }
        ensures err { OnErr result (self.new ≡ self.old) }
    {
        let key = key_of(alloc, &place)?;
        self.keys.set(key.as_slice(), b"")?;
        self.list.push(place)?;
        Ok(())
    }

    /// Returns whether the place, which has this key, is one of these.
    fn has(&self, place: &FilePlace, key: &[u8]) -> bool
        requires { key.now ≡ place_key place.now }
        ensures { result ≡ meant.is_among place.now self.now }
    {
        has_key(&self.keys, key) && self.list.iter().any(|other| place.is(other))
    }
}

/// Names to which nothing is to be put, in order. The names and the keys of their places are kept,
/// so that a name isn't compared with each of them.
pub(crate) struct Guards {
    list: Vec<Guard>,
    names: Vars,
    keys: Vars,
}

impl Drop for Guards {
    fn drop(self) {
        let Guards {
            list: _list,
            names: _names,
            keys: _keys,
        } = self;
    }
}

impl Model for Guards {
    ghost use Rattle.std.specs.Prelude.{List};
    ghost use Rattle.file_texts.specs.Keys.{AreNamed, AreKeyedGuards};
    ghost use Rattle.file_texts.specs.declared.places.Guard.{Guard as OneGuard};

    ghost Value = { List OneGuard };

    ghost view = { λ g. g.list.items };

    ghost invariant = { λ g. AreNamed g.names g.list.items × AreKeyedGuards g.keys g.list.items };
}

#[tactic(auto, using(crate::proofs::Keyed::keying))]
impl Guards {
    pub(crate) fn new(alloc: Global) -> Guards
        ensures { result ≡ [] }
    {
        Guards {
            list: Vec::new(alloc),
            names: Vars::new(alloc),
            keys: Vars::new(alloc),
        }
    }

    /// Appends a guard.
    pub(crate) fn push(&mut self, alloc: Global, guard: Guard) -> Result<(), AllocError>
        ensures ok { OnOk result (self.new ≡ self.old ++ guard ∷ []) }
        ensures err { OnErr result (self.new ≡ self.old) }
    {
        let key = key_of_guard(alloc, &guard)?;
        self.keys.set(key.as_slice(), b"")?;
        self.names.set(guard.name.as_slice(), b"")?;
        self.list.push(guard)?;
        Ok(())
    }

    /// Returns whether the name is guarded.
    fn has_name(&self, name: &[u8]) -> bool
        ensures { result ≡ meant.is_name_guarded name.now self.now }
    {
        has_key(&self.names, name) && self.list.iter().any(|guard| guard.name.as_slice() == name)
    }

    /// Returns whether the place, which has this key, is guarded.
    fn has_place(&self, place: &FilePlace, key: &[u8]) -> bool
        requires { key.now ≡ place_key place.now }
        ensures { result ≡ meant.is_place_guarded place.now self.now }
    {
        has_key(&self.keys, key) && self.list.iter().any(|guard| guard.is_at(place))
    }
}

/// Returns whether the place is guarded, or one of these. Fails only if memory runs out.
fn is_held_at(
    alloc: Global,
    place: &FilePlace,
    guards: &Guards,
    places: &Places,
) -> Result<bool, AllocError>
    ensures { IfOk result
        (λ held. held ≡ meant.is_held_at (Some place.now) guards.now places.now) }
{
    let key = key_of(alloc, place)?;
    let key = key.as_slice();
    Ok(guards.has_place(place, key) || places.has(place, key))
}

/// Returns whether the name is guarded, or its place is guarded or one of these. Fails only if
/// memory runs out.
fn is_held<D: Disk>(
    alloc: Global,
    disk: &D,
    guards: &Guards,
    places: &Places,
    name: &str,
) -> Result<bool, AllocError>
    ensures named { IfOk result
        (λ held. held ≡ false → meant.is_name_guarded name.now guards.now ≡ false) }
    ensures held { IfOk result (λ held.
        held ≡ false → meant.is_held (D.known disk.now) name.now guards.now places.now ≡ false) }
{
    if guards.has_name(name.as_bytes()) {
        return Ok(true);
    }
    match place_if_there(alloc, disk, name)? {
        Some(place) => is_held_at(alloc, &place, guards, places),
        None => Ok(false),
    }
}

/// Returns whether nothing is to be put to the name: a run has it for itself, it is guarded, or its
/// place is guarded or one of these. Fails only if memory runs out.
pub(crate) fn is_kept<D: Disk>(
    alloc: Global,
    disk: &D,
    guards: &Guards,
    places: &Places,
    name: &str,
) -> Result<bool, AllocError>
    ensures named { IfOk result
        (λ kept. kept ≡ false → meant.is_name_guarded name.now guards.now ≡ false) }
    ensures own { IfOk result
        (λ kept. kept ≡ false → meant.is_own_in (D.known disk.now) name.now ≡ false) }
    ensures held { IfOk result (λ kept.
        kept ≡ false → meant.is_held (D.known disk.now) name.now guards.now places.now ≡ false) }
{
    if is_own_path(disk, name)? {
        return Ok(true);
    }
    is_held(alloc, disk, guards, places, name)
}

/// Returns a guard of this name.
pub(crate) fn guard_of<D: Disk>(alloc: Global, disk: &D, name: &str) -> Result<Guard, AllocError>
    ensures name { IfOk result (λ guard. guard.name ≡ name.now) }
    ensures place { IfOk result
        (λ guard. IfSome (D.known disk.now) (λ k. guard.place ≡ place_under k name.now)) }
{
    let place = place_if_there(alloc, disk, name)?;
    let name = Bytes::from_slice(alloc, name.as_bytes())?;
    Ok(Guard { name, place })
}

/// Returns the error of a name that a run has for itself, that is guarded, or whose place is another
/// artifact's.
pub(crate) fn held_error() -> io::Error {
    io::Error::other("has the name of another file of this run")
}

/// Adds a place, unless it is guarded or added already.
fn add(alloc: Global, guards: &Guards, places: &mut Places, place: FilePlace) -> io::Result<()>
    ensures free { OnOk result (meant.is_held_at (Some place) guards.now places.old ≡ false) }
    ensures added { OnOk result (places.new ≡ places.old ++ place ∷ []) }
    ensures same { OnErr result (places.new ≡ places.old) }
{
    if is_held_at(alloc, &place, guards, places)? {
        return Err(held_error());
    }
    places.push(alloc, place)?;
    Ok(())
}

/// Adds the place of a name, if it has one, it is neither guarded nor added yet, and a run doesn't
/// have the name for itself.
pub(crate) fn add_place<D: Disk>(
    alloc: Global,
    disk: &D,
    guards: &Guards,
    places: &mut Places,
    name: &str,
) -> io::Result<()>
    ensures added { OnOk result (IfSome (D.known disk.now)
        (λ k. IsAdded k guards.now places.old places.new name.now)) }
    ensures more { OnOk result (meant.AreMore places.old places.new) }
    ensures same { OnErr result (places.new ≡ places.old) }
{
    if is_own_path(disk, name)? {
        return Err(held_error());
    }
    let place = place_of(alloc, disk, name)?;
    add(alloc, guards, places, place)
}
