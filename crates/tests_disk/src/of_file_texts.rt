//! What is read and written, and what a receiver says of it.

use crate::disks::Disk;
use deftable::Bytes;
use file_disk::Host;
use file_texts::{FileOutputs, Keeps, path_in, read_limited, read_text, unread_cause, write_text};
use output_put::{Artifact, Artifacts, Kind, put_all};
use std::alloc::AllocError;
use std::fs::{self, File, Metadata, OpenFile, Permissions};
use std::os::unix::fs::{MetadataExt, PermissionsExt, symlink};
use std::test::Fail;
use std::{io, str};
use test_rows::{Page, RowCall, cut, try_rows, try_rows_in};

// ---- names

struct PathIn;

impl RowCall for PathIn {
    fn put(&self, page: &mut Page, given: &[u8]) {
        let (directory, name) = cut(given, b"|");
        if let Some(path) = page.given(path_in(page.alloc(), directory, name)) {
            page.put(path.as_slice());
        }
    }
}

#[test]
fn names_in_a_directory(rt: HostRuntime) -> Result<(), Fail> {
    try_rows(
        rt.alloc(),
        &PathIn,
        b"\
.|configure.ac => ./configure.ac
|configure.ac => /configure.ac
/|a => //a
a/b/|c/d => a/b//c/d
\xff|\xfe => \xff/\xfe
| => /
",
    )
}

// ---- texts

/// Puts `yes`, or `no` for an error.
fn put_done<E: Drop>(page: &mut Page, done: &Result<(), E>) {
    page.put_yes(done.is_ok());
}

/// Puts whether there is a cause why a text is not read.
fn put_cause(page: &mut Page, disk: &Disk<'_>, name: &[u8]) {
    let host = Host::new(disk);
    page.put(match unread_cause(&host, name) {
        Some(_) => b"some".as_slice(),
        None => b"none".as_slice(),
    });
}

/// Reads a text whole, or its front.
fn read_by(
    page: &Page,
    disk: &Disk<'_>,
    verb: &[u8],
    name: &[u8],
) -> Result<Option<Bytes>, AllocError> {
    let host = Host::new(disk);
    match verb {
        b"front" => read_limited(page.alloc(), &host, name),
        _ => read_text(page.alloc(), &host, name),
    }
}

/// Puts a text in brackets, or its length if it has more than 99 bytes.
fn put_read(page: &mut Page, disk: &Disk<'_>, verb: &[u8], name: &[u8]) {
    match &read_by(page, disk, verb, name) {
        Ok(Some(text)) if text.len() > 99 => page.put_number(text.len()),
        Ok(Some(text)) => page.put_text(text.as_slice()),
        Ok(None) => page.put(b"none"),
        Err(_) => page.put(b"memory"),
    }
}

fn put_written(page: &mut Page, disk: &Disk<'_>, words: &[u8]) {
    let (name, text) = cut(words, b" ");
    let mut host = Host::new(disk);
    let done = write_text(page.alloc(), &mut host, name, Keeps::Permissions, text);
    put_done(page, &done);
}

// ---- puts

fn kind_of(word: &[u8]) -> Kind {
    match word {
        b"cache" => Kind::Cache,
        b"record" => Kind::Record,
        b"header" => Kind::Header,
        _ => Kind::File,
    }
}

/// Adds an artifact: its kind, its name and its text, with blanks between them.
fn add_artifact(page: &mut Page, artifacts: &mut Artifacts, words: &[u8]) {
    let (kind, rest) = cut(words, b" ");
    let (name, text) = cut(rest, b" ");
    let made = Artifact::from_slices(page.alloc(), kind_of(kind), name, text);
    if let Some(artifact) = page.given(made) {
        page.given(artifacts.push(artifact));
    }
}

/// Puts whether the artifacts were taken, or which was refused, and the lines. A put to the file
/// that is kept is refused. If it can't be kept, nothing is put.
fn put_put(page: &mut Page, disk: &Disk<'_>, kept: &[u8], artifacts: &[Artifact]) {
    let mut outputs = FileOutputs::new(page.alloc(), Host::from_here(disk));
    if outputs.keep(kept).is_err() {
        page.put(b"unkept");
        return;
    }
    match put_all(&mut outputs, artifacts) {
        Ok(()) => page.put(b"all"),
        Err(number) => {
            page.put(b"not ");
            page.put_shown(&number);
        }
    }
    page.put_text(outputs.lines());
}

/// Returns artifacts, with semicolons between them.
pub fn artifacts_of(page: &mut Page, words: &[u8]) -> Artifacts {
    let mut artifacts = Artifacts::new(page.alloc());
    for artifact in words.split(|byte| *byte == b';') {
        add_artifact(page, &mut artifacts, artifact);
    }
    artifacts
}

/// Hands over artifacts, with semicolons between them.
fn put_handed(page: &mut Page, disk: &Disk<'_>, kept: &[u8], words: &[u8]) {
    let artifacts = artifacts_of(page, words);
    put_put(page, disk, kept, artifacts.as_slice());
}

// ---- the system

/// Makes a file of so many KiB and one byte less, none or more.
fn sized(rt: &HostRuntime, name: &str, more: &[u8]) -> io::Result<()> {
    let len = match more {
        b"less" => 67_108_863,
        b"more" => 67_108_865,
        _ => 67_108_864,
    };
    File::create(rt, name)?.set_len(len)
}

/// Makes 1,000 files in a directory, under the names that new files get.
fn crowd(rt: &HostRuntime, directory: &str) -> io::Result<()> {
    for number in 1..=1000u32 {
        let name = format!(in rt.alloc(); "{directory}/acrun-{number}.tmp")?;
        File::create(rt, name.as_str())?;
    }
    Ok(())
}

/// Makes 41 links in a directory: `1` leads to `0`, and each other one to the one before.
fn chain(rt: &HostRuntime, directory: &str) -> io::Result<()> {
    for before in 0..41u32 {
        let number = before + 1;
        let name = format!(in rt.alloc(); "{directory}/{number}")?;
        let target = format!(in rt.alloc(); "{before}")?;
        symlink(rt, target.as_str(), name.as_str())?;
    }
    Ok(())
}

fn permissions_of(word: &[u8]) -> Permissions {
    Permissions::from_mode(match word {
        b"private" => 0o600,
        b"open" => 0o666,
        b"program" => 0o755,
        b"special" => 0o6755,
        _ => 0o444,
    })
}

/// Does what a row asks of the system itself.
fn done_by(rt: &HostRuntime, verb: &[u8], name: &str, word: &[u8]) -> io::Result<()> {
    match verb {
        b"directory" => fs::create_dir(rt, name),
        b"link" => symlink(rt, str::from_utf8(word).unwrap_or(""), name),
        b"permit" => fs::set_permissions(rt, name, permissions_of(word)),
        b"sized" => sized(rt, name, word),
        b"crowd" => crowd(rt, name),
        b"chain" => chain(rt, name),
        _ => fs::remove_file(rt, name),
    }
}

fn put_metadata(page: &mut Page, verb: &[u8], found: &Metadata) {
    match verb {
        b"mode" => page.put_shown(&(found.mode() & 0o7777)),
        _ if found.is_symlink() => page.put(b"link"),
        _ if found.is_dir() => page.put(b"directory"),
        _ => page.put(b"file"),
    }
}

/// Puts what the system says of a name.
fn put_look(page: &mut Page, rt: &HostRuntime, verb: &[u8], name: &str) {
    match &fs::symlink_metadata(rt, name) {
        Ok(found) => put_metadata(page, verb, found),
        Err(_) => page.put(b"none"),
    }
}

/// By what a file is known that was replaced or written: its number and its times.
#[derive(Clone, Copy, PartialEq, Eq)]
struct Stamp {
    number: u64,
    modified: (i64, i64),
    changed: (i64, i64),
}

const NO_STAMP: Stamp = Stamp {
    number: 0,
    modified: (0, 0),
    changed: (0, 0),
};

fn stamp_of(rt: &HostRuntime, name: &str) -> Stamp {
    match fs::symlink_metadata(rt, name) {
        Ok(found) => Stamp {
            number: found.ino(),
            modified: (found.mtime(), found.mtime_nsec()),
            changed: (found.ctime(), found.ctime_nsec()),
        },
        Err(_) => NO_STAMP,
    }
}

// ---- rows

/// What the steps of a row share.
#[derive(Clone, Copy)]
struct Scene<'a> {
    disk: Disk<'a>,
    stamp: Stamp,
    kept: &'a [u8],
}

/// Does a step of the system, or puts what the system says of a name.
fn put_system(page: &mut Page, scene: &mut Scene<'_>, verb: &[u8], words: &[u8]) {
    let (name, word) = cut(words, b" ");
    let (rt, name) = (scene.disk.rt, str::from_utf8(name).unwrap_or("?"));
    match verb {
        b"mark" => scene.stamp = stamp_of(rt, name),
        b"same" => page.put_yes(scene.stamp == stamp_of(rt, name)),
        b"look" | b"mode" => put_look(page, rt, verb, name),
        _ if done_by(rt, verb, name, word).is_err() => page.put(b"!"),
        _ => {}
    }
}

/// Does a step: a verb, a blank, and words.
fn put_step<'a>(page: &mut Page, scene: &mut Scene<'a>, step: &'a [u8]) {
    let (verb, words) = cut(step, b" ");
    match verb {
        b"fails" => scene.disk.fails = words,
        b"keep" => scene.kept = words,
        b"read" | b"front" => put_read(page, &scene.disk, verb, words),
        b"cause" => put_cause(page, &scene.disk, words),
        b"write" => put_written(page, &scene.disk, words),
        b"hand" => put_handed(page, &scene.disk, scene.kept, words),
        _ => put_system(page, scene, verb, words),
    }
}

/// Does the steps of a row, with bars between them.
#[derive(Drop)]
struct Steps<'a> {
    rt: &'a HostRuntime,
}

impl RowCall for Steps<'_> {
    fn put(&self, page: &mut Page, given: &[u8]) {
        let mut scene = Scene {
            disk: Disk {
                rt: self.rt,
                fails: b"",
            },
            stamp: NO_STAMP,
            kept: b"",
        };
        for step in given.split(|byte| *byte == b'|') {
            put_step(page, &mut scene, step);
        }
    }
}

const TEXTS: &[u8] = b"\
// a new file, and the same with another text
write a one^J|read a|look acrun-1.tmp => yes[one^J]none
write a two|read a|look acrun-1.tmp => yes[two]none
// an empty text, NULs, and bytes that are no UTF-8
write b |read b => yes[]
write b ^@\xff^@|read b => yes[^@\xff^@]
// no file, and a directory
read c => none
read c/d => none
directory d|read d => none
read a/b => none
// Names that no file can have. Nothing is made under their front.
read \xff => none
write \xff x => no
read n^@|write n^@ x|look n => nonenonone
read |write  x => noneno
// The largest text, one byte less, and one more
sized e less|read e => 67108863
sized e|read e => 67108864
sized e more|read e|front e => none67108865
// Why it is not read: only if it has one more
sized e|cause e => none
sized e more|cause e => some
remove e =>
// A new file is another one. The old one closes it to the group and to others as far as it was closed
// itself, and can be executed as it could. It isn't opened if it may not be written. The owner keeps
// the bits that the system gives, and the special bits are gone.
write f x|mark f|write f y|same f|read f => yesyesno[y]
write g x|permit g private|write g y|mode g|read g => yesyes384[y]
permit g program|write g z|mode g => yes493
permit g special|mode g|write g z|mode g => 3565yes493
permit g locked|write g no matter|mode g|read g => yes420[no matter]
// A link is replaced, whatever it leads to.
write h x|link i h|write i y|look i|read i|look h|read h => yesyesfile[y]file[x]
link j k|write j new|look j|read j|look k => yesfile[new]none
link l /dev/null|write l kept|look l|read l => yesfile[kept]
// What is no regular file is not opened. A link to one is no file either.
read /dev/null|write /dev/null x|look acrun-1.tmp => nonenonone
link m /dev/zero|read m|front m => nonenone
// a directory in the place of the file
directory o|write o x|look o|look acrun-1.tmp => nodirectorynone
write p/q x|look p|look acrun-1.tmp => nononenone
write a/b x|read a => no[two]
// A file that is under the name of a new file stays, and so does a link or a directory. The next
// name is taken.
write r x|write acrun-1.tmp left|write r y|read r|read acrun-1.tmp|look acrun-2.tmp => yesyesyes[y][left]none
remove acrun-1.tmp|link acrun-1.tmp h|write t x|look t|read t|read h|look acrun-1.tmp => yesfile[x][x]link
remove acrun-1.tmp|directory u|directory u/acrun-1.tmp|write u/v y|read u/v|look u/acrun-1.tmp|look u/acrun-2.tmp => yes[y]directorynone
directory s|crowd s|write s/t x|look s/t|look s/acrun-1001.tmp|look s/acrun-1000.tmp => nononenonefile
// the longest name
write nnnnnnnnnnnnnnnnnnnnnnnnnnnnnnnnnnnnnnnnnnnnnnnnnnnnnnnnnnnnnnnnnnnnnnnnnnnnnnnnnnnnnnnnnnnnnnnnnnnnnnnnnnnnnnnnnnnnnnnnnnnnnnnnnnnnnnnnnnnnnnnnnnnnnnnnnnnnnnnnnnnnnnnnnnnnnnnnnnnnnnnnnnnnnnnnnnnnnnnnnnnnnnnnnnnnnnnnnnnnnnnnnnnnnnnnnnnnnnnnnnnnnnnnnnnnnnn x|read nnnnnnnnnnnnnnnnnnnnnnnnnnnnnnnnnnnnnnnnnnnnnnnnnnnnnnnnnnnnnnnnnnnnnnnnnnnnnnnnnnnnnnnnnnnnnnnnnnnnnnnnnnnnnnnnnnnnnnnnnnnnnnnnnnnnnnnnnnnnnnnnnnnnnnnnnnnnnnnnnnnnnnnnnnnnnnnnnnnnnnnnnnnnnnnnnnnnnnnnnnnnnnnnnnnnnnnnnnnnnnnnnnnnnnnnnnnnnnnnnnnnnnnnnnnnnnn|write nnnnnnnnnnnnnnnnnnnnnnnnnnnnnnnnnnnnnnnnnnnnnnnnnnnnnnnnnnnnnnnnnnnnnnnnnnnnnnnnnnnnnnnnnnnnnnnnnnnnnnnnnnnnnnnnnnnnnnnnnnnnnnnnnnnnnnnnnnnnnnnnnnnnnnnnnnnnnnnnnnnnnnnnnnnnnnnnnnnnnnnnnnnnnnnnnnnnnnnnnnnnnnnnnnnnnnnnnnnnnnnnnnnnnnnnnnnnnnnnnnnnnnnnnnnnnnn y|read nnnnnnnnnnnnnnnnnnnnnnnnnnnnnnnnnnnnnnnnnnnnnnnnnnnnnnnnnnnnnnnnnnnnnnnnnnnnnnnnnnnnnnnnnnnnnnnnnnnnnnnnnnnnnnnnnnnnnnnnnnnnnnnnnnnnnnnnnnnnnnnnnnnnnnnnnnnnnnnnnnnnnnnnnnnnnnnnnnnnnnnnnnnnnnnnnnnnnnnnnnnnnnnnnnnnnnnnnnnnnnnnnnnnnnnnnnnnnnnnnnnnnnnnnnnnnnn => yes[x]yes[y]
// failures of the system
write v old|fails open|write v new|read v|fails |read v|look acrun-1.tmp => yesnonone[old]none
write w old|fails write|write w new|fails |read w|look acrun-1.tmp => yesno[old]none
write x old|fails rename|write x new|read x|look acrun-1.tmp => yesno[old]none
write y old|fails permit|write y new|read y|look acrun-1.tmp => yesno[old]none
fails rename|write new x|look new|look acrun-1.tmp => nononenone
// The permissions are given before the text is written.
write z old|permit z private|fails early|write z new|fails |read z|mode z => yesyes[new]384
write z old|permit z open|fails early|write z new|fails |read z|look acrun-1.tmp => yesno[old]none
fails write|write new x|look new|look acrun-1.tmp => nononenone
fails look|write a x|fails |read a|look acrun-1.tmp => no[two]none
fails read|read a => none
fails memory|read a|write a x|fails |read a|look acrun-1.tmp => memoryno[two]none
";

#[test]
fn texts_of_files(rt: HostRuntime) -> Result<(), Fail> {
    try_rows_in(&rt, "texts_of_files", &Steps { rt: &rt }, TEXTS)
}

const PUTS: &[u8] = b"\
// A record is no program: it loses the bits to execute it, and an output keeps them.
hand record rr x|permit rr program|hand record rr y|mode rr|read rr|hand file ff x|permit ff program|hand file ff y|mode ff => \
all[]all[]420[y]all[config.status: creating ff^J]all[config.status: creating ff^J]493
// each kind, in order
hand cache config.cache c;record config.status r;file out f;header config.h h => \
all[config.status: creating out^Jconfig.status: creating config.h^J]
read config.cache|read config.status|read out|read config.h => [c][r][f][h]
// A header or a cache whose file has its text isn't touched, and any other artifact is written
// anew.
mark config.h|hand header config.h h|same config.h => all[config.status: config.h is unchanged^J]yes
mark out|hand file out f|same out => all[config.status: creating out^J]no
mark config.cache|hand cache config.cache c|same config.cache => all[]yes
mark config.cache|hand cache config.cache cc|same config.cache|read config.cache => all[]no[cc]
mark config.status|hand record config.status r|same config.status => all[]no
mark config.h|hand header config.h hh|same config.h|read config.h => all[config.status: creating config.h^J]no[hh]
hand header empty.h |hand header empty.h |read empty.h => all[config.status: creating empty.h^J]all[config.status: empty.h is unchanged^J][]
write config.h hx|hand header config.h h|read config.h => yesall[config.status: creating config.h^J][h]
// A header that is a link stays if the file that it leads to has its text, and is replaced
// otherwise.
link link.h config.h|hand header link.h h|look link.h => all[config.status: link.h is unchanged^J]link
hand header link.h new|look link.h|read link.h|read config.h => all[config.status: creating link.h^J]file[new][h]
// Of a cache that is a link, the file that it leads to is written, over any links between. It may
// not be there yet.
write real c|link cache.1 real|hand cache cache.1 d|look cache.1|look real|read real => yesall[]linkfile[d]
link cache.2 later|hand cache cache.2 d|look cache.2|read later => all[]link[d]
directory cd|link cd/3 ../cache.1|hand cache cd/3 e|look cd/3|look cache.1|read real => all[]linklink[e]
directory ln|chain ln|hand cache ln/40 x|look ln/40|read ln/0 => all[]link[x]
hand cache ln/41 y|look ln/41|read ln/0 => not 1[]link[x]
link loop.1 loop.2|link loop.2 loop.1|hand cache loop.1 x|look loop.1 => not 1[]link
link cache.4 /dev/null|hand cache cache.4 x|look cache.4 => not 1[]link
// A put to a file of an earlier put is refused, under any of its names, and what it has stays.
hand file taken 1;file taken 2|read taken => not 2[config.status: creating taken^J][1]
hand file ./taken 1;header .//taken 2|read taken => not 2[config.status: creating ./taken^J][1]
hand header taken.h 1;header taken.h 1 => not 2[config.status: creating taken.h^J]
hand cache taken 1;record taken 2|read taken => not 2[][1]
hand record taken 3;file taken 2|read taken => not 2[][3]
directory one.d|link two.d one.d|hand file one.d/x 1;file two.d/x 2|read one.d/x => not 2[config.status: creating one.d/x^J][1]
hand file one.d/y 1;file one.d/z 2;file y 3 => all[config.status: creating one.d/y^Jconfig.status: creating one.d/z^Jconfig.status: creating y^J]
hand cache cache.1 1;file real 2|read real => not 2[][1]
hand cache cache.1 2;file cache.1 2|look cache.1|read real => not 2[]link[2]
// So is a put to a file that is kept for the run itself, under any of its names. If its directory
// isn't there, only this name is kept.
write in T|keep in|hand file in x|read in => yesnot 1[][T]
keep ./in|hand file a.out 1;header in x|read in => not 2[config.status: creating a.out^J][T]
keep none/in|hand file in x|read in => all[config.status: creating in^J][x]
keep none/in|hand file none/in x|look none => not 1[]none
keep two.d/in|hand file one.d/in x|look one.d/in => not 1[]none
keep real|hand cache cache.1 x|read real => not 1[][2]
write in T|fails place|keep in|hand file in x|fails |read in => yesunkept[T]
keep config.log|hand cache config.log x|look config.log => not 1[]none
// So is a put to a name that a run has for the files of its checks, under any name of the current
// directory, and if only the new directories lead there. Elsewhere it is a name like any other.
hand file conftest.c x|look conftest.c => not 1[]none
hand header ./conftest x|look conftest => not 1[]none
hand record conftest1.o x|look conftest1.o => not 1[]none
hand cache conftest-cache x|look conftest-cache => not 1[]none
hand file oc/conftest.c x;file conftes y;file aconftest z|read oc/conftest.c => \
all[config.status: creating oc/conftest.c^Jconfig.status: creating conftes^Jconfig.status: creating aconftest^J][x]
hand file oc/../conftest.c x|look conftest.c => not 1[]none
hand file new.d/../conftest.c x|look conftest.c|look new.d => not 1[]nonedirectory
hand cache new2.d/../conftest.c x|look conftest.c => not 1[]none
link here.d .|hand file here.d/conftest.c x|look conftest.c => not 1[]none
link cache.3 conftest.c|hand cache cache.3 x|look conftest.c => not 1[]none
write conftest.c mine|hand file conftest.c x|read conftest.c|remove conftest.c => yesnot 1[][mine]
// Directories are made for a file and a header, and for nothing else.
hand file a/b/out x;header a/c/config.h y;file a/b/out2 z|read a/b/out|read a/c/config.h|read a/b/out2 => \
all[config.status: creating a/b/out^Jconfig.status: creating a/c/config.h^Jconfig.status: creating a/b/out2^J][x][y][z]
hand file ./d//e/../out x|read d/out => all[config.status: creating ./d//e/../out^J][x]
hand cache f/config.cache x|look f => not 1[]none
hand record f/config.status x|look f => not 1[]none
// Nothing is handed over after a put that is refused, and no line says that it was.
hand file one 1;file \xff 2;file three 3|read one|look three => not 2[config.status: creating one^J][1]none
hand header \xff 1 => not 1[]
hand cache \xff 1 => not 1[]
hand file one/two 2|read one => not 1[][1]
hand file a 1|look a => not 1[]directory
hand file four/ 1|look four => not 1[]directory
hand file one 1;cache  2 => not 2[config.status: creating one^J]
fails rename|hand file one new;file two 2|read one|look acrun-1.tmp => not 1[][1]none
fails write|hand header config.h other|look acrun-1.tmp => not 1[]none
// A header that is there and can't be read is written. If there is no memory to read it, the put is
// refused.
fails read|hand header config.h new|fails |read config.h => all[config.status: creating config.h^J][new]
fails memory|hand header config.h new => not 1[]
fails memory|read config.h|fails place|read config.h => memorymemory
// Any other failure of the system refuses the put too, and the file is as it was.
fails look|hand file two new|fails |look two|look acrun-1.tmp => not 1[]nonenone
fails stat|hand file two new|fails |look two|look acrun-1.tmp => not 1[]nonenone
fails place|hand file two new|fails |look two|look acrun-1.tmp => unkeptnonenone
fails directory|hand file dd/two new|fails |look dd => not 1[]none
fails open|hand record two new|fails |look two => not 1[]none
fails link|hand cache cache.1 new|fails |look cache.1|read real => not 1[]link[2]
fails look|hand cache cache.1 new|fails |look cache.1|read real => not 1[]link[2]
fails remove|hand file two new|read two|fails |look acrun-1.tmp => all[config.status: creating two^J][new]none
// Links with absolute names, and links in directories. An absolute link to a device is not followed
// to a file.
link cache.5 /nowhere/at/all|hand cache cache.5 x|look cache.5 => not 1[]link
link cd/6 7|hand cache cd/6 f|look cd/6|read cd/7|look 7 => all[]link[f]none
link links.d cd|hand cache links.d/6 g|look cd/6|read cd/7|look 7 => all[]link[g]none
// no artifacts
hand file five |read five => all[config.status: creating five^J][]
";

#[test]
fn puts_to_files(rt: HostRuntime) -> Result<(), Fail> {
    try_rows_in(&rt, "puts_to_files", &Steps { rt: &rt }, PUTS)
}
