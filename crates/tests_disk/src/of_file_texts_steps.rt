//! What a receiver does to a disk, step by step.

ghost use Rattle.std.specs.Prelude.{◌≡◌, []};

use crate::done::{Placed, Step};
use crate::memory::{MemoryDisk, copied};
use crate::of_file_texts::artifacts_of;
use deftable::Bytes;
use file_texts::FileOutputs;
use output_put::{Artifact, put_all};
use std::process::Abort;
use std::test::Fail;
use test_rows::{Page, RowCall, cut, try_rows};

/// Puts a step, and a semicolon.
fn put_step(page: &mut Page, step: &Step) {
    match step {
        Step::MadeDirectories(name) => put_named(page, b"directories ", name),
        Step::Made(name) => put_named(page, b"made ", name),
        Step::Filled(name, mode, text) => put_filled(page, name, *mode, text),
        Step::Failed(name) => put_named(page, b"failed ", name),
        Step::Renamed(from, to) => {
            page.put(b"renamed ");
            page.put(from.as_slice());
            put_named(page, b" to ", to);
        }
        Step::Removed(name) => put_named(page, b"removed ", name),
    }
}

fn put_named(page: &mut Page, verb: &[u8], name: &Bytes) {
    page.put(verb);
    page.put(name.as_slice());
    page.put(b";");
}

fn put_filled(page: &mut Page, name: &Bytes, mode: Option<u32>, text: &Bytes) {
    page.put(b"filled ");
    page.put(name.as_slice());
    if let Some(mode) = mode {
        page.put(b" ");
        page.put_shown(&mode);
    }
    page.put_text(text.as_slice());
    page.put(b";");
}

/// Puts whether the receiver took the last file: its name, a blank and its text. If there is no
/// name, does nothing.
fn put_closed<R: Abort>(
    page: &mut Page,
    outputs: &mut FileOutputs<MemoryDisk<'_, R>>,
    words: &[u8],
) {
    let (name, text) = cut(words, b" ");
    if !name.is_empty() {
        page.put_yes(outputs.close(name, text).is_ok());
    }
}

/// Puts the lines of a receiver, and what was done.
fn put_receiver<R: Abort>(page: &mut Page, outputs: &FileOutputs<MemoryDisk<'_, R>>) {
    page.put_text(outputs.lines());
    for step in outputs.disk().steps() {
        put_step(page, step);
    }
}

/// Hands over artifacts, and then closes the receiver, if a last file is named.
fn put_before<R: Abort>(
    page: &mut Page,
    disk: MemoryDisk<'_, R>,
    artifacts: &[Artifact],
    last: &[u8],
)
    requires { disk.steps.items ≡ [] }
{
    let mut outputs = FileOutputs::new(page.alloc(), disk);
    page.put_yes(put_all(&mut outputs, artifacts).is_ok());
    put_closed(page, &mut outputs, last);
    put_receiver(page, &outputs);
}

/// Closes a receiver, and then hands over artifacts.
fn put_after<R: Abort>(
    page: &mut Page,
    disk: MemoryDisk<'_, R>,
    artifacts: &[Artifact],
    last: &[u8],
)
    requires { disk.steps.items ≡ [] }
{
    let (name, text) = cut(last, b" ");
    let mut outputs = FileOutputs::new(page.alloc(), disk);
    page.put_yes(outputs.close(name, text).is_ok());
    page.put_yes(put_all(&mut outputs, artifacts).is_ok());
    put_receiver(page, &outputs);
}

/// Returns the permission bits of three octal digits, or those of a program that anybody may run.
fn mode_of(word: &[u8]) -> u32 {
    match word {
        [
            first @ b'0'..=b'7',
            second @ b'0'..=b'7',
            third @ b'0'..=b'7',
        ] => {
            u32::from(first - b'0') * 64 + u32::from(second - b'0') * 8 + u32::from(third - b'0')
        }
        _ => 0o755,
    }
}

/// Returns a file: its name, a blank, and its text. The word may have its permission bits.
fn file_of<R: Abort>(rt: &R, page: &mut Page, file: &[u8], word: &[u8]) -> Vec<Placed> {
    let (name, text) = cut(file, b" ");
    let placed = Placed {
        name: copied(rt, page.alloc(), name),
        mode: 0o100000 | mode_of(word),
        text: copied(rt, page.alloc(), text),
    };
    let mut files = Vec::new(page.alloc());
    if files.push(placed).is_err() {
        page.cut();
    }
    files
}

/// A row has four parts, with bars between them: the name of the one file that is there at first, a
/// blank and its text; `full`, if no file can be filled, `closed`, if the receiver is closed first, or
/// the permission bits of the file, if they are not 755; the artifacts, with semicolons between them; and
/// the last file. A new file has the permission bits 644 at first.
#[derive(Drop)]
struct Deeds<'a, R: Abort> {
    rt: &'a R,
}

impl<R: Abort> RowCall for Deeds<'_, R> {
    fn put(&self, page: &mut Page, given: &[u8]) {
        let (file, rest) = cut(given, b"|");
        let (word, rest) = cut(rest, b"|");
        let (words, last) = cut(rest, b"|");
        let artifacts = artifacts_of(page, words);
        let files = file_of(self.rt, page, file, word);
        let is_full = word == b"full".as_slice();
        let disk = MemoryDisk::new(self.rt, page.alloc(), files.as_slice(), is_full);
        match word {
            b"closed" => put_after(page, disk, artifacts.as_slice(), last),
            _ => put_before(page, disk, artifacts.as_slice(), last),
        }
    }
}

const STEPS: &[u8] = b"\
// a new file, with its directory, and one in the place of another, which can still be executed
a x||file d/b y| => yes[config.status: creating d/b^J]directories d;made d/acrun-1.tmp;filled d/acrun-1.tmp[y];renamed d/acrun-1.tmp to d/b;
a x||file a x| => yes[config.status: creating a^J]made acrun-1.tmp;filled acrun-1.tmp 493[x];renamed acrun-1.tmp to a;
a x||record a y| => yes[]made acrun-1.tmp;filled acrun-1.tmp 420[y];renamed acrun-1.tmp to a;
// An old file gives no right to read or to write, whatever is put in its place: 664 becomes 644, and 777 becomes 755.
a x|664|file a y| => yes[config.status: creating a^J]made acrun-1.tmp;filled acrun-1.tmp 420[y];renamed acrun-1.tmp to a;
a x|666|cache a y| => yes[]made acrun-1.tmp;filled acrun-1.tmp 420[y];renamed acrun-1.tmp to a;
a x|777|header a y| => yes[config.status: creating a^J]made acrun-1.tmp;filled acrun-1.tmp 493[y];renamed acrun-1.tmp to a;
a x|777|record a y| => yes[]made acrun-1.tmp;filled acrun-1.tmp 420[y];renamed acrun-1.tmp to a;
// What the group and others had not, they don't get: 640 and 600 stay, and who may not read may not execute.
a x|640|file a y| => yes[config.status: creating a^J]made acrun-1.tmp;filled acrun-1.tmp 416[y];renamed acrun-1.tmp to a;
a x|600|file a y| => yes[config.status: creating a^J]made acrun-1.tmp;filled acrun-1.tmp 384[y];renamed acrun-1.tmp to a;
a x|751|file a y| => yes[config.status: creating a^J]made acrun-1.tmp;filled acrun-1.tmp 488[y];renamed acrun-1.tmp to a;
// The owner keeps what the system gives.
a x|000|file a y| => yes[config.status: creating a^J]made acrun-1.tmp;filled acrun-1.tmp 384[y];renamed acrun-1.tmp to a;
a x|444|record a y| => yes[]made acrun-1.tmp;filled acrun-1.tmp 420[y];renamed acrun-1.tmp to a;
// A header or a cache that has its text already is left as it is.
a x||header a x| => yes[config.status: a is unchanged^J]
a x||header a y| => yes[config.status: creating a^J]made acrun-1.tmp;filled acrun-1.tmp 493[y];renamed acrun-1.tmp to a;
d/a x||cache d/a x| => yes[]
d/a x||cache d/a | => yes[]made d/acrun-1.tmp;filled d/acrun-1.tmp 493[];renamed d/acrun-1.tmp to d/a;
// The new file of a put that is refused is removed, and nothing is done for what follows it.
a x|full|header a x;file d/b y;file c z| => no[config.status: a is unchanged^J]directories d;made d/acrun-1.tmp;failed d/acrun-1.tmp;removed d/acrun-1.tmp;
// The last file is made anew, and what was there is removed. From then on puts are refused.
a x||file b y|log z => yesyes[config.status: creating b^J]made acrun-1.tmp;filled acrun-1.tmp[y];renamed acrun-1.tmp to b;made log;filled log[z];
a x||file b y|a z => yesyes[config.status: creating b^J]made acrun-1.tmp;filled acrun-1.tmp[y];renamed acrun-1.tmp to b;removed a;made a;filled a[z];
a x|closed|file b y|log z => yesno[]made log;filled log[z];
a x|full|cache a x|log z => yesno[]made log;failed log;
";

#[test]
fn steps_of_a_receiver(rt: HostRuntime) -> Result<(), Fail> {
    try_rows(rt.alloc(), &Deeds { rt: &rt }, STEPS)
}
