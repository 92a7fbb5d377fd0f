//! The stand-in for a compiler, which needs no compiler: it looks for lines in the text of the
//! conftest (own).
//!
//! It takes the place of `CC` in tests of configure runs. Its list is the file `standin.txt` in the
//! current directory. If a line of the list occurs in a conftest, the conftest is refused; every
//! other one is accepted. A list with `!meet` as its first line tests that children run at the same
//! time: each makes a file, and one of them waits for the file of another.

ghost use Rattle.std.specs.Prelude.{◌≡◌, ◌↔◌, ◌⊎◌, ℕ, List, [], ◌∷◌, ◌++◌, Some, IsTrue, codes, string_bytes, IfOk, OnErr, OnOk, IfSome, IfNone};
ghost use Rattle.std.specs.Option.{option_copied};
ghost use Rattle.std.specs.Io.KnownBytes.{Appends};
ghost use Rattle.cmd_standin.specs.Standin as meant;
ghost use Rattle.cmd_standin.specs.Standin.{conftest_name, is_meeting, waiting, IsBarred, IsFirstBarred, HasNoBarred, IsAnswered, IsMade, Meets};

use crate::meeting::Meeting;
use crate::texts::{text_of, text_of_conftest};
use bstr::ByteSlice;
use deftable::Bytes;
use file_disk::Disk;
use file_texts::line_len;
use std::alloc::{AllocError, Global};
use std::io::Write;
use text_cut::parts;

/// The name of the list.
const LIST: &[u8] = b"standin.txt";

/// The first line of a list that makes children wait for each other.
const MEET: &[u8] = b"!meet";

/// The conftest that waits for another one.
const WAITING: &[u8] = b"conftest1.c";

/// The file that it waits for.
const AWAITED: &str = "conftest2.c.seen";

/// The largest number of times that it looks for that file.
const MOST_LOOKS: u32 = 200_000;

/// Returns the exit status of a compiler with this command line.
///
/// The conftest is the last word that ends with `.c`. If a line of the list that isn't empty occurs
/// in the conftest, the status is 1, and the first such line is written to `errors`; else it is 0.
/// If the first line of the list is `!meet`, a file is made with the conftest's name and `.seen`
/// after it. Then the status is 0, except that it is 1 for `conftest1.c` if `conftest2.c.seen`
/// isn't found within 200,000 looks (own).
///
/// A file that can't be read counts as empty. So does what isn't a regular file, and what has more
/// than 64 MiB counts as its first 64 MiB and one byte more. The time is that of one search of the
/// conftest for each line of the list.
///
/// # Errors
///
/// Fails only if memory runs out.
pub fn standin<M: Meeting, D: Disk, E: Write>(
    alloc: Global,
    meeting: &mut M,
    disk: &D,
    words: &[Bytes],
    errors: &mut E,
) -> Result<u8, AllocError>
    // The status is the answer for the texts of the list and the conftest, which are those of the
    // disk.
    ensures answer { IfOk result (IsAnswered (D.known disk.now) words.now) }
    // If it accepts the conftest, it writes nothing.
    ensures silent { IfOk result (λ status. status ≡ 0 → errors.new ≡ errors.old) }
    ensures status { IfOk result (λ status. (status ≡ 0) ⊎ (status ≡ 1)) }
    // If memory runs out, it has written nothing.
    ensures unsaid { OnErr result (errors.new ≡ errors.old) }
    // It makes no file but the one that shows that the conftest was seen.
    ensures meets { Meets (M.made meeting.old) (M.made meeting.new) words.now }
{
    let list = text_of(alloc, disk, LIST)?;
    let name = name_of_conftest(words);
    if asks_to_meet(list.as_slice()) {
        return meet(alloc, meeting, name);
    }
    let conftest = text_of_conftest(alloc, disk, name)?;
    judge(alloc, list.as_slice(), conftest.as_slice(), errors)
}

/// Returns whether the word is the name of a C source file.
fn names_source(word: &[u8]) -> bool
    ensures { result ≡ meant.names_source word.now }
{
    word.ends_with(b".c")
}

/// Returns the name of the conftest.
fn name_of_conftest(words: &[Bytes]) -> Option<&Bytes>
    ensures { option_copied result ≡ conftest_name words.now }
{
    words
        .iter()
        .rev()
        .find(|word| names_source(word.as_slice()))
}

/// Returns whether the list makes children wait for each other.
fn asks_to_meet(list: &[u8]) -> bool
    ensures { result ≡ is_meeting list.now }
{
    &list[..line_len(list)] == MEET
}

/// Returns whether this line of the list isn't empty, and occurs in the conftest.
fn is_barred(conftest: &[u8], line: &[u8]) -> bool
    ensures { IsTrue result ↔ IsBarred conftest.now line.now }
{
    !line.is_empty() && conftest.contains_str(line)
}

/// Returns the first line of the list that occurs in the conftest.
fn first_barred<'a>(
    alloc: Global,
    list: &'a [u8],
    conftest: &[u8],
) -> Result<Option<&'a [u8]>, AllocError>
    ensures found { IfOk result (λ o.
        IfSome o (λ line. IsFirstBarred list.now conftest.now line.now)) }
    ensures accepted { IfOk result (λ o. IfNone o (HasNoBarred list.now conftest.now)) }
{
    let lines = parts(alloc, list, b'\n')?;
    for line in lines.as_slice() {
        if is_barred(conftest, line) {
            return Ok(Some(line));
        }
    }
    Ok(None)
}

/// Returns the answer for a conftest: 1 if a line of the list occurs in it, which is reported, and
/// else 0.
fn judge<E: Write>(
    alloc: Global,
    list: &[u8],
    conftest: &[u8],
    errors: &mut E,
) -> Result<u8, AllocError>
    ensures barred { IfOk result (λ status.
        status ≡ 1 → (line : List ℕ) × IsFirstBarred list.now conftest.now line) }
    ensures passed { IfOk result (λ status. status ≡ 0 → HasNoBarred list.now conftest.now) }
    ensures silent { IfOk result (λ status. status ≡ 0 → errors.new ≡ errors.old) }
    ensures status { IfOk result (λ status. (status ≡ 0) ⊎ (status ≡ 1)) }
    ensures unsaid { OnErr result (errors.new ≡ errors.old) }
{
    match first_barred(alloc, list, conftest)? {
        Some(line) => {
            let _ = write_line(errors, line);
            Ok(1)
        }
        None => Ok(0),
    }
}

/// Writes a line.
fn write_line<E: Write>(errors: &mut E, line: &[u8]) -> std::io::Result<()>
    ensures { OnOk result (
        Appends (E.contents errors.old) (E.contents errors.new) (line.now ++ 10 ∷ [])) }
{
    errors.write_all(line)?;
    errors.write_all(b"\n")
}

/// Makes the file that shows that the conftest was seen. The conftest that waits then looks for the
/// file of the other.
fn meet<M: Meeting>(alloc: Global, meeting: &mut M, name: Option<&Bytes>) -> Result<u8, AllocError>
    ensures status { IfOk result (λ status. (status ≡ 0) ⊎ (status ≡ 1)) }
    ensures waited { IfOk result (λ status. status ≡ 1 → option_copied name.entry ≡ Some waiting) }
    ensures meets { (words : List (List ℕ)) → option_copied name.entry ≡ conftest_name words
        → Meets (M.made meeting.old) (M.made meeting.new) words }
{
    let Some(name) = name else {
        return Ok(0);
    };
    let name = name.as_slice();
    make_seen(alloc, meeting, name)?;
    if name != WAITING || is_seen(meeting) {
        return Ok(0);
    }
    Ok(1)
}

/// Makes the file that shows that the conftest was seen, if that is possible.
#[tactic(auto, using(crate::proofs::Meetings::none_made, crate::proofs::Meetings::made_as))]
fn make_seen<M: Meeting>(alloc: Global, meeting: &mut M, name: &[u8]) -> Result<(), AllocError>
    ensures { IsMade (M.made meeting.old) (M.made meeting.new) (name.now ++ codes ".seen") }
{
    let Some(name) = text_of_name(name) else {
        return Ok(());
    };
    let seen = seen_name(alloc, name)?;
    meeting.make(seen.as_str());
    Ok(())
}

/// Returns a name as a text, or `None` if it is none.
fn text_of_name(name: &[u8]) -> Option<&str>
    ensures { IfSome result (λ text. text.now ≡ name.now) }
{
    match std::str::from_utf8(name) {
        Ok(text) => Some(text),
        Err(_) => None,
    }
}

/// Returns the name of the file that shows that a conftest of this name was seen.
fn seen_name(alloc: Global, name: &str) -> Result<String, AllocError>
    ensures { IfOk result (λ seen. string_bytes seen ≡ name.now ++ codes ".seen") }
{
    format!(in alloc; "{name}.seen")
}

/// Looks for the file that is waited for.
fn is_seen<M: Meeting>(meeting: &M) -> bool {
    for _ in 0..MOST_LOOKS {
        if meeting.is_there(AWAITED) {
            return true;
        }
    }
    false
}
