//! The lines of errors, on standard error.

ghost use Rattle.std.specs.Prelude.{◌≡◌, ℕ, List, [], ◌++◌, Option, false, codes, decimal};
ghost use Rattle.cmd_call.specs.Lines.{IsBegun, IsTold, digits_of, error_line, named, spot_text};
ghost use Rattle.cmd_call.specs.Precious.{precious_in, precious_line, precious_name};

use crate::hearing::Hears;
use crate::spot::Spot;
use ac_tree::Source;
use itoa::Buffer;
use options::PreciousFault;

/// The exit status after an error.
pub const FAULT: u8 = 2;

/// Writes the next part of a line, unless the line was cut before. Returns whether it is cut.
#[tactic(auto, using(crate::proofs::Lines::part_after_cut, crate::proofs::Lines::part_taken, crate::proofs::Lines::part_cut))]
fn put_part<E: Hears>(is_cut: bool, part: &[u8], errors: &mut E) -> bool
    ensures begun { (start : Option (List ℕ)) (before : List ℕ)
        → IsBegun start (E.contents errors.old) (E.has_failed errors.old) is_cut before
        → IsBegun start (E.contents errors.new) (E.has_failed errors.new) result
        (before ++ part.now) }
    ensures kept { E.has_failed errors.new ≡ false → E.has_failed errors.old ≡ false }
{
    if is_cut {
        return true;
    }
    match errors.say(part) {
        Ok(()) => false,
        Err(_) => true,
    }
}

/// Writes the digits of a number as the next part of a line, if there is a number.
fn put_number<E: Hears>(is_cut: bool, number: Option<u64>, errors: &mut E) -> bool
    ensures begun { (start : Option (List ℕ)) (before : List ℕ)
        → IsBegun start (E.contents errors.old) (E.has_failed errors.old) is_cut before
        → IsBegun start (E.contents errors.new) (E.has_failed errors.new) result
        (before ++ digits_of number) }
    ensures kept { E.has_failed errors.new ≡ false → E.has_failed errors.old ≡ false }
{
    match number {
        Some(number) => {
            let mut digits = Buffer::new();
            put_part(is_cut, digits.format(number).as_bytes(), errors)
        }
        None => put_part(is_cut, b"", errors),
    }
}

/// Writes a name as the next part of a line, after a blank, unless it is empty.
fn put_name<E: Hears>(is_cut: bool, name: &[u8], errors: &mut E) -> bool
    ensures begun { (start : Option (List ℕ)) (before : List ℕ)
        → IsBegun start (E.contents errors.old) (E.has_failed errors.old) is_cut before
        → IsBegun start (E.contents errors.new) (E.has_failed errors.new) result
        (before ++ named name.now) }
    ensures kept { E.has_failed errors.new ≡ false → E.has_failed errors.old ≡ false }
{
    if name.is_empty() {
        return put_part(is_cut, b"", errors);
    }
    let is_cut = put_part(is_cut, b" ", errors);
    put_part(is_cut, name, errors)
}

/// Writes the line of an error: the words of its kind, others, a number if there is one, and a name
/// unless it is empty. Returns the exit status. If the line can't be written, only the exit status
/// reports the error.
fn tell_parts<E: Hears>(
    errors: &mut E,
    kind: &[u8],
    words: &[u8],
    number: Option<u64>,
    name: &[u8],
) -> u8
    ensures status { result ≡ 2 }
    ensures told { IsTold E.contents E.has_failed errors.old errors.new (
        error_line (kind.now ++ (words.now ++ digits_of number)) name.now) }
{
    let is_cut = put_part(false, b"acrun: ", errors);
    let is_cut = put_part(is_cut, kind, errors);
    let is_cut = put_part(is_cut, words, errors);
    let is_cut = put_number(is_cut, number, errors);
    let is_cut = put_name(is_cut, name, errors);
    let _is_cut = put_part(is_cut, b"\n", errors);
    FAULT
}

/// Reports an error on standard error, with a name unless it is empty, and returns the exit status.
/// If the line can't be written, only the exit status reports the error.
pub fn tell_named<E: Hears>(errors: &mut E, reason: &[u8], name: &[u8]) -> u8
    ensures status { result ≡ 2 }
    ensures told { IsTold E.contents E.has_failed errors.old errors.new (
        error_line reason.now name.now) }
{
    tell_parts(errors, reason, b"", None, name)
}

/// Reports an error of this kind at a spot, and returns the exit status.
pub fn tell_spot<E: Hears>(errors: &mut E, kind: &[u8], spot: &Spot) -> u8
    ensures status { result ≡ 2 }
    ensures told { IsTold E.contents E.has_failed errors.old errors.new (
        error_line (kind.now ++ spot_text spot.now) []) }
{
    tell_parts(errors, kind, spot.words, spot.number, b"")
}

/// Reports an error of this kind and number, and returns the exit status.
pub fn tell_numbered<E: Hears>(errors: &mut E, kind: &[u8], number: u64) -> u8
    ensures status { result ≡ 2 }
    ensures told { IsTold E.contents E.has_failed errors.old errors.new (
        error_line (kind.now ++ decimal number) []) }
{
    tell_parts(errors, kind, b"", Some(number), b"")
}

/// Reports that memory ran out.
pub fn tell_memory<E: Hears>(errors: &mut E) -> u8
    ensures status { result ≡ 2 }
    ensures told { IsTold E.contents E.has_failed errors.old errors.new (
        error_line (codes "memory") []) }
{
    tell_named(errors, b"memory", b"")
}

/// Reports words that the program doesn't know.
pub fn tell_usage<E: Hears>(errors: &mut E) -> u8
    ensures status { result ≡ 2 }
    ensures told { IsTold E.contents E.has_failed errors.old errors.new (
        error_line (codes "usage") []) }
{
    tell_named(errors, b"usage", b"")
}

/// Reports that the file at this path can't be read, or can't be written.
pub fn tell_file<E: Hears>(errors: &mut E, path: &[u8]) -> u8
    ensures status { result ≡ 2 }
    ensures told { IsTold E.contents E.has_failed errors.old errors.new (
        error_line (codes "file") path.now) }
{
    tell_named(errors, b"file", path)
}

/// Reports that the put of this number was refused.
pub fn tell_put<E: Hears>(errors: &mut E, number: u64) -> u8
    ensures status { result ≡ 2 }
    ensures told { IsTold E.contents E.has_failed errors.old errors.new (
        error_line (codes "put " ++ decimal number) []) }
{
    tell_numbered(errors, b"put ", number)
}

/// Returns the precious variable of this number, counted from 1, or an empty text if the source
/// declares fewer.
fn precious_at(source: &Source, number: u64) -> &[u8]
    ensures { result.now ≡ precious_name (precious_in source.now) number }
{
    match source
        .precious()
        .names()
        .get((number as usize).saturating_sub(1))
    {
        Some(name) => name.as_slice(),
        None => b"",
    }
}

/// Reports what is wrong with a precious variable of this source: its kind from 1 to 3, and its
/// name.
pub fn tell_precious<E: Hears>(errors: &mut E, source: &Source, fault: PreciousFault) -> u8
    ensures status { result ≡ 2 }
    ensures told { IsTold E.contents E.has_failed errors.old errors.new (
        precious_line (precious_in source.now) fault) }
{
    match fault {
        PreciousFault::WasSet(number) => {
            tell_named(errors, b"precious 1", precious_at(source, number))
        }
        PreciousFault::WasUnset(number) => {
            tell_named(errors, b"precious 2", precious_at(source, number))
        }
        PreciousFault::Changed(number) => {
            tell_named(errors, b"precious 3", precious_at(source, number))
        }
        PreciousFault::OutOfMemory => tell_named(errors, b"memory", b""),
    }
}
