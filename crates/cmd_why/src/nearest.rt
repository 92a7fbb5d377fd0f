//! The checks that are nearest to a word that is about none.

ghost use Rattle.std.specs.Prelude.{◌≡◌, ◌≤◌, ◌++◌, ◌∷◌, drop, flat_map, length, map, take, IfOk, OnOk};
ghost use Rattle.cmd_why.specs.Nearest as specs;
ghost use Rattle.cmd_why.specs.Views.{check_seen, near_seen};

use crate::lines::{Check, after_front};
use crate::subject::core_of;
use std::alloc::{AllocError, Global};
use strsim::generic_levenshtein;

/// How many checks are shown.
const MOST: usize = 5;

/// The largest number of bytes of a word or a name that is compared.
const LONGEST: usize = 128;

/// The prefixes of names, longest first where one begins another.
const PREFIXES: [&[u8]; 9] = [
    b"HAVE_DECL_",
    b"HAVE_LIB",
    b"HAVE_",
    b"ac_cv_header_",
    b"ac_cv_func_",
    b"ac_cv_type_",
    b"ac_cv_have_decl_",
    b"ac_cv_lib_",
    b"ac_cv_search_",
];

/// A check that is near, and how far it is.
#[derive(Clone, Copy)]
pub(crate) struct Near<'a> {
    message: &'a [u8],
    distance: usize,
}

/// Returns the word without the first of these prefixes that it has.
fn without_prefix_of<'a>(prefixes: &[&[u8]], word: &'a [u8]) -> &'a [u8]
    ensures { result.now ≡ specs.without_prefix_of (map (λ p. p.now) prefixes.now) word.now }
{
    for prefix in prefixes {
        if let Some(rest) = after_front(*prefix, word) {
            return rest;
        }
    }
    word
}

/// Returns the word without the prefix of a name.
fn without_prefix(word: &[u8]) -> &[u8]
    ensures { result.now ≡ specs.without_prefix_of specs.prefixes word.now }
{
    without_prefix_of(&PREFIXES, word)
}

/// Returns a byte as it is compared: letters in lower case, and what no name has as `_`.
#[tactic(auto, unfolding(crate::specs::Nearest::compared))]
fn compared(byte: u8) -> u8
    ensures { result ≡ specs.compared byte }
{
    if byte >= 65 && byte <= 90 {
        byte + 32
    } else if (byte >= 97 && byte <= 122) || (byte >= 48 && byte <= 57) {
        byte
    } else {
        b'_'
    }
}

/// Returns a text as it is compared.
fn folded(alloc: Global, text: &[u8]) -> Result<Vec<u8>, AllocError>
    ensures { IfOk result (λ v. v.items ≡ map specs.compared text.now) }
{
    text.iter().map(|byte| compared(*byte)).collect(alloc)
}

/// Returns how many edits lead from one word, as it is compared, to another, or `None` if they have
/// nothing in common.
fn distance_between(alloc: Global, word: &[u8], name: &[u8]) -> Result<Option<usize>, AllocError>
    ensures { IfOk result (λ d. d ≡ specs.if_near word.now name.now) }
{
    let distance = generic_levenshtein(alloc, word, name)?;
    if distance >= word.len().max(name.len()) {
        return Ok(None);
    }
    Ok(Some(distance))
}

/// Returns how many edits lead from a word, as it is compared, to the name of a check, or `None` if
/// they have nothing in common or are too long.
#[tactic(auto, unfolding(crate::specs::Nearest::distance_to))]
fn distance_to(alloc: Global, word: &[u8], message: &[u8]) -> Result<Option<usize>, AllocError>
    ensures { IfOk result (λ d. d ≡ specs.distance_to word.now message.now) }
{
    let core = core_of(message);
    if core.len() > LONGEST || word.len() > LONGEST {
        return Ok(None);
    }
    let name = folded(alloc, core)?;
    distance_between(alloc, word, name.as_slice())
}

/// Returns how many of these are first, and no further than this.
fn rank_of(nearest: &[Near<'_>], distance: usize) -> usize
    ensures place { result ≡ specs.rank_of distance (map near_seen nearest.now) }
    ensures within { result ≤ length nearest.now }
{
    let mut place = 0usize;
    for near in nearest {
        if near.distance > distance {
            return place;
        }
        place += 1;
    }
    place
}

/// Returns whether a check with this message is among these.
fn has_message(nearest: &[Near<'_>], message: &[u8]) -> bool
    ensures { result ≡ specs.has_message message.now (map near_seen nearest.now) }
{
    for near in nearest {
        if near.message == message {
            return true;
        }
    }
    false
}

/// Inserts a check, and drops what is more than five.
#[tactic(auto, using(crate::proofs::Nearness::inserted))]
fn insert_near<'a>(
    nearest: &mut Vec<Near<'a>>,
    place: usize,
    near: Near<'a>,
) -> Result<(), AllocError>
    requires { place ≤ length nearest.old.items }
    ensures { OnOk result (
        map near_seen nearest.new.items
        ≡ take 5 (
        take place (map near_seen nearest.old.items) ++ near_seen near.entry
        ∷ drop place (map near_seen nearest.old.items))) }
{
    nearest.insert(place, near)?;
    nearest.truncate(MOST);
    Ok(())
}

/// Adds a check to those that are nearest, unless one with its message is there or others are
/// nearer.
#[tactic(auto, unfolding(crate::specs::Nearest::with_near))]
fn add_near<'a>(nearest: &mut Vec<Near<'a>>, near: Near<'a>) -> Result<(), AllocError>
    ensures { OnOk result (
        map near_seen nearest.new.items
        ≡ specs.with_near (map near_seen nearest.old.items) (near_seen near.entry)) }
{
    if has_message(nearest, near.message) {
        return Ok(());
    }
    let place = rank_of(nearest.as_slice(), near.distance);
    insert_near(nearest, place, near)
}

/// Adds a check to those that are nearest, if it has a distance.
fn offer<'a>(
    nearest: &mut Vec<Near<'a>>,
    message: &'a [u8],
    distance: Option<usize>,
) -> Result<(), AllocError>
    ensures { OnOk result (
        map near_seen nearest.new.items
        ≡ specs.offered (map near_seen nearest.old.items) message.now distance) }
{
    match distance {
        Some(distance) => add_near(nearest, Near { message, distance }),
        None => Ok(()),
    }
}

/// Adds a check to those that are nearest to a word, as it is compared.
fn offer_check<'a>(
    alloc: Global,
    nearest: &mut Vec<Near<'a>>,
    word: &[u8],
    check: &Check<'a>,
) -> Result<(), AllocError>
    ensures { OnOk result (
        map near_seen nearest.new.items
        ≡ specs.offered (map near_seen nearest.old.items) check.now.message.now
        (specs.distance_to word.now check.now.message.now)) }
{
    let distance = distance_to(alloc, word, check.message)?;
    offer(nearest, check.message, distance)
}

/// Returns the checks that are nearest to a word, as it is compared, the nearest first.
fn nearest_among<'a>(
    alloc: Global,
    word: &[u8],
    checks: &[Check<'a>],
) -> Result<Vec<Near<'a>>, AllocError>
    ensures { IfOk result (λ v.
        map near_seen v.items
        ≡ specs.nearest_among word.now (map (λ check. check.message.now) checks.now)) }
{
    let mut nearest = Vec::new(alloc);
    for check in checks {
        offer_check(alloc, &mut nearest, word, check)?;
    }
    Ok(nearest)
}

/// Returns the checks that are nearest to a word, the nearest first.
#[tactic(auto, unfolding(crate::specs::Nearest::nearest_to))]
fn nearest_to<'a>(
    alloc: Global,
    word: &[u8],
    checks: &[Check<'a>],
) -> Result<Vec<Near<'a>>, AllocError>
    ensures { IfOk result (λ v.
        map near_seen v.items
        ≡ specs.nearest_to word.now (map (λ check. check.message.now) checks.now)) }
{
    let word = folded(alloc, without_prefix(word))?;
    nearest_among(alloc, word.as_slice(), checks)
}

/// Appends the line of a check that is near.
#[tactic(auto, unfolding(crate::specs::Nearest::near_line))]
fn put_near(out: &mut Vec<u8>, near: &Near<'_>) -> Result<(), AllocError>
    ensures { OnOk result (out.new.items ≡ out.old.items ++ specs.near_line (near_seen near.now)) }
{
    out.extend_from_slice(b"  checking ")?;
    out.extend_from_slice(near.message)?;
    out.extend_from_slice(b"\n")
}

/// Appends the lines of the checks that are near.
fn put_each(out: &mut Vec<u8>, nearest: &[Near<'_>]) -> Result<(), AllocError>
    ensures { OnOk result (
        out.new.items ≡ out.old.items ++ flat_map specs.near_line (map near_seen nearest.now)) }
{
    for near in nearest {
        put_near(out, near)?;
    }
    Ok(())
}

/// Appends the heading of the checks that are near.
#[tactic(auto, unfolding(crate::specs::Nearest::nearest_heading))]
fn put_heading(out: &mut Vec<u8>) -> Result<(), AllocError>
    ensures { OnOk result (out.new.items ≡ out.old.items ++ specs.nearest_heading) }
{
    out.extend_from_slice(b"The nearest are:\n")
}

/// Appends a heading and the lines of the checks that are near.
fn put_headed(out: &mut Vec<u8>, nearest: &[Near<'_>]) -> Result<(), AllocError>
    ensures { OnOk result (
        out.new.items ≡ out.old.items ++ specs.headed_lines (map near_seen nearest.now)) }
{
    put_heading(out)?;
    put_each(out, nearest)
}

/// Appends the lines of the checks that are near, with a heading, if there are some.
#[tactic(auto, unfolding(crate::specs::Nearest::near_lines))]
fn put_all(out: &mut Vec<u8>, nearest: &[Near<'_>]) -> Result<(), AllocError>
    ensures { OnOk result (
        out.new.items ≡ out.old.items ++ specs.near_lines (map near_seen nearest.now)) }
{
    if nearest.is_empty() {
        return Ok(());
    }
    put_headed(out, nearest)
}

/// Appends the front of the line that no check in the log is about a word.
#[tactic(auto, unfolding(crate::specs::Nearest::none_front))]
fn put_none_front(out: &mut Vec<u8>) -> Result<(), AllocError>
    ensures { OnOk result (out.new.items ≡ out.old.items ++ specs.none_front) }
{
    out.extend_from_slice(b"No check in the log is about ")
}

/// Appends that no check in the log is about a word.
fn put_none(out: &mut Vec<u8>, word: &[u8]) -> Result<(), AllocError>
    ensures { OnOk result (out.new.items ≡ out.old.items ++ specs.none_line word.now) }
{
    put_none_front(out)?;
    out.extend_from_slice(word)?;
    out.extend_from_slice(b".\n")
}

/// Appends that no check is meant by the word, and up to five checks that are nearest to it.
#[tactic(auto, unfolding(crate::specs::Nearest::none_text))]
pub(crate) fn put_nearest(
    alloc: Global,
    out: &mut Vec<u8>,
    word: &[u8],
    checks: &[Check<'_>],
) -> Result<(), AllocError>
    ensures { OnOk result (
        out.new.items
        ≡ out.old.items
        ++ specs.none_text word.now (map (λ check. check.message.now) checks.now)) }
{
    put_none(out, word)?;
    let nearest = nearest_to(alloc, word, checks)?;
    put_all(out, nearest.as_slice())
}
