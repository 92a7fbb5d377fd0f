//! Finds, for each offset of a text, how much of the text's front is there too (the Z function).

ghost use Rattle.std.specs.Prelude.{◌≡◌, ◌+◌, ◌-◌, ◌<◌, ◌≤◌, ◌^◌, length, take, drop, IfOk};
ghost use Rattle.shell_case.specs.Fronts as words;

use std::alloc::{AllocError, Global};

/// The bytes of a text from `from` to `to`, which are the text's front too.
#[derive(Clone, Copy)]
struct Stretch {
    from: usize,
    to: usize,
}

/// Returns the length of the front that the whole shares with the text. At least `known` bytes are
/// known to be shared.
fn shared_len(whole: &[u8], text: &[u8], known: usize) -> usize
    requires long { length text.now ≤ length whole.now }
    requires known { known ≤ words.shared whole.now text.now }
    requires bound { known ≤ length text.now }
    ensures { result ≡ words.shared whole.now text.now }
{
    for i in known..text.len() {
        if text[i] != whole[i] {
            return i;
        }
    }
    text.len()
}

/// Returns a number of bytes that the whole shares with the text from `at` on, as far as the
/// lengths of the offsets before it and the stretch show it.
fn known_len(text: &[u8], lens: &[usize], at: usize, stretch: &Stretch) -> usize
    requires lens { lens.now ≡ take at (words.shares text.now text.now) }
    requires at { at < length text.now }
    requires count { length lens.now ≡ at }
    requires after { 1 ≤ stretch.now.from }
    requires shared { stretch.now.to - stretch.now.from
        ≤ words.shared text.now (drop stretch.now.from text.now) }
    ensures { result ≤ words.shared text.now (drop at text.now) }
{
    if stretch.from > at || stretch.to <= at {
        return 0;
    }
    let len = lens[at - stretch.from];
    let left = stretch.to - at;
    if len < left {
        return len;
    }
    left
}

/// Returns the stretch that ends later: this one, or the `len` bytes from `at` on.
fn later(stretch: Stretch, at: usize, len: usize) -> Stretch
    requires bound { at + len < 2 ^ 64 }
    ensures { result ≡ words.later stretch at len }
{
    if at > 0 && at + len > stretch.to {
        Stretch {
            from: at,
            to: at + len,
        }
    } else {
        stretch
    }
}

/// Returns, for each offset of the text, the length of the front that the text shares with the text
/// from there on.
///
/// The time is in proportion to the length of the text: what the stretch shows isn't compared
/// again, and after the first offset each comparison but the last makes the stretch longer.
pub(crate) fn shared_fronts(alloc: Global, text: &[u8]) -> Result<Vec<usize>, AllocError>
    ensures count { IfOk result (λ v. length v.items ≡ length text.now) }
    ensures value { IfOk result (λ v. v.items ≡ words.shares text.now text.now) }
{
    let mut lens = Vec::new(alloc);
    let mut stretch = Stretch { from: 1, to: 0 };
    for at in 0..text.len() {
        let known = known_len(text, &lens, at, &stretch);
        let len = shared_len(text, &text[at..], known);
        lens.push(len)?;
        stretch = later(stretch, at, len);
    }
    Ok(lens)
}
