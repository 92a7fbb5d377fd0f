//! Finds each `@` of a text, from left to right.

ghost use Rattle.std.specs.Prelude.{◌≡◌, ◌≢◌, ◌↔◌, ℕ, ◌+◌, ◌<◌, ◌≤◌, length, IfSome, IfNone, slice_index, drop};
ghost use Rattle.std.specs.Int.{bit_at};
ghost use Rattle.template.specs.Hops.{HasNoAt, HasNextAt};
ghost use Rattle.template.specs.Marks.{IsWindow};

use memchr::memchr;
use std::simd::prelude::*;

/// The number of bytes that are compared together.
const WIDTH: usize = 64;

/// The part of the text from `base` to `end`. Bit k of `marks` is set if an `@` that isn't found
/// yet is at `base + k`.
#[derive(Clone, Copy)]
pub(crate) struct Window {
    pub(crate) base: usize,
    pub(crate) end: usize,
    pub(crate) marks: u64,
}

impl Window {
    /// Returns the empty window at the start of a text.
    pub(crate) fn new() -> Window
        ensures { result ≡ record { base = 0; end = 0; marks = 0 } }
    {
        Window {
            base: 0,
            end: 0,
            marks: 0,
        }
    }
}

/// Returns the offset of the first `@` from `from` on, and the window in which the next one is
/// searched for.
#[inline(always)]
pub(crate) fn next_sign(text: &[u8], window: Window, from: usize) -> Option<(usize, Window)>
    requires { IsWindow text.now window.base window.end window.marks from }
    ensures found { IfSome result (λ p. HasNextAt text.now from p.0) }
    ensures later { IfSome result (λ p. IsWindow text.now p.1.base p.1.end p.1.marks (p.0 + 1)) }
    ensures no_sign { IfNone result (HasNoAt (drop from text.now)) }
{
    let mut window = window;
    while window.marks == 0 {
        if text.len() - window.end < WIDTH {
            return last_sign(text, window.end);
        }
        window = window_at(text, window.end);
    }
    let bit = lowest(window.marks);
    let later = Window {
        base: window.base,
        end: window.end,
        marks: without(window.marks, bit),
    };
    Some((window.base + bit, later))
}

/// Returns the same from `from` on, if fewer bytes are left than a window has.
fn last_sign(text: &[u8], from: usize) -> Option<(usize, Window)>
    requires { from ≤ length text.now }
    ensures found { IfSome result (λ p. HasNextAt text.now from p.0) }
    ensures later { IfSome result (λ p. IsWindow text.now p.1.base p.1.end p.1.marks (p.0 + 1)) }
    ensures no_sign { IfNone result (HasNoAt (drop from text.now)) }
{
    let ahead = memchr(b'@', &text[from..])?;
    let at = from + ahead;
    Some((
        at,
        Window {
            base: at + 1,
            end: at + 1,
            marks: 0,
        },
    ))
}

/// Returns the window of the bytes from `base` on.
#[inline(always)]
fn window_at(text: &[u8], base: usize) -> Window
    requires { base + 64 ≤ length text.now }
    ensures base { result.base ≡ base }
    ensures end { result.end ≡ base + 64 }
    ensures window { IsWindow text.now result.base result.end result.marks base }
{
    Window {
        base,
        end: base + WIDTH,
        marks: marks(&text[base..]),
    }
}

/// Returns marks in which bit k is set if byte k is `@`.
#[inline(always)]
fn marks(text: &[u8]) -> u64
    requires { 64 ≤ length text.now }
    ensures { (k : ℕ) → k < 64 → (bit_at result k ≡ 1) ↔ (slice_index text.now k ≡ 64) }
{
    u8x64::from_slice(text)
        .simd_eq(u8x64::splat(b'@'))
        .to_bitmask()
}

/// Returns the index of the lowest bit that is set.
#[inline(always)]
fn lowest(marks: u64) -> usize
    requires { marks ≢ 0 }
    ensures bound { result < 64 }
    ensures set { bit_at marks result ≡ 1 }
    ensures below { (k : ℕ) → k < result → bit_at marks k ≡ 0 }
{
    marks.trailing_zeros() as usize
}

/// Returns the marks with one bit cleared.
#[inline(always)]
fn without(marks: u64, bit: usize) -> u64
    requires { bit < 64 }
    ensures cleared { bit_at result bit ≡ 0 }
    ensures kept { (k : ℕ) → k < 64 → k ≢ bit → bit_at result k ≡ bit_at marks k }
{
    marks & !(1 << bit)
}
