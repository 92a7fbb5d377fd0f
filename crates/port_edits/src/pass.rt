//! A text that is written while another is read.

ghost use Rattle.std.specs.Prelude.{◌≡◌, ◌≤◌, ◌++◌, [], ℕ, List, true, map, length, slice_range, codes, IfOk, OnOk, IsTrue};
ghost use Rattle.port_edits.specs.Edits as specs;

use crate::edit::Edit;
use std::alloc::{AllocError, Global};

/// A text that is written while another is read.
#[derive(Drop)]
pub struct Pass {
    /// What was written.
    pub out: Vec<u8>,
    /// How much was read.
    pub at: usize,
    /// Whether anything was replaced.
    pub has_changed: bool,
}

impl Pass {
    /// Returns the start of a pass.
    pub fn new(alloc: Global) -> Pass
        // Nothing is read, and nothing is written.
        ensures { (result.at ≡ 0) × (result.out.items ≡ []) }
    {
        Pass {
            out: Vec::new(alloc),
            at: 0,
            has_changed: false,
        }
    }
}

/// Copies what is before a change, and writes the change.
///
/// # Errors
///
/// Fails only if memory runs out.
pub fn write_change(
    text: &[u8],
    start: usize,
    end: usize,
    put: &[u8],
    pass: &mut Pass,
) -> Result<(), AllocError>
    requires { (pass.old.at ≤ start) × (start ≤ length text.now) }
    ensures { OnOk result (
        (pass.new.at ≡ end)
        × (pass.new.out.items
        ≡ (pass.old.out.items ++ slice_range text.now pass.old.at start) ++ put.now)) }
{
    pass.out.extend_from_slice(&text[pass.at..start])?;
    pass.out.extend_from_slice(put)?;
    pass.at = end;
    pass.has_changed = true;
    Ok(())
}

/// Returns whether an edit begins at an offset or after it, and is within the text.
fn fits(text: &[u8], at: usize, edit: &Edit) -> bool
    ensures { result ≡ specs.fits text.now at (specs.change_of edit.now) }
{
    at <= edit.start && edit.start <= edit.end && edit.end <= text.len()
}

/// Makes an edit, unless it begins before the end of what was read, or is not within the text.
///
/// # Errors
///
/// Fails only if memory runs out.
pub fn make(text: &[u8], edit: &Edit, pass: &mut Pass) -> Result<(), AllocError>
    ensures { OnOk result (
        specs.IsStep text.now pass.old.at pass.old.out.items (specs.change_of edit.now) pass.new.at
        pass.new.out.items) }
{
    if !fits(text, pass.at, edit) {
        return Ok(());
    }
    write_change(text, edit.start, edit.end, edit.put.as_slice(), pass)
}

/// Copies the rest of a text.
///
/// # Errors
///
/// Fails only if memory runs out.
pub fn finish(text: &[u8], pass: &mut Pass) -> Result<(), AllocError>
    requires { pass.old.at ≤ length text.now }
    ensures { OnOk result (
        pass.new.out.items
        ≡ pass.old.out.items ++ slice_range text.now pass.old.at (length text.now)) }
{
    pass.out.extend_from_slice(&text[pass.at..text.len()])
}

/// Makes each edit that can be made.
fn make_each(text: &[u8], edits: &[Edit], pass: &mut Pass) -> Result<(), AllocError>
    requires { pass.old.at ≤ length text.now }
    ensures { OnOk result ((pass.new.at ≤ length text.now)
        × (pass.new.out.items ++ slice_range text.now pass.new.at (length text.now)
        ≡ pass.old.out.items
        ++ specs.with_changes text.now pass.old.at (
        specs.kept text.now pass.old.at (map specs.change_of edits.now)))) }
{
    for i in 0..edits.len() {
        make(text, &edits[i], pass)?;
    }
    Ok(())
}

/// Returns the text with the edits, in their order, without those that begin before the end of the
/// one that was made last, or are not within the text.
///
/// # Errors
///
/// Fails only if memory runs out.
pub fn edited(alloc: Global, text: &[u8], edits: &[Edit]) -> Result<Vec<u8>, AllocError>
    ensures { IfOk result (λ v.
        v.items
        ≡ specs.with_changes text.now 0 (specs.kept text.now 0 (map specs.change_of edits.now))) }
{
    let mut pass = Pass::new(alloc);
    make_each(text, edits, &mut pass)?;
    finish(text, &mut pass)?;
    let Pass { out, .. } = pass;
    Ok(out)
}

/// States what the definitions promise.
#[tactic(auto, using(crate::proofs::Steps::kept_apart, crate::proofs::Steps::apart_kept))]
pub fn laws()
    // Edits that are made are in order and apart.
    ensures apart { (text : List ℕ) (at : ℕ) (changes : List specs.Change) → at ≤ length text
        → specs.AreApart text at (specs.kept text at changes) }
    // Edits that are in order and apart are all made.
    ensures kept { (text : List ℕ) (at : ℕ) (changes : List specs.Change)
        → specs.AreApart text at changes → specs.kept text at changes ≡ changes }
{}

/// States what the example of the definitions becomes.
#[tactic(auto, unfolding(crate::specs::Edits::kept, crate::specs::Edits::with_changes))]
pub fn example()
    ensures { specs.with_changes (codes "a b c") 0 (specs.kept (codes "a b c") 0 specs.example)
        ≡ codes "a B C" }
{}
