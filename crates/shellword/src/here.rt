//! Here texts: messages, values and programs in which variables are replaced.

ghost use Rattle.std.specs.Prelude.{◌≡◌, List, Ok, length, IfOk, IfErr};
ghost use Rattle.shellword.specs.Faults.{IsWordFault};
ghost use Rattle.shellword.specs.Gives.{Gives};
ghost use Rattle.shellword.specs.Scan.{here_of};
ghost use Rattle.shellword.specs.Value.{word_value};
ghost use Rattle.shellword.specs.Word.{IsHere};
ghost use Rattle.shellword.specs.WordFaults.{IsBadHere, IsRefusal};
ghost use Rattle.shellword.specs.declared.part.Part.{Part};

use crate::fault::ShellFault;
use crate::front::Context;
use crate::part::Part;
use crate::run::read_run;
use crate::value::value_of_parts;
use deftable::{Bytes, Vars};
use std::alloc::{AllocError, Global};
use std::marker::Model;

/// A text in which variables are replaced, as in a shell's here-document. In contracts, its value
/// is the list of its parts.
pub struct HereText {
    parts: Vec<Part>,
}

impl Drop for HereText {
    fn drop(self) {
        let HereText { parts: _parts } = self;
    }
}

impl Model for HereText {
    ghost use Rattle.std.specs.Prelude.{List};
    ghost use Rattle.shellword.specs.declared.part.Part.{Part};

    ghost Value = { List Part };

    ghost view = { λ h. h.parts.items };
}

#[tactic(auto, unfolding(crate::specs::Scan::here_of))]
fn read_parts(alloc: Global, text: &[u8]) -> Result<HereText, ShellFault>
    ensures exact { Gives (λ h. h) result (here_of text.now) }
    ensures fault { IfErr result (IsWordFault (length text.now)) }
{
    let (parts, _) = read_run(alloc, text, 0, Context::Here)?;
    Ok(HereText { parts })
}

/// Reads a here text (POSIX shell, 2.7.4).
///
/// `$name` and `${name}` are a variable's value. A backslash is dropped before `$`, a backquote, a
/// backslash or a newline, and the newline is dropped with it. Quotes have no meaning.
///
/// # Errors
///
/// Returns [`ShellFault::BadWord`] with the offset of the first backquote that no backslash quotes,
/// or of the first `$` that a shell expands and that begins neither `$name` nor `${name}`.
pub fn read_here(alloc: Global, text: &[u8]) -> Result<HereText, ShellFault>
    // The result as one function of the text.
    ensures exact { Gives (λ h. h) result (here_of text.now) }
    // If parts are returned, they are those of the here text.
    ensures sound { IfOk result (IsHere text.now) }
    // If the text is a here text, its parts are returned unless memory runs out.
    ensures complete { (parts : List Part) → IsHere text.now parts
        → Gives (λ h. h) result (Ok parts) }
    // If an error is returned, the text isn't a here text because of the byte at that offset, or
    // memory ran out.
    ensures error_sound { IfErr result (IsRefusal (IsBadHere text.now)) }
    ensures fault { IfErr result (IsWordFault (length text.now)) }
{
    read_parts(alloc, text)
}

impl HereText {
    /// Returns the parts of the text, in order.
    pub fn parts(&self) -> &[Part]
        ensures { result.now ≡ self.now }
    {
        self.parts.as_slice()
    }

    /// Returns the text with each variable replaced by its value (POSIX shell, 2.6.2). An unset
    /// variable is empty, and a value is never read again.
    pub fn value(&self, alloc: Global, vars: &Vars) -> Result<Bytes, AllocError>
        ensures { IfOk result (λ v. v ≡ word_value self.now vars.now) }
    {
        value_of_parts(alloc, &self.parts, vars)
    }
}
