//! The macros that a source defines.

use crate::calls::last_name;
use deftable::Bytes;
use lint_table::{Page, keys};
use lint_text::{after_blanks, first_name};
use std::alloc::{AllocError, Global};
use std::collections::BTreeSet;

/// The macros whose first argument is the name of a macro that they define.
const DEFINING: [&[u8]; 6] = [
    b"AC_DEFUN",
    b"AC_DEFUN_ONCE",
    b"AU_DEFUN",
    b"define",
    b"m4_define",
    b"m4_defun",
];

/// Returns whether a text ends with the name of a macro that defines another one.
fn ends_with_defining(text: &[u8]) -> bool {
    let name = last_name(text);
    DEFINING.iter().any(|other| *other == name)
}

/// Returns the name that a first argument begins with, perhaps after a bracket.
fn name_in(argument: &[u8]) -> &[u8] {
    match after_blanks(argument) {
        [b'[', inside @ ..] => first_name(inside),
        bare => first_name(bare),
    }
}

/// Adds the name that a first argument begins with.
fn add_name(
    alloc: Global,
    argument: &[u8],
    names: &mut BTreeSet<Vec<u8>>,
) -> Result<(), AllocError> {
    let name = Vec::from_slice(alloc, name_in(argument))?;
    let _ = names.insert(name)?;
    Ok(())
}

/// The names of the macros that a source defines.
#[derive(Drop)]
pub struct Definitions {
    names: BTreeSet<Vec<u8>>,
}

impl Definitions {
    /// Returns those of a source, as far as it has their names in the calls that define them.
    ///
    /// # Errors
    ///
    /// Fails only if memory runs out.
    pub fn of(alloc: Global, text: &[u8]) -> Result<Definitions, AllocError> {
        let mut names = BTreeSet::new(alloc);
        let mut defines = false;
        for part in text.split(|byte| *byte == b'(') {
            if defines {
                add_name(alloc, part, &mut names)?;
            }
            defines = ends_with_defining(part);
        }
        Ok(Definitions { names })
    }

    /// Returns the help of a macro with this name that acrun doesn't know, if the source defines it.
    ///
    /// # Errors
    ///
    /// Fails only if memory runs out.
    pub fn help_of(&self, alloc: Global, name: &[u8]) -> Result<Option<Bytes>, AllocError> {
        if !self.names.contains(name) {
            return Ok(None);
        }
        let mut page = Page::new(alloc);
        page.put(keys::DEFINED_MACRO, &[]);
        page.help().map(|help| Some(help))
    }
}
