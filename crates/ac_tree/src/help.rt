//! Lines of help.

ghost use Rattle.std.specs.Prelude.{◌≡◌, List, [], ◌∷◌, ◌++◌, IfOk, OnOk, OnErr};
ghost use Rattle.ac_tree.specs.declared.help.Help.{Help};

use deftable::Bytes;
use std::alloc::{AllocError, Global};
use std::marker::Model;

/// The help that a source gives for an option or a variable (Autoconf's manual, "Making Your Help
/// Strings Look Pretty").
#[derive(Drop)]
pub enum Help {
    /// The option or the variable, and its purpose: `AS_HELP_STRING(left, right)`, and AC_ARG_VAR.
    Columns { left: Bytes, right: Bytes },
    /// A text with a layout of its own. If it is empty, nothing is printed.
    Text { text: Bytes },
}

impl Help {
    /// Copies the help.
    pub fn copy(&self, alloc: Global) -> Result<Help, AllocError>
        ensures { IfOk result (λ h. h ≡ self.now) }
    {
        match self {
            Help::Columns { left, right } => {
                let left = left.copy(alloc)?;
                let right = right.copy(alloc)?;
                Ok(Help::Columns { left, right })
            }
            Help::Text { text } => {
                let text = text.copy(alloc)?;
                Ok(Help::Text { text })
            }
        }
    }
}

/// The help for the options and variables of a source, in the order of the source.
pub struct HelpList {
    entries: Vec<Help>,
}

impl Drop for HelpList {
    fn drop(self) {
        let HelpList { entries: _entries } = self;
    }
}

impl Model for HelpList {
    ghost Value = { List Help };

    ghost view = { λ h. h.entries.items };
}

impl HelpList {
    /// Returns an empty list.
    pub fn new(alloc: Global) -> HelpList
        ensures { result ≡ [] }
    {
        HelpList {
            entries: Vec::new(alloc),
        }
    }

    /// Appends help. If memory runs out, the help is dropped.
    pub fn push(&mut self, help: Help) -> Result<(), AllocError>
        ensures ok { OnOk result (self.new ≡ self.old ++ help ∷ []) }
        ensures err { OnErr result (self.new ≡ self.old) }
    {
        self.entries.push(help)?;
        Ok(())
    }

    /// Returns the entries, in order.
    pub fn as_slice(&self) -> &[Help]
        ensures { result.now ≡ self.now }
    {
        self.entries.as_slice()
    }
}
