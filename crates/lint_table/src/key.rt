//! What is said, before its places are filled.

ghost use Rattle.std.specs.Prelude.{◌≡◌};
ghost use Rattle.lint_table.specs.Keys as words;

/// What is said of something that is wrong: its name, its message and its help. A message and help
/// may have places for parts, and may be empty.
#[derive(Clone, Copy)]
pub struct Key(
    pub(crate) &'static [u8],
    pub(crate) &'static [u8],
    pub(crate) &'static [u8],
);

impl Key {
    /// Returns the name. It is the code of a finding that has no other code.
    pub fn name(self) -> &'static [u8]
        ensures { result.now ≡ words.name_of self }
    {
        self.0
    }

    /// Returns what is wrong, in one line.
    pub(crate) fn message(self) -> &'static [u8]
        ensures { result.now ≡ words.message_of self }
    {
        self.1
    }

    /// Returns what to do, in any number of lines.
    pub(crate) fn help(self) -> &'static [u8]
        ensures { result.now ≡ words.help_of self }
    {
        self.2
    }
}
