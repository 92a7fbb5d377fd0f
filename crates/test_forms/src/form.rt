//! What a test is made of: a try, which values say that it is found, and what it gives.

ghost use Rattle.std.specs.Prelude.{◌≡◌};
ghost use Rattle.test_forms.specs.Macros.{given_if};

use deftable::Bytes;

/// A program that a test compiles or links. Its text is made when its turn comes.
#[derive(Drop)]
pub enum Snippet {
    /// Includes the header that is looked for, and is compiled.
    Header,
    /// Calls the function that is looked for, and is linked.
    Function,
    /// Is that of `Function`, linked with this library and then the others.
    Library { library: Bytes },
    /// Has this text in `main`, after the includes, and is compiled.
    Body { text: Bytes },
}

/// A try of a test. If the child's success is `ends_on`, the test ends with the value.
#[derive(Drop)]
pub struct TryForm {
    pub snippet: Snippet,
    pub ends_on: bool,
    pub value: Bytes,
}

/// Which values say that a test has found what it looks for.
#[derive(Drop)]
pub enum Says {
    Yes,
    AllButNo,
}

/// What a test does with its value.
#[derive(Drop)]
pub enum Gives {
    Nothing,
    /// Defines `HAVE_` and this text as 1, if the test has found what it looks for.
    Have { what: Bytes },
    /// Defines `HAVE_` and this text, as 1 if the test has found what it looks for, and as 0 if it
    /// hasn't.
    HaveOrNot { what: Bytes },
    /// Defines `HAVE_LIB` and this text as 1, and puts `-l` and this text before LIBS, if the test
    /// has found what it looks for.
    AddsLibrary { library: Bytes },
    /// Puts the value before LIBS, if the test has found what it looks for, unless the value is
    /// `none required`.
    AddsValue,
}

impl Gives {
    /// Returns this if `gives` is true, and otherwise `Nothing`.
    pub fn only_if(self, gives: bool) -> Gives
        ensures { result ≡ given_if gives self }
    {
        if gives { self } else { Gives::Nothing }
    }
}
