//! Programs that are tried.

use shellword::HereText;

/// How a program is tried (Autoconf's manual, "Running the Compiler" and the sections after it).
#[derive(Clone, Copy)]
pub enum Try {
    /// It is compiled.
    Compile,
    /// It is compiled and linked.
    Link,
    /// It is preprocessed.
    Preproc,
    /// It is linked, and the executable is run.
    Run,
}

/// The text of a program that is tried. In a prologue and in a whole text, each line
/// AC_INCLUDES_DEFAULT has been replaced by the default includes.
#[derive(Drop)]
pub enum Program {
    /// AC_LANG_PROGRAM: the text before `main`, and the text of its body.
    Program { prologue: HereText, body: HereText },
    /// AC_LANG_SOURCE: the whole text.
    Whole { text: HereText },
}
