//! Blank texts, and arguments by their index.

ghost use Rattle.std.specs.Prelude.{◌≡◌, map};
ghost use Rattle.m4quote.specs.ItemValue.{span};
ghost use Rattle.ac_statement.specs.Texts as texts;

use m4quote::Arg;
use text_cut::is_blank;

/// Returns the argument at `i`, or an empty one at offset 0 if there is none.
pub fn arg_at<'a>(args: &[Arg<'a>], i: usize) -> Arg<'a>
    ensures { span result ≡ texts.arg_at (map span args.now) i }
{
    if i < args.len() {
        args[i]
    } else {
        Arg { text: b"", at: 0 }
    }
}

/// Returns whether the text has blanks alone: spaces, tabs and newlines.
pub fn is_all_blank(text: &[u8]) -> bool
    ensures { result ≡ texts.is_all_blank text.now }
{
    text.iter().all(|byte| is_blank(*byte))
}
