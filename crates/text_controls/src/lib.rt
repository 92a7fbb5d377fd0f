//! Text as a terminal may be given it: control bytes are written as `\xNN`, so that no text drives
//! the terminal, and so are the last bytes of characters that turn or hide text.
//!
//! ```text
//! let mut output = Shown::new(rt.stdout(), rt.stdout().is_terminal());
//! output.write_all(b"a\x1b[2Jb\n")?;         // a\x1b[2Jb
//! ```
//!
//! A newline and a tab stay as they are, and so do the characters of UTF-8, also if a character's
//! bytes are handed over by two calls. A control byte is one below 0x20, 0x7f, or one from 0x80 to
//! 0x9f that continues no character of UTF-8. Of a character that turns or hides text, which is
//! U+061C, U+200B to U+200F, U+2028 to U+202E, U+2066 to U+2069, U+FEFF or U+E0000 to U+E007F, the last
//! byte is written as `\xNN`, so that a terminal doesn't get the character.
//!
//! "own" marks a rule that no manual gives.
//!
//! `specs/Form.antt` defines the form of a text that is shown. In the code, read `escaping`,
//! `awaited` and then `stream`, which has [`Shown`].
#![tactic(auto)]

mod awaited;
mod escaping;
mod stream;

pub use awaited::is_mark;
pub use escaping::escape;
pub use stream::Shown;
