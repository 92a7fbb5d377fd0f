//! What the test crates share: a page that answers are written on, tables of rows that are tried,
//! the form of a file of cases (`casefile`, and `texts` for its escapes), texts as answers have
//! them (`escaped`), what a reply and an order of ends are (`replies`), and rows whose texts are
//! much longer than a row (`sizes`).
//!
//! A row is a line: a text, ` =>`, a blank, and what a call answers to the text. Nothing is after
//! ` =>` if the answer is empty. An empty line is no row, nor is a line that begins with `// `. `^`
//! and a letter are a control byte, as in `^J` for a newline.
//!
//! Nothing here has a clause: what a test sees is compared when it runs. A call writes its answer
//! on the page without errors, since each exit of a function makes its proof longer.
#![tactic(auto)]

pub mod casefile;
pub mod directory;
pub mod escaped;
pub mod page;
pub mod replies;
mod sizes;
pub mod table;
pub mod texts;

pub use casefile::{Case, Section, next_case, next_section, read_file};
pub use directory::try_rows_in;
pub use page::Page;
pub use replies::{EndOrder, ReplyWord, end_order, reply_word};
pub use sizes::Large;
pub use table::{Named, RowCall, cut, put_differences, put_fronts, try_rows, try_tables};
pub use texts::number_of;
