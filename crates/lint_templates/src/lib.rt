//! Warnings about the templates of a source: names that nothing gives a value, and lines that do
//! something else here than with Autoconf.
//!
//! ```text
//! let given = Given::of(alloc, &source)?;
//! warn_of_file(alloc, &given, 1, b"prefix = @prefx@\n", &mut found)?;   // @prefx@ is no output variable; is it @prefix@?
//! warn_of_header(alloc, &given, 2, b"#undef HAVE_X\n", &mut found)?;    // nothing defines HAVE_X
//! ```
//!
//! "own" marks a rule that no manual gives.
//!
//! [`Given`], in `given`, is what a source gives its templates. `files` reads the templates of
//! files, `headers` those of headers, and `outputs` finds an output that a run reads. `advice` has what is said of names that Autoconf sets and
//! acrun doesn't, and `messages` writes the messages.
#![tactic(auto)]

mod advice;
mod files;
mod given;
mod headers;
mod messages;
mod outputs;
mod rules;
mod served;
mod shape;
mod wanted;

pub use files::{left_in_made, warn_of_file};
pub use given::Given;
pub use headers::{add_listed, warn_of_header, warn_of_unlisted};
pub use outputs::{span_of_output, warn_of_outputs};
pub use served::put_served;
pub use shape::Shape;
pub use wanted::{add_wanted, wants_flags};
