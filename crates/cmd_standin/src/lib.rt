//! The stand-in for a compiler, which tests of configure runs name in `CC` (own).
//!
//! With the words `-c` and `conftest1.c`, [`standin`] compiles nothing. It answers 1 if a line of
//! the file `standin.txt` occurs in the program, and 0 otherwise. So `#include <b.h>` in that file
//! says that there is no header `b.h`.
//!
//! Read `specs/Standin.antt` for its answers, then `texts` (the files that it reads), `meeting` (the
//! files that it makes) and `answer`.
#![tactic(auto)]

pub mod answer;
mod meeting;
mod texts;

pub use answer::standin;
pub use meeting::{Meeting, MeetingFiles};
