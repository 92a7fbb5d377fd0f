//! What the tests of crews share: a job in a row, its children over a crew (`children`), the
//! replies and the order of ends that a test gives (`replies`), streams that fail (`streams`), and
//! the parts of a row (`texts`).
#![tactic(auto)]

pub mod children;
pub mod replies;
pub mod streams;
pub mod texts;
