//! Which idioms are written.

/// Which idioms are written in the place of calls.
#[derive(Clone, Copy, PartialEq, Eq)]
pub enum Idioms {
    /// Those that are exact.
    Exact,
    /// Those that differ from their macros too, each below a comment that says in what.
    All,
}
