//! How far replies are taken.

/// How far replies are taken from the records.
#[derive(Clone, Copy)]
pub(crate) enum State {
    /// No job differed yet.
    Open,
    /// A job differed from the one that the records have at its number.
    Differed,
    /// Memory ran out.
    Lacked,
}
