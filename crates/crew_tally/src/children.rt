//! What counts children.

ghost use Rattle.std.specs.Prelude.{◌≡◌, ℕ};

/// Counts the children that it starts.
pub trait Children {
    // The number of children that were started so far.
    ghost started: { Self → ℕ };

    /// Returns how many children were started so far.
    fn children(&self) -> u64
        ensures { result ≡ started self.now };
}
