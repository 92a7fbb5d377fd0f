//! The trait of what knows why children were refused.

ghost use Rattle.std.specs.Prelude.{◌≡◌, ℕ, List, Option, IfSome, option_map};
ghost use Rattle.crew_refusals.specs.Shown.{IsShown};

/// Knows why the starts and ends of children were refused.
pub trait Causes {
    // The line that says why the child of a number was refused, if there is one.
    ghost known: { Self → ℕ → Option (List ℕ) };

    /// Returns why the start or the end of the child of this number was refused, or `None` if that
    /// is not known.
    ///
    /// Children are counted from 1 in the order of the attempts to start them. The cause is a line
    /// without a newline at its end.
    fn cause(&self, child: u64) -> Option<&[u8]>
        ensures cause { option_map (λ line. line.now) result ≡ known self.now child }
        ensures shown { IfSome result (λ cause. IsShown cause.now) };
}
