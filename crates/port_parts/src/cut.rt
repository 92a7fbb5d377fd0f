//! Where the words of a compound statement are.

/// A branch of an `if`.
#[derive(Clone, Copy)]
pub struct IfBranch {
    /// The offset after `if` or `elif`.
    pub start: usize,
    /// The offset of `then`.
    pub at_then: usize,
    /// The offset of the word after the branch.
    pub end: usize,
}

/// An `if` by the offsets of its words.
#[derive(Drop)]
pub struct IfCut {
    /// The offset of `if`.
    pub start: usize,
    pub branches: Vec<IfBranch>,
    /// The offset of `else`, if there is one.
    pub at_else: Option<usize>,
    /// The offset of `fi`.
    pub at_fi: usize,
    /// The offset after `fi`.
    pub end: usize,
}

/// A branch of a `case`.
#[derive(Clone, Copy)]
pub struct CaseBranch {
    /// The offset of the parenthesis after its patterns.
    pub at_close: usize,
    /// The offset of the `;;` after its body, or that of `esac` if there is none.
    pub end: usize,
}

/// A `case` by the offsets of its words.
#[derive(Drop)]
pub struct CaseCut {
    /// The offset of `case`.
    pub start: usize,
    /// The offset of `in`.
    pub at_in: usize,
    pub branches: Vec<CaseBranch>,
    /// The offset of `esac`.
    pub at_esac: usize,
    /// The offset after `esac`.
    pub end: usize,
}

/// A statement that a condition guards, by the offsets of its parts.
#[derive(Clone, Copy)]
pub struct GuardCut {
    /// The offset of the condition.
    pub start: usize,
    /// The offset of the last `&&` or `||`.
    pub at_joint: usize,
    /// The offset after the statement.
    pub end: usize,
}

/// A `for` by the offsets of its words.
#[derive(Clone, Copy)]
pub struct ForCut {
    /// The offset of `for`.
    pub start: usize,
    /// The offset of `in`.
    pub at_in: usize,
    /// The offset of `do`.
    pub at_do: usize,
    /// The offset of `done`.
    pub at_done: usize,
    /// The offset after `done`.
    pub end: usize,
}

/// An assignment to a variable of its own value, or of a word if that is empty.
#[derive(Clone, Copy)]
pub struct DefaultOf<'a> {
    /// The name of the variable.
    pub name: &'a [u8],
    pub word: &'a [u8],
}
