//! Where the words of a statement are.

ghost use Rattle.std.specs.Prelude.{◌≡◌};
ghost use Rattle.port_statements.specs.Statements as specs;

use port_parts::{CaseCut, ForCut, GuardCut, IfCut};

/// A statement by the offsets of its words.
#[derive(Drop)]
pub enum StatementCut {
    If(IfCut),
    Case(CaseCut),
    Guard(GuardCut),
    /// An assignment to a variable of its own value, or of a word if that is empty.
    Default(GuardCut),
    For(ForCut),
    /// The offset of an `echo`, an `exit`, an `unset` or an `export`.
    Line(usize),
}

impl StatementCut {
    /// Returns the offset of its first byte.
    pub fn start(&self) -> usize
        ensures { result ≡ specs.start_of self.now }
    {
        match self {
            StatementCut::If(cut) => cut.start,
            StatementCut::Case(cut) => cut.start,
            StatementCut::Guard(cut) => cut.start,
            StatementCut::Default(cut) => cut.start,
            StatementCut::For(cut) => cut.start,
            StatementCut::Line(at) => *at,
        }
    }

    /// Returns the offset after its last byte. Of a line only the first byte of its command is known.
    pub fn end(&self) -> usize {
        match self {
            StatementCut::If(cut) => cut.end,
            StatementCut::Case(cut) => cut.end,
            StatementCut::Guard(cut) => cut.end,
            StatementCut::Default(cut) => cut.end,
            StatementCut::For(cut) => cut.end,
            StatementCut::Line(at) => *at,
        }
    }
}

/// What is around a statement, or at its words, that keeps it from being rewritten.
#[derive(Clone, Copy)]
pub enum Obstacle {
    /// A loop, braces or parentheses that begin at this offset.
    Other(usize),
    /// The condition of an `if`, or the word of a `case`.
    Condition,
    /// Another command, to which it is joined.
    Command,
    /// A call before it on its line.
    Call,
    /// The head of a function, whose body it is.
    Function,
    /// Brackets around one of its words.
    Brackets,
}

/// An `if` or a `case` that isn't rewritten, whatever its parts are.
#[derive(Drop)]
pub struct Kept {
    pub cut: StatementCut,
    pub around: Option<Obstacle>,
    /// The offset of the first loop, brace or parenthesis in it.
    pub at_other: Option<usize>,
}
