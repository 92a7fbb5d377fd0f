//! The parts of a source.

ghost use Rattle.std.specs.Prelude.{◌≡◌};
ghost use Rattle.ac_parts.specs.Shapes as specs;

/// What a part is. Those up to `Other` are made of other parts. The
/// others are leaves: up to `Right` they are spelled in one way.
#[derive(Clone, Copy)]
pub enum Kind {
    /// A source, which has one list.
    Source,
    /// Statements, and what is around them.
    List,
    /// The list of statements that an `if` or `elif` asks.
    Condition,
    /// Commands that `&&`, `||` and `|` join, or a single one.
    Statement,
    /// An `if`, up to its `fi`.
    If,
    /// A simple command: assignments, words and redirections.
    Command,
    /// A variable, a `=` and perhaps a word.
    Assignment,
    /// A word.
    Word,
    /// A `${NAME:-CONSTANT}`.
    Default,
    /// A call of a macro.
    Call,
    /// An argument, without the blanks before it.
    Argument,
    /// Entries with blanks between them.
    Words,
    /// What isn't understood.
    Other,
    /// A newline.
    Newline,
    /// A `;`.
    Semicolon,
    /// A `&`.
    Background,
    /// A `&&`.
    And,
    /// A `||`.
    Or,
    /// A `|`.
    Pipe,
    /// The word `if`.
    IfWord,
    /// The word `then`.
    Then,
    /// The word `elif`.
    Elif,
    /// The word `else`.
    Else,
    /// The word `fi`.
    Fi,
    /// The `=` of an assignment.
    Equals,
    /// A `${`.
    DefaultStart,
    /// A `:-`.
    DefaultSign,
    /// A `}`.
    DefaultEnd,
    /// The `(` of a call.
    Parenthesis,
    /// A `,` between arguments.
    Comma,
    /// The `)` of a call.
    CallEnd,
    /// The `[` of an argument.
    Left,
    /// The `]` of an argument.
    Right,
    /// Blanks within a line, which may go on after a backslash.
    Blank,
    /// Blanks and newlines.
    Gap,
    /// What redirects, as `>`.
    Redirect,
    /// A comment, without its newline.
    Comment,
    /// A line that m4 drops.
    Dropped,
    /// The name of a variable.
    Variable,
    /// Bytes of a word without a meaning of their own.
    Plain,
    /// Text in single quotes.
    Single,
    /// Text in double quotes.
    Double,
    /// A `$` with what it stands for.
    Dollar,
    /// A backslash and the byte after it.
    Escape,
    /// Text in backquotes.
    Substitution,
    /// Bytes that a shell takes as they are.
    Constant,
    /// The name of a macro.
    Name,
    /// The text of an argument.
    Text,
    /// An entry of a list of words.
    Entry,
    /// Bytes of what isn't understood.
    Raw,
}

impl Kind {
    /// Returns the number of the kind.
    pub fn code(self) -> u8
        ensures { result ≡ specs.code_of self }
    {
        self as u8
    }

    /// Returns whether parts of this kind have no parts within them.
    pub fn is_leaf(self) -> bool
        ensures { result ≡ specs.is_leaf self }
    {
        self.code() > 12
    }

    /// Returns whether two kinds are the same.
    pub fn is(self, other: Kind) -> bool
        ensures { result ≡ specs.is_kind self other }
    {
        self.code() == other.code()
    }
}

/// A part of a text. Offsets are counted in bytes from the start of the source.
#[derive(Clone, Copy)]
pub struct Part {
    /// What it is.
    pub kind: Kind,
    /// The offset of its first byte.
    pub start: usize,
    /// The offset after its last byte.
    pub end: usize,
    /// How many of the parts after it are within it.
    pub within: usize,
}
