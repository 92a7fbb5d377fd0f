//! What is put in a place.

/// What is put in a place, and how it is shown.
#[derive(Clone, Copy)]
pub enum WordPart<'a> {
    /// The text as it is.
    AsItIs(&'a [u8]),
    /// A text of the user between backquotes, with control bytes as `\xNN`. One of more than 60
    /// bytes is cut.
    Quoted(&'a [u8]),
    /// The value of a variable between backquotes, with control bytes as `\xNN`. One of more than
    /// 1,000 bytes is cut.
    Value(&'a [u8]),
    /// The number in decimal digits.
    Number(usize),
}
