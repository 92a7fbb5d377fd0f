//! What m4 has open at a place.

ghost use Rattle.std.specs.Prelude.{◌≡◌, ◌≤◌, length};
ghost use Rattle.m4quote.specs.Text as bytes;
ghost use Rattle.lint_marks.specs.Quotes as specs;

/// What m4 reads at a place.
#[derive(Clone, Copy)]
pub enum QuotePart {
    /// Text, quoted or not.
    Text,
    /// A comment, in which brackets don't quote.
    Comment,
    /// A line that `dnl` drops.
    Dropped,
}

/// What m4 has open at a place.
#[derive(Clone, Copy)]
pub struct Quotes {
    /// The number of brackets that are open, which is counted up to 255.
    pub depth: u8,
    /// What the place is in.
    pub part: QuotePart,
    /// Whether the byte before the place is one of a word.
    pub is_name: bool,
}

/// Returns whether a byte is a letter, a digit or `_`.
fn is_word_byte(byte: u8) -> bool
    ensures { result ≡ bytes.is_word_byte byte }
{
    byte.is_ascii_alphanumeric() || byte == b'_'
}

/// Returns the length of the word that a text begins with.
fn word_len(text: &[u8]) -> usize
    ensures value { result ≡ bytes.word_len text.now }
    ensures within { result ≤ length text.now }
{
    text.iter().take_while(|byte| is_word_byte(**byte)).count()
}

/// Returns the word that a text begins with.
fn word(text: &[u8]) -> &[u8]
    ensures { result.now ≡ bytes.word text.now }
{
    &text[..word_len(text)]
}

/// Returns whether a text begins with the word `dnl`.
fn begins_dnl(text: &[u8]) -> bool
    ensures { result ≡ specs.begins_dnl text.now }
{
    word(text) == b"dnl".as_slice()
}

/// Returns what is open after a byte of text.
fn after_text(depth: u8, byte: u8) -> Quotes
    ensures { result ≡ specs.after_text depth byte }
{
    let (depth, part, is_name) = match byte {
        b'[' => (depth.saturating_add(1), QuotePart::Text, false),
        b']' => (depth.saturating_sub(1), QuotePart::Text, false),
        b'#' if depth == 0 => (depth, QuotePart::Comment, false),
        _ => (depth, QuotePart::Text, is_word_byte(byte)),
    };
    Quotes {
        depth,
        part,
        is_name,
    }
}

/// Returns what is open after a byte of a comment or of a dropped line.
fn after_line(depth: u8, part: QuotePart, byte: u8) -> Quotes
    ensures { result ≡ specs.after_line depth part byte }
{
    let part = if byte == b'\n' { QuotePart::Text } else { part };
    Quotes {
        depth,
        part,
        is_name: false,
    }
}

impl Quotes {
    /// Returns what is open at the start of a text.
    pub fn new() -> Quotes
        ensures { result ≡ specs.none_open }
    {
        Quotes {
            depth: 0,
            part: QuotePart::Text,
            is_name: false,
        }
    }

    /// Returns whether the place is in text, and not in a comment or a dropped line.
    pub fn is_text(self) -> bool
        ensures { result ≡ specs.is_text self.part }
    {
        matches!(self.part, QuotePart::Text)
    }

    /// Returns whether m4 drops the line from this place on, at which the text begins.
    pub fn begins_dropped(self, text: &[u8]) -> bool
        ensures { result ≡ specs.begins_dropped self text.now }
    {
        self.is_text() && self.depth == 0 && !self.is_name && begins_dnl(text)
    }

    /// Returns whether a byte at this place is a bracket of the outermost quotes, which m4 removes.
    pub fn is_outer_bracket(self, byte: u8) -> bool
        ensures { result ≡ specs.is_outer_bracket self byte }
    {
        self.is_text() && (byte == b'[' && self.depth == 0 || byte == b']' && self.depth == 1)
    }

    /// Returns whether m4 takes the first byte of the text at this place away: it is one of a dropped
    /// line, or a bracket that m4 removes.
    pub fn is_removed(self, byte: u8, text: &[u8]) -> bool
        ensures { result ≡ specs.is_removed self byte text.now }
    {
        matches!(self.part, QuotePart::Dropped)
            || self.begins_dropped(text)
            || self.is_outer_bracket(byte)
    }

    /// Returns what is open after a byte that begins no dropped line.
    fn after_byte(self, byte: u8) -> Quotes
        ensures { result ≡ specs.after_byte self byte }
    {
        match self.part {
            QuotePart::Text => after_text(self.depth, byte),
            part => after_line(self.depth, part, byte),
        }
    }

    /// Returns what is open after the first byte of the text that begins at this place.
    pub fn after(self, text: &[u8]) -> Quotes
        ensures { result ≡ specs.after self text.now }
    {
        match text {
            [] => self,
            [byte, ..] => {
                if self.begins_dropped(text) {
                    return Quotes {
                        depth: 0,
                        part: QuotePart::Dropped,
                        is_name: false,
                    };
                }
                self.after_byte(*byte)
            }
        }
    }
}
