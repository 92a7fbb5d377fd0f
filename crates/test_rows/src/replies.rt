//! Replies of children, and the orders in which children end, as rows and cases write them.

use crate::table::cut;
use crate::texts::number_of;

/// What a word says of a child.
#[derive(Clone, Copy)]
pub enum ReplyWord<'a> {
    /// It ended with this exit status and these diagnostics: `STATUS`, or `STATUS:TEXT`. The status
    /// 256 is that of a signal.
    Answer { status: u32, text: &'a [u8] },
    /// Its start is refused: `S`.
    StartRefused,
    /// Its end is refused: `E`.
    EndRefused,
}

/// Returns whether a text has digits alone, and at least one.
fn is_number(text: &[u8]) -> bool {
    for byte in text {
        if !byte.is_ascii_digit() {
            return false;
        }
    }
    !text.is_empty()
}

fn answer_word(word: &[u8]) -> Option<ReplyWord<'_>> {
    let (status, text) = cut(word, b":");
    if !is_number(status) {
        return None;
    }
    Some(ReplyWord::Answer {
        status: number_of(status).min(256) as u32,
        text,
    })
}

/// Returns the reply that a word is. Any other word is none.
pub fn reply_word(word: &[u8]) -> Option<ReplyWord<'_>> {
    match word {
        b"S" => Some(ReplyWord::StartRefused),
        b"E" => Some(ReplyWord::EndRefused),
        _ => answer_word(word),
    }
}

/// In which order children end.
#[derive(Clone, Copy)]
pub enum EndOrder<'a> {
    /// The oldest first: `oldest`, or nothing.
    Oldest,
    /// The youngest first: `youngest`.
    Youngest,
    /// The child in each of these slots, with blanks between them.
    Slots(&'a [u8]),
}

/// Returns the order that a text is.
pub fn end_order(text: &[u8]) -> EndOrder<'_> {
    match text {
        b"" | b"oldest" => EndOrder::Oldest,
        b"youngest" => EndOrder::Youngest,
        slots => EndOrder::Slots(slots),
    }
}
