//! Matches a pattern against a text.

ghost use Rattle.std.specs.Prelude.{◌≡◌, ◌↔◌, ◌≤◌, IsTrue, length, drop};
ghost use Rattle.shellword.specs.Matcher.{matching, step_of};
ghost use Rattle.shellword.specs.Matching.{Matches};

use crate::pattern::Piece;

/// The next step of the matcher.
pub(crate) enum Step {
    /// The next piece is a `*`.
    Star,
    /// The piece matches the next byte.
    Taken,
    /// No piece and no byte is left.
    End,
    /// The piece doesn't match what is left of the text.
    Stuck,
}

/// Returns the next step of the matcher if these pieces and this text are left.
fn next_step(pieces: &[Piece], text: &[u8]) -> Step
    ensures { result ≡ step_of pieces.now text.now }
{
    let Some((piece, _)) = pieces.split_first() else {
        return if text.is_empty() {
            Step::End
        } else {
            Step::Stuck
        };
    };
    match (*piece, text.split_first()) {
        (Piece::AnyBytes, _) => Step::Star,
        (Piece::OneByte, Some(_)) => Step::Taken,
        (Piece::Byte(byte), Some((first, _))) if *first == byte => Step::Taken,
        _ => Step::Stuck,
    }
}

/// Returns whether the pieces match the whole text. If the matcher is stuck, it goes back to the
/// last `*`, which then takes one byte more. It never has to go back to an earlier one.
pub(crate) fn match_pieces(pieces: &[Piece], text: &[u8]) -> bool
    ensures { result ≡ matching pieces.now text.now }
{
    let mut piece = 0;
    let mut at = 0;
    // After the last `*`: the index of the next piece, and the offset of the text for it.
    let mut star: Option<(usize, usize)> = None;
    // The label is for the proof only.
    'steps: loop {
        match next_step(&pieces[piece..], &text[at..]) {
            Step::Star => {
                piece += 1;
                star = Some((piece, at));
            }
            Step::Taken => {
                piece += 1;
                at += 1;
            }
            Step::End => return true,
            Step::Stuck => {
                let Some((first, start)) = star else {
                    return false;
                };
                if start == text.len() {
                    return false;
                }
                piece = first;
                at = start + 1;
                star = Some((first, at));
            }
        }
    }
}
