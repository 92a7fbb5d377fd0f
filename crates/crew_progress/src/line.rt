//! The line of a terminal, and the text that is written for it.

ghost use Rattle.std.specs.Prelude.{◌≡◌, ◌++◌};
ghost use Rattle.crew_progress.specs.Progress as progress;

use crate::screen::{Text, empty, put};
use arrayvec::ArrayVec;
use itoa::Buffer;

/// The first column, and all that follows it erased (ECMA-48, CR and EL).
const ERASURE: [u8; 4] = *b"\r\x1b[K";

/// A line that is wider than the terminal is cut (DEC's private mode 7).
const WRAPPING_OFF: [u8; 5] = *b"\x1b[?7l";

/// A line that is wider than the terminal is continued below.
const WRAPPING_ON: [u8; 5] = *b"\x1b[?7h";

/// The text of a line, or a part of it.
pub(crate) type Line = ArrayVec<u8, 79>;

/// Returns the line after so many starts and ends, with what it says of a job.
fn line_of(started: u64, ended: u64, subject: &Line) -> Line
    ensures { result.items ≡ progress.line_of started ended subject.now.items }
{
    let mut screen = empty();
    let mut digits = Buffer::new();
    put(&mut screen, digits.format(started).as_bytes());
    put(&mut screen, b" started, ");
    put(&mut screen, digits.format(ended).as_bytes());
    put(&mut screen, b" ended:");
    put(&mut screen, subject.as_slice());
    screen.line
}

/// Returns the erasure.
fn erasure() -> Text
    ensures { result.items ≡ progress.erasure }
{
    let mut text = Text::new();
    let _fits = text.try_extend_from_slice(&ERASURE);
    text
}

/// Returns the erasure, and then the line, which isn't wrapped.
fn after_erasure(line: &Line) -> Text
    ensures { result.items
        ≡ progress.erasure ++ (progress.wrapping_off ++ line.now.items ++ progress.wrapping_on) }
{
    let mut text = erasure();
    let _fits = text.try_extend_from_slice(&WRAPPING_OFF);
    let _fits = text.try_extend_from_slice(line.as_slice());
    let _fits = text.try_extend_from_slice(&WRAPPING_ON);
    text
}

/// Returns what is written after so many starts and ends. As long as fewer have ended, the line
/// says what was started last.
pub(crate) fn text_of(started: u64, ended: u64, subject: &Line) -> Text
    ensures { result.items ≡ progress.text_of started ended subject.now.items }
{
    if ended == started {
        return erasure();
    }
    after_erasure(&line_of(started, ended, subject))
}
