//! The lines at which a warning holds too.

use ac_calls::Extent;
use lint_table::{Page, WordPart, keys};
use lint_text::part;

/// How many lines are named at most.
const MOST: usize = 20;

/// Returns the number of newlines between two offsets.
fn newlines(text: &[u8], start: usize, end: usize) -> usize {
    part(text, start, end)
        .iter()
        .filter(|byte| **byte == b'\n')
        .count()
}

/// Writes the number of a line after those that were written before.
fn put_line(page: &mut Page, count: usize, line: usize) {
    if count == 0 {
        page.put(keys::SAME_AT_LINE, &[WordPart::Number(line)]);
    } else {
        page.put(keys::AND_LINE, &[WordPart::Number(line)]);
    }
}

/// Writes the lines of the places after the first, each once. The places are in order.
pub(crate) fn put_lines(page: &mut Page, text: &[u8], places: &[Extent]) {
    let mut line: usize = 1;
    let mut at: usize = 0;
    let mut last: usize = 0;
    let mut count: usize = 0;
    for place in places {
        line = line.saturating_add(newlines(text, at, place.start));
        at = place.start;
        if count >= MOST {
            page.put(keys::AND_MORE_LINES, &[]);
            return;
        }
        if last != 0 && line != last {
            put_line(page, count, line);
            count = count.saturating_add(1);
        }
        last = line;
    }
}
