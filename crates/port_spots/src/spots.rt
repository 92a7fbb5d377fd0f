//! Where calls are on their lines and within other calls.

use ac_calls::CallAt;
use text_cut::is_space_or_return;

/// Where a call is.
#[derive(Clone, Copy)]
pub struct Spot {
    /// The offset of the first byte of its line.
    pub line: usize,
    /// Whether only spaces and tabs are before it on its line.
    pub is_first: bool,
    /// Whether it is in no argument of another call.
    pub is_at_top: bool,
}

/// How far the calls of a text were gone over, in order of their offsets.
#[derive(Clone, Copy)]
pub struct CallWalk {
    /// The offset up to which the text was read.
    at: usize,
    /// The offset of the first byte of the line.
    line: usize,
    /// Whether the line has only spaces and tabs up to here.
    is_first: bool,
    /// The offset after the calls so far.
    reach: usize,
}

impl CallWalk {
    /// Returns a walk that begins at the start of a text.
    pub fn new() -> CallWalk {
        CallWalk {
            at: 0,
            line: 0,
            is_first: true,
            reach: 0,
        }
    }

    /// Reads the text up to an offset.
    fn go_to(&mut self, text: &[u8], at: usize) {
        let end = at.min(text.len());
        for i in self.at..end {
            if text[i] == b'\n' {
                self.line = i.saturating_add(1);
                self.is_first = true;
            } else if !is_space_or_return(text[i]) {
                self.is_first = false;
            }
        }
        self.at = self.at.max(end);
    }

    /// Goes on to the next call, and returns where it is.
    pub fn spot_of(&mut self, text: &[u8], call: &CallAt) -> Spot {
        self.go_to(text, call.start);
        let is_at_top = self.reach <= call.start;
        self.reach = self.reach.max(call.end);
        Spot {
            line: self.line,
            is_first: self.is_first,
            is_at_top,
        }
    }
}
