//! Checks, counted byte by byte.

ghost use Rattle.std.specs.Prelude.{◌≡◌, ◌<◌, IsTrue, codes, length};
ghost use Rattle.crew_tally.specs.Tallies as specs;

/// How a line of a check begins.
const FRONT: &[u8] = b"checking ";

/// What is in a line of a check if the cache had the answer.
const MARK: &[u8] = b"(cached) ";

/// Where a text is in its last line.
#[derive(Clone, Copy)]
enum LinePlace {
    /// So many bytes of the front of a line of a check.
    Front(usize),
    /// In a line of a check, after so many bytes of the mark.
    Check(usize),
    /// In any other line, or in one that is counted already.
    Other,
}

/// How many checks a text has so far, and how many of them the cache answered.
#[derive(Clone, Copy)]
pub struct Tally {
    checks: u64,
    cached: u64,
    place: LinePlace,
}

/// Returns whether a word has this byte after so many others.
fn has_at(word: &[u8], count: usize, byte: u8) -> bool
    ensures value { result ≡ specs.has_at word.now count byte }
    ensures within { IsTrue result → count < length word.now }
{
    match word.get(count) {
        Some(at) => *at == byte,
        None => false,
    }
}

/// Returns how many bytes of a word a text ends with after one more byte, if it ended with so many
/// before. No byte of the word but its first is equal to the first.
fn matched(word: &[u8], count: usize, byte: u8) -> usize
    ensures { result ≡ specs.matched word.now count byte }
{
    if has_at(word, count, byte) {
        return count + 1;
    }
    if has_at(word, 0, byte) { 1 } else { 0 }
}

impl Tally {
    /// Returns the tally of an empty text.
    pub fn new() -> Tally
        ensures { result ≡ specs.none }
    {
        Tally {
            checks: 0,
            cached: 0,
            place: LinePlace::Front(0),
        }
    }

    /// Returns how many lines begin with `checking `.
    pub fn checks(&self) -> u64
        ensures { result ≡ self.now.checks }
    {
        self.checks
    }

    /// Returns how many of these lines have `(cached) ` after that.
    pub fn cached(&self) -> u64
        ensures { result ≡ self.now.cached }
    {
        self.cached
    }

    /// Counts a byte that may be of the front of a line of a check, of which there are so many
    /// already.
    fn add_front(&mut self, count: usize, byte: u8)
        ensures { self.new ≡ specs.after_front count byte self.old }
    {
        if !has_at(FRONT, count, byte) {
            self.place = LinePlace::Other;
            return;
        }
        if count + 1 < FRONT.len() {
            self.place = LinePlace::Front(count + 1);
            return;
        }
        self.checks = self.checks.saturating_add(1);
        self.place = LinePlace::Check(0);
    }

    /// Counts a byte of a line of a check, after so many bytes of the mark.
    fn add_rest(&mut self, count: usize, byte: u8)
        ensures { self.new
            ≡ specs.after_marked (specs.matched (codes "(cached) ") count byte) self.old }
    {
        let count = matched(MARK, count, byte);
        if count < MARK.len() {
            self.place = LinePlace::Check(count);
            return;
        }
        self.cached = self.cached.saturating_add(1);
        self.place = LinePlace::Other;
    }

    /// Counts one more byte.
    #[tactic(auto, unfolding(crate::specs::Tallies::after_byte))]
    fn add_byte(&mut self, byte: u8)
        ensures { self.new ≡ specs.after_byte self.old byte }
    {
        if byte == b'\n' {
            self.place = LinePlace::Front(0);
            return;
        }
        match self.place {
            LinePlace::Front(count) => self.add_front(count, byte),
            LinePlace::Check(count) => self.add_rest(count, byte),
            LinePlace::Other => {}
        }
    }

    /// Counts the checks of a text that follows.
    pub fn add(&mut self, text: &[u8])
        ensures { self.new ≡ specs.after_text self.old text.now }
    {
        for byte in text {
            self.add_byte(*byte);
        }
    }
}
