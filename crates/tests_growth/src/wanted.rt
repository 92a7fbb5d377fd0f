//! Texts that are compared piece by piece, without memory.

/// What is still wanted of a text that is given by its parts.
#[derive(Clone, Copy)]
pub struct Wanted<'a> {
    /// The rest of the part that is compared.
    rest: &'a [u8],
    /// The parts after it.
    later: &'a [&'a [u8]],
    is_right: bool,
}

impl<'a> Wanted<'a> {
    pub fn new(parts: &'a [&'a [u8]]) -> Self {
        let (rest, later) = match parts {
            [first, later @ ..] => (*first, later),
            [] => (b"".as_slice(), parts),
        };
        Wanted {
            rest,
            later,
            is_right: true,
        }
    }

    /// Goes on to the next part, if the one before is compared.
    fn go_on(&mut self) {
        if self.rest.is_empty() {
            if let [part, later @ ..] = self.later {
                self.rest = part;
                self.later = later;
            }
        }
    }

    fn put_byte(&mut self, byte: u8) {
        self.go_on();
        match self.rest {
            [wanted, rest @ ..] if *wanted == byte => self.rest = rest,
            _ => self.is_right = false,
        }
    }

    /// Compares the next piece.
    pub fn put(&mut self, piece: &[u8]) {
        for byte in piece {
            self.put_byte(*byte);
        }
    }

    /// Compares the next piece, which is in brackets.
    pub fn put_text(&mut self, piece: &[u8]) {
        self.put(b"[");
        self.put(piece);
        self.put(b"]");
    }

    /// Compares the next number, which has one digit.
    pub fn put_digit(&mut self, number: u64) {
        let at = number.min(10) as usize;
        match b"0123456789".get(at) {
            Some(digit) => self.put_byte(*digit),
            None => self.is_right = false,
        }
    }

    /// Returns whether every piece was as wanted, and nothing more is.
    pub fn is_whole(&self) -> bool {
        self.is_right && self.rest.is_empty() && self.later.is_empty()
    }
}
