//! A crew in memory, and a line for each call of it.

ghost use Rattle.std.specs.Prelude.{◌≡◌};

use conftest::Job;
use crew::{Crew, MemoryCrew, Refused, Reply};
use test_rows::Page;
use test_rows::escaped::{note_cut, put_text};

/// A crew in memory, with a line for each start, each that is refused and each end.
#[derive(Drop)]
pub struct Recorder {
    /// The crew.
    pub crew: MemoryCrew,
    /// The lines.
    pub lines: Page,
}

/// Puts a command, after a blank. A word that has a blank is in quotes.
pub fn put_command(page: &mut Page, job: &Job) {
    for word in job.words.as_slice() {
        let quote = if word.as_slice().contains(&b' ') {
            b"'".as_slice()
        } else {
            b"".as_slice()
        };
        page.put(b" ");
        page.put(quote);
        put_text(page, word.as_slice());
        page.put(quote);
    }
}

impl Crew for Recorder {
    ghost account = { λ r. r.crew.account };

    fn start(&mut self, slot: usize, job: Job) -> Result<(), Refused> {
        let mut command = Page::new(self.lines.alloc());
        put_command(&mut command, &job);
        let answer = self.crew.start(slot, job);
        self.lines.put(if answer.is_ok() {
            b"start "
        } else {
            b"refused "
        });
        self.lines.put_number(slot);
        self.lines.put(command.text());
        self.lines.put(b"\n");
        note_cut(&mut self.lines, &command);
        answer
    }

    fn next(&mut self) -> (usize, Reply) {
        let (slot, reply) = self.crew.next();
        self.lines.put(b"end ");
        self.lines.put_number(slot);
        self.lines.put(b"\n");
        (slot, reply)
    }
}
