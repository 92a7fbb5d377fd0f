//! A crew in memory that notes what a run is given.

ghost use Rattle.std.specs.Prelude.{◌≡◌, None};

use crew::MemoryCrew;
use crew_jobs::Job;
use crew_refusals::Causes;
use crew_resume::{Givens, Resumes};
use crew_trait::{Crew, Refused, Reply};
use std::alloc::Global;
use test_rows::Page;

/// A crew in memory that notes what a run is given: each time that it is told, a text of it.
#[derive(Drop)]
pub(crate) struct Noting {
    pub(crate) crew: MemoryCrew,
    noted: Page,
}

impl Noting {
    /// Returns a crew around one in memory that was told nothing.
    pub(crate) fn new(alloc: Global, crew: MemoryCrew) -> Noting
        ensures { result.crew ≡ crew }
    {
        Noting {
            crew,
            noted: Page::new(alloc),
        }
    }

    /// Returns what was noted.
    pub(crate) fn noted(&self) -> &[u8] {
        self.noted.text()
    }
}

impl Crew for Noting {
    ghost account = { λ n. n.crew.account };

    fn start(&mut self, slot: usize, job: Job) -> Result<(), Refused> {
        self.noted.put_text(b"start");
        self.crew.start(slot, job)
    }

    fn next(&mut self) -> (usize, Reply) {
        self.crew.next()
    }
}

/// Puts what a run is given.
fn put_givens(page: &mut Page, givens: &Givens<'_>) {
    page.put_text(givens.source);
    for argument in givens.arguments {
        page.put(argument.as_slice());
        page.put(b" ");
    }
    for entry in givens.environment {
        page.put(entry.0.as_slice());
        page.put(b"=");
        page.put(entry.1.as_slice());
        page.put(b" ");
    }
    match givens.cache {
        Some(text) => page.put_text(text),
        None => page.put(b"no cache "),
    }
}

impl Resumes for Noting {
    fn resume(&mut self, givens: &Givens<'_>) {
        put_givens(&mut self.noted, givens);
    }
}

impl Causes for Noting {
    ghost known = { λ n child. None };

    fn cause(&self, _child: u64) -> Option<&[u8]> {
        None
    }
}
