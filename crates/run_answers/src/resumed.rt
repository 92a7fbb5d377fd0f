//! A crew whose run goes on from the answers of one that was interrupted.

ghost use Rattle.std.specs.Prelude.{◌≡◌, []};
ghost use Rattle.crew_kept.specs.Taking.{AreTaken, account_with};

use crate::found::{Found, found_answers};
use crate::host_file::{HostFile, remove};
use crate::said::line_of;
use crate::told::Told;
use cmd_call::Hears;
use crew_jobs::Job;
use crew_journal::Journal;
use crew_kept::Kept;
use crew_refusals::Causes;
use crew_resume::{Givens, Resumes};
use crew_tally::Children;
use crew_trait::{Crew, Refused, Reply};
use std::alloc::Global;
use std::env::Env;
use std::rt::Files;

/// A crew whose run goes on from the answers of one that was interrupted, if that rested on the same,
/// and whose answers are written to a file until it ends (own).
#[derive(Drop)]
pub struct Resumed<'a, C: Crew + Drop, R: Files + Env, E: Hears + Drop> {
    pub(crate) journal: Journal<C, HostFile<'a, R>>,
    rt: &'a R,
    alloc: Global,
    version: &'a str,
    // Where it is said that a run goes on.
    said: E,
    // What the run is given, until its first child.
    told: Option<Told>,
    // Whether the file is there, with the answers from which this run goes on.
    goes_on: bool,
}

/// Says from how many answers a run goes on, if there are some.
fn tell<E: Hears>(alloc: Global, found: &Found, said: &mut E) {
    let records = found.answers.records.as_slice();
    if records.is_empty() {
        return;
    }
    if let Ok(line) = line_of(alloc, records) {
        let _ = said.say(line.as_bytes());
    }
}

impl<'a, C: Crew + Drop, R: Files + Env, E: Hears + Drop> Resumed<'a, C, R, E> {
    /// Returns a crew around one that has started nothing. Until it is told what a run is given, it
    /// keeps no answers. `said` gets the line that says that a run goes on.
    pub fn new(alloc: Global, rt: &'a R, crew: C, said: E, version: &'a str) -> Resumed<'a, C, R, E>
        requires events { (C.account crew).events ≡ [] }
        requires attempts { (C.account crew).attempts ≡ 0 }
        ensures account { ⟦<Resumed<'a, C, R, E> as Crew>⟧.account result ≡ C.account crew }
    {
        let kept = Kept::new(alloc, crew, Vec::new(alloc));
        let file = HostFile::never(alloc, rt);
        Resumed {
            journal: Journal::new(alloc, kept, file, [0u8; 32], 0),
            rt,
            alloc,
            version,
            said,
            told: None,
            goes_on: false,
        }
    }

    /// Looks for the answers of an interrupted run that rested on the same, before the first child. If
    /// there are some, it says so, and replies are taken from them. Replies of children are then
    /// written to the file. If memory runs out, or the system doesn't say what the run rests on, none
    /// are.
    fn begin(&mut self)
        ensures { ⟦<Resumed<'a, C, R, E> as Crew>⟧.account self.new
            ≡ ⟦<Resumed<'a, C, R, E> as Crew>⟧.account self.old }
    {
        let Some(told) = self.told.take() else {
            return;
        };
        let version = self.version.as_bytes();
        let Ok(words) = told.words(self.alloc) else {
            return;
        };
        let givens = told.givens(&words);
        let Ok(Some(found)) = found_answers(self.alloc, self.rt, version, &givens) else {
            return;
        };
        tell(self.alloc, &found, &mut self.said);
        let (answers, file, goes_on) = found.into_parts(self.alloc, self.rt);
        let used = answers.used as u64;
        if self
            .journal
            .restart(answers.records, file, answers.digest, used)
        {
            self.goes_on = goes_on;
        }
    }

    /// Returns the crew inside.
    pub fn crew(&self) -> &C
        ensures inner { result.now ≡ self.now.journal.kept.crew }
        // The account of the run is that of the crew inside, with the replies that were taken at their
        // numbers.
        ensures account { ⟦<Resumed<'a, C, R, E> as Crew>⟧.account self.now
            ≡ account_with self.now.journal.kept.placed (C.account result.now) }
        // Each start for which the answers of the interrupted run have a reply is taken, with that
        // reply, and no other one is.
        ensures taken { AreTaken self.now.journal.kept.records self.now.journal.kept.placed
            self.now.journal.kept.waiting (C.account result.now).events
            (⟦<Resumed<'a, C, R, E> as Crew>⟧.account self.now).attempts
            self.now.journal.kept.linked self.now.journal.kept.state }
        // Without such answers the account of the run is that of the crew inside.
        ensures alone { self.now.journal.kept.records ≡ []
            → ⟦<Resumed<'a, C, R, E> as Crew>⟧.account self.now ≡ C.account result.now }
    {
        self.journal.kept().crew()
    }

    /// Removes the file of the answers, if this run made it or goes on from it, or if it started no
    /// child. The run has come to its end, and all else is written.
    pub fn end(&self) {
        if self.told.is_some() || self.goes_on || self.journal.file().is_made() {
            remove(self.rt);
        }
    }
}

impl<'a, C: Crew + Drop, R: Files + Env, E: Hears + Drop> Crew for Resumed<'a, C, R, E> {
    ghost account = { λ r. ⟦<Journal<C, HostFile<'a, R>> as Crew>⟧.account r.journal };

    fn start(&mut self, slot: usize, job: Job) -> Result<(), Refused> {
        self.begin();
        self.journal.start(slot, job)
    }

    fn next(&mut self) -> (usize, Reply) {
        self.journal.next()
    }
}

impl<'a, C: Crew + Drop, R: Files + Env, E: Hears + Drop> Resumes for Resumed<'a, C, R, E> {
    /// Keeps what the run is given until its first child. Then the answers of an interrupted run that
    /// rested on the same are looked for.
    fn resume(&mut self, givens: &Givens<'_>) {
        self.told = Told::of(self.alloc, givens).ok();
    }
}

impl<'a, C: Crew + Causes + Drop, R: Files + Env, E: Hears + Drop> Causes for Resumed<'a, C, R, E> {
    ghost known = { λ r. ⟦<Kept<C> as Causes>⟧.known r.journal.kept };

    fn cause(&self, child: u64) -> Option<&[u8]> {
        self.journal.kept().cause(child)
    }
}

impl<'a, C: Crew + Children + Drop, R: Files + Env, E: Hears + Drop> Children
    for Resumed<'a, C, R, E> {
    ghost started = { λ r. ⟦<Kept<C> as Children>⟧.started r.journal.kept };

    fn children(&self) -> u64 {
        self.journal.kept().children()
    }
}
