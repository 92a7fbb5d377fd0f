//! What the crew inside knows, and how many children it started.

ghost use Rattle.crew_kept.specs.Numbers.{known_in};

use crate::file::AnswerFile;
use crate::journal::Journal;
use crew_refusals::Causes;
use crew_tally::Children;
use crew_trait::Crew;

impl<C: Crew + Causes + Drop, F: AnswerFile + Drop> Causes for Journal<C, F> {
    ghost known = { λ j. known_in C.known j.kept };

    fn cause(&self, child: u64) -> Option<&[u8]> {
        self.kept.cause(child)
    }
}

impl<C: Crew + Children + Drop, F: AnswerFile + Drop> Children for Journal<C, F> {
    ghost started = { λ j. C.started j.kept.crew };

    fn children(&self) -> u64 {
        self.kept.children()
    }
}
