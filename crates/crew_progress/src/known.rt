//! What the crew inside knows, and how many children were started.

ghost use Rattle.crew.specs.Counting.{started_in};

use crate::watched::Watched;
use cmd_call::Hears;
use crew::{Causes, Crew};
use crew_tally::Children;

impl<C: Crew + Causes + Drop, W: Hears + Drop> Causes for Watched<C, W> {
    ghost known = { λ w. C.known w.crew };

    fn cause(&self, child: u64) -> Option<&[u8]> {
        self.crew.cause(child)
    }
}

impl<C: Crew + Drop, W: Hears + Drop> Children for Watched<C, W> {
    ghost started = { λ w. started_in (C.account w.crew).events };

    fn children(&self) -> u64 {
        self.started
    }
}
