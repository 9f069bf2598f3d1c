// Ending a session, in either phase, and stopping one.
// Kept: `end` and `stop` twice. One type over its phase, `Session<E, P>`, would need a trait of the phases to say that what was given is within
// the limit, for the sake of these two short methods.
ghost use Rattle.std.specs.Prelude.{◌≡◌};
ghost use Rattle.engine.specs.Of.{meaning};
ghost use Rattle.engine.specs.Runs.{wiped};
ghost use Rattle.digest.specs.Phases.{stopped_giving, stopped_taking};
ghost use Rattle.digest.specs.Sessions.{absorbing_of, squeezing_of};

use crate::session::{Absorbing, Squeezing};
use engine::Engine;
use sponge::Block;

// An engine with its words cleared.
fn cleared<E: Engine>(mut engine: E) -> E
    ensures words_zero { meaning E.Engine result ≡ wiped (meaning E.Engine engine) }
{
    engine.load([0; 5]);
    engine
}

impl<E: Engine> Absorbing<E> {
    // Gives the engine back with zero words.
    pub fn end(self) -> E
        ensures words_zero { meaning E.Engine result ≡ wiped (meaning E.Engine self.engine) }
    {
        let Absorbing {
            engine: absorbing,
            block: _,
            taken: _,
            limit: _,
        } = self;
        cleared(absorbing)
    }

    // Nothing of the message stays in a stopped session.
    pub(crate) fn stop(&mut self)
        ensures nothing_kept { absorbing_of E.Engine self.new
            ≡ stopped_taking self.old.limit (wiped (meaning E.Engine self.old.engine)) }
    {
        self.engine.load([0; 5]);
        self.block = Block::empty();
        self.taken = None;
    }
}

impl<E: Engine> Squeezing<E> {
    // Gives the engine back with zero words.
    pub fn end(self) -> E
        ensures words_zero { meaning E.Engine result ≡ wiped (meaning E.Engine self.engine) }
    {
        let Squeezing {
            engine: squeezing,
            given: _,
            limit: _,
        } = self;
        cleared(squeezing)
    }

    // Nothing of the output stays in a stopped session.
    pub(crate) fn stop(&mut self)
        ensures nothing_kept { squeezing_of E.Engine self.new
            ≡ stopped_giving self.old.limit (wiped (meaning E.Engine self.old.engine)) }
    {
        self.engine.load([0; 5]);
        self.given = None;
    }
}
