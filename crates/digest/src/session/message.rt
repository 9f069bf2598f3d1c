// Absorbing a message, piece by piece.
ghost use Rattle.std.specs.Prelude.{◌≡◌};
ghost use Rattle.digest.specs.Laws.{PiecesJoin};
ghost use Rattle.digest.specs.Phases.{absorbing as absorbing_piece, finishing};
ghost use Rattle.digest.specs.Sessions.{absorbing_of, squeezing_of};
ghost use Rattle.digest.specs.Values.{KnownValues};

use crate::session::{Absorbing, Squeezing};
use engine::{Engine, completed_runs};
use sponge::absorb_bytes;
use suite::SuiteFault;

// The most bytes of a message.
const LIMIT: usize = 16_777_216;

impl<E: Engine> Absorbing<E> {
    // Absorbs a message piece. Only the joined message counts. A session whose engine refuses a run is stopped.
    #[tactic(auto, using(crate::proofs::PiecesJoin::pieces_join, crate::proofs::Published::known_values))]
    pub fn absorb(&mut self, piece: &[u8]) -> Result<(), SuiteFault>
        ensures absorbed_or_refused { (result, absorbing_of E.Engine self.new)
            ≡ absorbing_piece piece.now (absorbing_of E.Engine self.old) }
        ensures pieces_join { PiecesJoin }
        ensures known_values { KnownValues }
    {
        let Some(taken) = self.taken else {
            return Err(SuiteFault::SessionStopped);
        };
        if piece.len() > LIMIT - taken {
            return Err(SuiteFault::MessageTooLong);
        }
        let runs = completed_runs(&self.engine);
        match absorb_bytes(&mut self.engine, &mut self.block, piece) {
            Ok(()) => {
                self.taken = Some(taken + piece.len());
                Ok(())
            }
            Err(fault) => {
                self.stop();
                Err(SuiteFault::from(fault).after(runs))
            }
        }
    }

    // Mixes in the padded rest, and turns to output.
    pub fn finish(self) -> Squeezing<E>
        ensures rest_mixed_unless_stopped { squeezing_of E.Engine result ≡ finishing (absorbing_of E.Engine self) }
    {
        let Absorbing {
            mut engine,
            block,
            taken,
            limit,
        } = self;
        // Kept: a `match`; with `taken.map(..)` over a closure that mixes, `returns` stays open.
        let given = match taken {
            Some(_) => {
                let _ = engine.mix(0, block.padded_word());
                Some(0)
            }
            None => None,
        };
        Squeezing {
            engine,
            given,
            limit,
        }
    }
}
