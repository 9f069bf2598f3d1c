// An engine that is lent is an engine: what owns its engine can be given a loan.
ghost use Rattle.std.specs.Prelude.{◌∷◌};

use crate::allowance::Allowance;
use crate::fault::EngineFault;
use crate::interface::Engine;
use permutation::State;

impl<E: Engine> Engine for &mut E {
    ghost words = { λ e. E.Engine.words e.now };

    ghost allowance = { λ e. E.Engine.allowance e.now };

    ghost loans = { λ e. e.ghost_name ∷ E.Engine.loans e.now };

    fn load(&mut self, state: State) {
        (**self).load(state);
    }

    fn mix(&mut self, place: usize, value: u64) -> Result<(), EngineFault> {
        (**self).mix(place, value)
    }

    fn read(&self, place: usize) -> Result<u64, EngineFault> {
        (**self).read(place)
    }

    fn tell(&self) -> Allowance {
        (**self).tell()
    }

    fn run(&mut self, rounds: usize) -> Result<(), EngineFault> {
        (**self).run(rounds)
    }
}
