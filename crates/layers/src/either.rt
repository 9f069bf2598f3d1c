// One of two engines, chosen at run time: an engine that means what the chosen one means.
ghost use Rattle.layers.specs.Chosen.{chosen};

use engine::{Allowance, Engine, EngineFault};
use permutation::State;

// Kept: neither case is a failure or an absence, so it is no `Result` and no `Option`; and the kit's `Either`, like `Engine`, is of another
// crate, so that it could not be given that trait here.
#[derive(Drop)]
pub enum Either<A, B> {
    First(A),
    Second(B),
}

// Kept: each call is a `match`, since the two engines have two types: one closure cannot serve both, and a `dyn Engine` made of a type
// parameter gets no proof yet.
impl<A: Engine, B: Engine> Engine for Either<A, B> {
    ghost words = { chosen A.Engine.words B.Engine.words };

    ghost allowance = { chosen A.Engine.allowance B.Engine.allowance };

    ghost loans = { chosen A.Engine.loans B.Engine.loans };

    fn load(&mut self, state: State) {
        match self {
            Either::First(engine) => engine.load(state),
            Either::Second(engine) => engine.load(state),
        }
    }

    fn mix(&mut self, place: usize, value: u64) -> Result<(), EngineFault> {
        match self {
            Either::First(engine) => engine.mix(place, value),
            Either::Second(engine) => engine.mix(place, value),
        }
    }

    fn read(&self, place: usize) -> Result<u64, EngineFault> {
        match self {
            Either::First(engine) => engine.read(place),
            Either::Second(engine) => engine.read(place),
        }
    }

    fn tell(&self) -> Allowance {
        match self {
            Either::First(engine) => engine.tell(),
            Either::Second(engine) => engine.tell(),
        }
    }

    fn run(&mut self, rounds: usize) -> Result<(), EngineFault> {
        match self {
            Either::First(engine) => engine.run(rounds),
            Either::Second(engine) => engine.run(rounds),
        }
    }
}
