// The refusals of an engine. Each has a number, a layer and a place, which specs/Facts.antt gives case by case.
ghost use Rattle.engine.specs.Facts.{facts as listed};

use crate::refusal::Refusal;

// The layer of the part whose rule a refusal reports.
#[derive(Clone, Copy, PartialEq, Eq, Debug)]
pub enum Layer {
    Engine,
    Suite,
    Link,
}

#[derive(Clone, Copy, PartialEq, Eq, Debug)]
pub enum EngineFault {
    // The place of a word is not below 5.
    NoSuchWord,
    // A run makes 1 to 16 rounds.
    RoundsOutOfRange,
    // The allowance is 0.
    NoRunsLeft,
}

impl Refusal for EngineFault {
    ghost facts = { listed };

    // Kept: every refusal has its number outside the program, which the definition lists; inside, the enum is used.
    fn number(&self) -> u8 {
        match self {
            EngineFault::NoSuchWord => 1,
            EngineFault::RoundsOutOfRange => 2,
            EngineFault::NoRunsLeft => 3,
        }
    }

    fn layer(&self) -> Layer {
        Layer::Engine
    }

    fn place(&self) -> u64 {
        0
    }
}
