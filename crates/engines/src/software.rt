// An engine that holds the five words and computes the permutation with a given substitution.
ghost use Rattle.std.specs.Prelude.{◌≡◌};
ghost use Rattle.engine.specs.Runs.{zero_words};
ghost use Rattle.engine.specs.declared.allowance.Allowance.TheVariants.{Unlimited};

use engine::{Allowance, Engine, EngineFault, check_rounds};
use permutation::{Columns, State, Substitution, Words, permute};
use std::marker::PhantomData;

#[derive(Drop)]
pub struct Software<S> {
    words: State,
    substitution: PhantomData<S>,
}

// On whole words, by the S-box's equations.
pub type WordEngine = Software<Words>;

// Column by column, by the S-box's table.
pub type ColumnEngine = Software<Columns>;

impl<S: Substitution> Software<S> {
    // An engine with zero words.
    pub fn new() -> Software<S>
        ensures zero_words { result.words ≡ zero_words }
    {
        Software {
            words: [0; 5],
            substitution: PhantomData,
        }
    }
}

impl<S: Substitution> Engine for Software<S> {
    ghost words = { λ e. e.words };

    ghost allowance = { λ _. Unlimited };

    fn load(&mut self, state: State) {
        self.words = state;
    }

    #[tactic(auto, unfolding(engine::specs::Meaning::mixed))]
    fn mix(&mut self, place: usize, value: u64) -> Result<(), EngineFault> {
        if place >= 5 {
            return Err(EngineFault::NoSuchWord);
        }
        self.words[place] ^= value;
        Ok(())
    }

    fn read(&self, place: usize) -> Result<u64, EngineFault> {
        self.words
            .get(place)
            .copied()
            .ok_or(EngineFault::NoSuchWord)
    }

    fn tell(&self) -> Allowance {
        Allowance::Unlimited
    }

    fn run(&mut self, rounds: usize) -> Result<(), EngineFault> {
        check_rounds(rounds)?;
        permute::<S>(&mut self.words, rounds);
        Ok(())
    }
}
