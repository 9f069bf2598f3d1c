// What every engine means and owes.
ghost use Rattle.std.specs.Prelude.{◌≡◌, ℕ, List, []};
ghost use Rattle.engine.specs.Meaning.{joined, loaded, mix, read, run};
ghost use Rattle.engine.specs.declared.allowance.Allowance.{Allowance};

use crate::allowance::Allowance;
use crate::fault::EngineFault;
use permutation::State;

// An engine means five words and an allowance, and owes exactly what the five calls promise of them.
pub trait Engine {
    // The five words, w0 to w4.
    ghost words: { Self → List ℕ };

    // The runs that it still makes.
    ghost allowance: { Self → Allowance };

    // The loans that an engine is reached through, the last first. No call changes them, so that the owner of a lent engine knows it again
    // when the loan ends. An engine that is not reached through a loan leaves this as it is.
    ghost loans: { Self → List ℕ } = { λ _. [] };

    // Sets the five words.
    fn load(&mut self, state: State)
        ensures five_words_set { joined words allowance loans self.new
            ≡ loaded state (joined words allowance loans self.old) };

    // XORs a value into the word at a place.
    fn mix(&mut self, place: usize, value: u64) -> Result<(), EngineFault>
        ensures value_mixed_or_unchanged { (result, joined words allowance loans self.new)
            ≡ mix place value (joined words allowance loans self.old) };

    // Answers the word at a place.
    fn read(&self, place: usize) -> Result<u64, EngineFault>
        ensures word_answered { result ≡ read place (joined words allowance loans self.now) };

    // Answers the allowance.
    fn tell(&self) -> Allowance
        ensures allowance_answered { result ≡ allowance self.now };

    // Makes 1 to 16 rounds of the permutation, and lowers a numbered allowance by 1.
    fn run(&mut self, rounds: usize) -> Result<(), EngineFault>
        ensures run_made_or_unchanged { (result, joined words allowance loans self.new)
            ≡ run rounds (joined words allowance loans self.old) };
}
