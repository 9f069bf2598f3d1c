// Rounds and runs of rounds, said once for every way to compute the substitution layer.
ghost use Rattle.std.specs.Prelude.{◌≡◌};
ghost use Rattle.permutation.specs.Permutation.{permuted, round};

use crate::diffusion::diffuse_words;
use crate::substitution::{State, Substitution};
use crate::tables::ROUND_CONSTANTS;

// One round: the constant into w2, then the substitution, then the diffusion.
#[tactic(auto, unfolding(crate::specs::Permutation::round))]
fn one_round<S: Substitution>(state: &mut State, constant: u64)
    ensures three_layers { state.new ≡ round state.old constant }
{
    state[2] ^= constant;
    *state = diffuse_words(S::substituted(*state));
}

// A run of `rounds` rounds, which uses the last `rounds` constants. A run of more than 16 is one of 16.
#[tactic(auto, unfolding(crate::specs::Permutation::permuted))]
pub fn permute<S: Substitution>(state: &mut State, rounds: usize)
    ensures specified_permutation { state.new ≡ permuted rounds state.old }
{
    let first = 16usize.saturating_sub(rounds);
    for constant in &ROUND_CONSTANTS[first..] {
        one_round::<S>(state, *constant);
    }
}
