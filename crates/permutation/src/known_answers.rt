// A power-on test by known answers, and the facts about the permutation that stand on its definition alone.
ghost use Rattle.std.specs.Prelude.{◌≡◌, true, Decides};
ghost use Rattle.permutation.specs.Bits.{RotationMovesBits};
ghost use Rattle.permutation.specs.Equations.{SboxAgrees};
ghost use Rattle.permutation.specs.Values.{KnownValues, initial};

use crate::rounds::permute;
use crate::substitution::{State, Substitution};
use crate::tables::{CXOF128_INITIAL, HASH256_INITIAL, XOF128_INITIAL};

// Makes twelve rounds from the start values of Ascon-Hash256, Ascon-XOF128 and Ascon-CXOF128, and compares the three states with those
// that the standard prints.
#[tactic(auto, using(crate::proofs::Values::known_values, crate::proofs::Sbox::sbox_agrees, crate::proofs::Rotation::rotation_moves_bits))]
pub fn self_test<S: Substitution>() -> bool
    ensures passes { result ≡ true }
    ensures known_values { KnownValues }
    ensures sbox_agrees_with_equations { SboxAgrees }
    ensures rotation_moves_bits { RotationMovesBits }
{
    let hash256 = reaches::<S>(0x0000_0801_00cc_0002, HASH256_INITIAL);
    let xof128 = reaches::<S>(0x0000_0800_00cc_0003, XOF128_INITIAL);
    let cxof128 = reaches::<S>(0x0000_0800_00cc_0004, CXOF128_INITIAL);
    hash256 & xof128 & cxof128
}

// Whether twelve rounds lead from a start value and four zero words to the state.
fn reaches<S: Substitution>(start: u64, expected: State) -> bool
    ensures reached { Decides result (initial start ≡ expected) }
{
    initialized::<S>(start) == expected
}

// The state after twelve rounds from a start value and four zero words.
fn initialized<S: Substitution>(start: u64) -> State
    ensures twelve_rounds { result ≡ initial start }
{
    let mut state = [start, 0, 0, 0, 0];
    permute::<S>(&mut state, 12);
    state
}
