// The linear diffusion layer: each word XORed with itself rotated right by two amounts.
ghost use Rattle.std.specs.Prelude.{◌≡◌, ◌<◌};
ghost use Rattle.permutation.specs.Permutation.{diffuse, spread};

use crate::substitution::State;

// One word, XORed with itself rotated right by two amounts.
#[tactic(auto, using(crate::proofs::Rotation::rotate_right), unfolding(crate::specs::Permutation::spread))]
fn spread_word(word: u64, first: u32, second: u32) -> u64
    requires { (0 < first) × ((first < 64) × ((0 < second) × (second < 64))) }
    ensures word_spread { result ≡ spread word first second }
{
    word ^ word.rotate_right(first) ^ word.rotate_right(second)
}

// Spreads every word of the state.
pub fn diffuse_words(x: State) -> State
    ensures every_word_spread { result ≡ diffuse x }
{
    let [x0, x1, x2, x3, x4] = x;
    [
        spread_word(x0, 19, 28),
        spread_word(x1, 61, 39),
        spread_word(x2, 1, 6),
        spread_word(x3, 10, 17),
        spread_word(x4, 7, 41),
    ]
}
