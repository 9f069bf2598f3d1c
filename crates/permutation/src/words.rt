// The substitution layer on whole words: the standard's equations (7), evaluated for all 64 columns at once.
ghost use Rattle.std.specs.Prelude.{◌≡◌};
ghost use Rattle.permutation.specs.Equations.{evaluated};

use crate::substitution::{State, Substitution};

#[derive(Clone, Copy)]
pub struct Words;

impl Substitution for Words {
    fn substituted(x: State) -> State {
        equations(x)
    }
}

fn equations(x: State) -> State
    ensures equations_evaluated { result ≡ evaluated x }
{
    let [x0, x1, x2, x3, x4] = x;
    [
        x4 & x1 ^ x3 ^ x2 & x1 ^ x2 ^ x1 & x0 ^ x1 ^ x0,
        x4 ^ x3 & x2 ^ x3 & x1 ^ x3 ^ x2 & x1 ^ x2 ^ x1 ^ x0,
        !(x4 & x3 ^ x4 ^ x2 ^ x1),
        x4 & x0 ^ x4 ^ x3 & x0 ^ x3 ^ x2 ^ x1 ^ x0,
        x4 & x1 ^ x4 ^ x3 ^ x1 & x0 ^ x1,
    ]
}
