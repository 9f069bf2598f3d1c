// Digest sessions: the two types. A session owns its engine. It cannot be copied, only the calls of this crate make one, and it is let go
// only by ending it, which gives the engine back.
ghost use Rattle.std.specs.Prelude.{◌≤◌, IfSome};
ghost use Rattle.std.proofs.Props.{props};

use sponge::Block;

mod ending;
mod message;
mod output;
mod start;

// A session that takes a message: the block that is not yet whole, and how many bytes were taken. A stopped one keeps no count, and its
// block is cleared.
pub struct Absorbing<E> {
    engine: E,
    block: Block,
    taken: Option<usize>,
    limit: usize,
    ghost message_bounded: { IfSome taken (λ n. n ≤ 16777216) } by { Prim.hlevel props },
    ghost output_bounded: { limit ≤ 16777216 },
}

// A session that gives output, and how many bytes it gave. A stopped one keeps no count.
pub struct Squeezing<E> {
    engine: E,
    given: Option<usize>,
    limit: usize,
    ghost within_limit: { IfSome given (λ n. n ≤ limit) } by { Prim.hlevel props },
    ghost output_bounded: { limit ≤ 16777216 },
}
