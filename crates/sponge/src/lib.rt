// The sponge under the digests: steps that absorb bytes into an engine and squeeze bytes from it, eight to a block (SP 800-232, section 5).
//
// A step that makes runs promises what it answers for so many runs (`paid_or_refused`), what an accepted step leaves, and that the runs are
// spent, also where it is refused (`runs_spent`). What is left of a refused step's words and block is the caller's to clear.
// Kept: each step says both for itself: they relate its engine before and after by its own count, and one definition of both would take their
// names from them.
#![tactic(auto)]

mod absorbing;
mod block;
mod squeezing;

pub use absorbing::{absorb_bytes, absorb_word, initialize};
pub use block::Block;
pub use squeezing::squeeze_byte;
