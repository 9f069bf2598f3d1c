// Ascon-AEAD128 (SP 800-232, section 4) over any engine: `seal` and `open`.
//
// Each call is lent its engine and decides, for accepted and refused calls alike, its answer, its output and the engine afterwards, as
// specs/Calls.antt says. Nothing here allocates.
#![tactic(auto)]

mod comparing;
mod data;
mod ending;
mod opening;
mod sealing;
mod steps;
mod words;

pub use data::{Context, Joined};
pub use opening::open;
pub use sealing::seal;
pub use words::Block;
