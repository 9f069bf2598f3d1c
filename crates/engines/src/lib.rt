// Engines in software: the five words in memory, the permutation computed on them.
//
// `WordEngine` evaluates the S-box's equations on whole words, `ColumnEngine` looks the 64 columns up one by one. They are one engine
// over two ways to compute the substitution layer, and both promise all that `Engine` asks. Neither has a limit.
#![tactic(auto)]

mod software;

pub use software::{ColumnEngine, Software, WordEngine};
