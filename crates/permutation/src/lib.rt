// The Ascon permutation of SP 800-232, section 3: rounds over a state of five 64-bit words.
//
// `permute` makes a run of rounds with any `Substitution`; `Words` evaluates the S-box's equations on whole words, `Columns` looks the
// 64 columns up one by one. Both promise the state that specs/Permutation.antt defines by columns and table.
#![tactic(auto)]

mod columns;
mod diffusion;
mod known_answers;
mod rounds;
mod substitution;
mod tables;
mod words;

pub use columns::Columns;
pub use diffusion::diffuse_words;
pub use known_answers::self_test;
pub use rounds::permute;
pub use substitution::{State, Substitution};
pub use tables::{ROUND_CONSTANTS, SBOX};
pub use words::Words;
