// The engine: five words and an allowance of runs, behind one trait that every layer above is proved against.
//
// An engine is anything that holds the five words of an Ascon state and runs the permutation on them: a computation in software, a
// hardware block, or a layer over another engine. What it means and owes is said by `Engine`, in the terms of specs/Meaning.antt.
#![tactic(auto)]

pub mod allowance;
pub mod fault;
mod interface;
mod lent;
mod refusal;
mod runs;

pub use allowance::Allowance;
pub use fault::{EngineFault, Layer};
pub use interface::Engine;
pub use refusal::Refusal;
pub use runs::{check_rounds, completed_runs};
