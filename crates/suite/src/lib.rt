// The suite: what its functions share. Every refusal of the suite is a `SuiteFault`, which holds an engine's refusal whole.
#![tactic(auto)]

pub mod fault;

pub use fault::SuiteFault;
