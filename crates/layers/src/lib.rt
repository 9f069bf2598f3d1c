// Engines over engines: each is an engine itself, and promises all that `Engine` asks of one.
#![tactic(auto)]

mod either;
mod quota;

pub use either::Either;
pub use quota::Quota;
