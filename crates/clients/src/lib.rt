// Clients of the part, as an owner of engines writes them: each is proved from the promises of the calls alone. The misuses that the
// check refuses are edits of these clients, kept in must-fail/ and in tests/misuse.
#![tactic(auto)]

mod either;
mod loan;

pub use either::squeeze_twice;
pub use loan::hash_on_loan;
