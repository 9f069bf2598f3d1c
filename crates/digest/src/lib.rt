// Digests: Ascon-Hash256, Ascon-XOF128 and Ascon-CXOF128 (SP 800-232, section 5) as sessions that own their engine.
//
// A session absorbs message pieces, is finished, and then squeezes output pieces; only the joined message and the joined output count.
// Absorbing and squeezing sessions are two types, and finishing moves the one into the other, so that a message piece after output
// does not compile. What each call answers and leaves is said in specs/Phases.antt, the functions themselves in specs/Functions.antt.
#![tactic(auto)]

mod customization;
mod customizing;
mod session;

pub use customization::Customization;
pub use session::{Absorbing, Squeezing};
