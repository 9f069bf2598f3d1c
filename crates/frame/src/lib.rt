// The frame of the link, to the byte: its trailer, its nonce, and what reading a frame answers. `LinkFault` has the refusals of the link.
//
// A frame is header, ciphertext, tag and trailer, as specs/Frame.antt says. Nothing here allocates.
#![tactic(auto)]

pub mod fault;
mod reading;
pub mod trailer;

pub use fault::LinkFault;
pub use reading::{Parts, read_trailer};
pub use trailer::{BODY_LIMIT, Fields, HEADER_LIMIT, nonce, write_trailer};
