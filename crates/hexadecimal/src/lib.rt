// Text of the console: bytes as hexadecimal digits, and numbers. Nothing here allocates.

#![tactic(auto)]

mod decoding;
mod encoding;
pub mod fault;
mod number;

pub use decoding::decode;
pub use encoding::encode;
pub use fault::HexFault;
pub use number::parse_number;
