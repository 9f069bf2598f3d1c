// Why a text or an output is not taken.

#[derive(Clone, Copy, PartialEq, Eq, Debug)]
pub enum HexFault {
    // The text is not an even number of hexadecimal digits.
    NotHex,
    // The output is too short for the answer.
    OutputTooShort,
}
