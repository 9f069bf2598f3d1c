// The trailer of a frame, and the nonce that a frame is sealed under. Numbers stand highest byte first.
ghost use Rattle.std.specs.Prelude.{◌≡◌};
ghost use Rattle.frame.specs.Frame.{nonce as nonce_of, trailer};
ghost use Rattle.frame.specs.Laws.{LengthAndCost, NoncesToldApart};
ghost use Rattle.frame.specs.Values.{FrameValues};

use aead::Block;

// The most bytes of a header.
pub const HEADER_LIMIT: usize = 256;

// The most bytes of a body.
pub const BODY_LIMIT: usize = 1200;

// What a trailer says: the frame's number, the station that sealed it, and how many bytes header and body have.
#[derive(Clone, Copy, PartialEq, Eq, Debug)]
pub struct Fields {
    pub number: u64,
    pub station: u32,
    pub header: u16,
    pub body: u16,
}

// The trailer that says this. Of the number its lowest six bytes count.
#[tactic(auto, using(crate::proofs::Framed::length_and_cost))]
pub fn write_trailer(fields: Fields) -> Block
    ensures trailer_written { result ≡ trailer fields }
    ensures frame_values { FrameValues }
    ensures length_and_cost { LengthAndCost }
{
    let [_, _, n0, n1, n2, n3, n4, n5] = fields.number.to_be_bytes();
    let [s0, s1, s2, s3] = fields.station.to_be_bytes();
    let [h0, h1] = fields.header.to_be_bytes();
    let [b0, b1] = fields.body.to_be_bytes();
    [
        n0, n1, n2, n3, n4, n5, s0, s1, s2, s3, h0, h1, b0, b1, 0xa5, 0x01,
    ]
}

// The nonce of a station and a number. Of the number its lowest six bytes count.
#[tactic(auto, using(crate::proofs::Apart::nonces_told_apart))]
pub fn nonce(station: u32, number: u64) -> Block
    ensures nonce_made { result ≡ nonce_of station number }
    ensures nonces_told_apart { NoncesToldApart }
{
    let [s0, s1, s2, s3] = station.to_be_bytes();
    let [_, _, n0, n1, n2, n3, n4, n5] = number.to_be_bytes();
    [s0, s1, s2, s3, 0, 0, 0, 0, 0, 0, n0, n1, n2, n3, n4, n5]
}
