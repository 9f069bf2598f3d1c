// Reading a frame by its trailer.
ghost use Rattle.std.specs.Prelude.{◌≡◌, if◌then◌else◌, Some, None};
ghost use Rattle.std.specs.Result.{result_map_both};
ghost use Rattle.frame.specs.Laws.{FramedReadsBack, FramesToldApart, NoByteUnclaimed};
ghost use Rattle.frame.specs.Reading.{fields_in, marked, reading, shown};

use crate::fault::LinkFault;
use crate::trailer::{BODY_LIMIT, Fields, HEADER_LIMIT};
use aead::Block;

// The parts of a frame, and what its trailer says.
#[derive(Clone, Copy)]
pub struct Parts<'a> {
    pub header: &'a [u8],
    pub ciphertext: &'a [u8],
    pub tag: &'a Block,
    // Ciphertext and tag, as they are opened.
    pub sealed: &'a [u8],
    pub trailer: &'a Block,
    pub fields: Fields,
}

// The fields of a trailer that ends in the mark.
fn read_fields(trailer: &Block) -> Option<Fields>
    ensures fields_or_none { result
        ≡ (if marked trailer.now then Some (fields_in trailer.now) else None) }
{
    let [
        n0,
        n1,
        n2,
        n3,
        n4,
        n5,
        s0,
        s1,
        s2,
        s3,
        h0,
        h1,
        b0,
        b1,
        0xa5,
        0x01,
    ] = *trailer
    else {
        return None;
    };
    Some(Fields {
        number: u64::from_be_bytes([0, 0, n0, n1, n2, n3, n4, n5]),
        station: u32::from_be_bytes([s0, s1, s2, s3]),
        header: u16::from_be_bytes([h0, h1]),
        body: u16::from_be_bytes([b0, b1]),
    })
}

// Reads a frame by its trailer, and hands out its parts. It asks: are there 32 bytes? does the trailer end in the mark? are its lengths
// within the limits, and those of the frame?
#[tactic(auto, using(crate::proofs::Taken::read_whole, crate::proofs::Framed::framed_reads_back, crate::proofs::Claimed::no_byte_unclaimed, crate::proofs::Apart::frames_told_apart))]
pub fn read_trailer(frame: &[u8]) -> Result<Parts<'_>, LinkFault>
    ensures read_or_refused { result_map_both shown (λ e. e) result ≡ reading frame.now }
    ensures framed_reads_back { FramedReadsBack }
    ensures no_byte_unclaimed { NoByteUnclaimed }
    ensures frames_told_apart { FramesToldApart }
{
    let Some((rest, trailer)) = frame.split_last_chunk::<16>() else {
        return Err(LinkFault::FrameTooShort);
    };
    let Some((text, tag)) = rest.split_last_chunk::<16>() else {
        return Err(LinkFault::FrameTooShort);
    };
    let Some(fields) = read_fields(trailer) else {
        return Err(LinkFault::MarkMissing);
    };
    let header_length = usize::from(fields.header);
    let body_length = usize::from(fields.body);
    if header_length > HEADER_LIMIT
        || body_length > BODY_LIMIT
        || header_length + body_length != text.len()
    {
        return Err(LinkFault::WrongLengths);
    }
    let (header, ciphertext) = text.split_at(header_length);
    Ok(Parts {
        header,
        ciphertext,
        tag,
        sealed: &rest[header_length..],
        trailer,
        fields,
    })
}
