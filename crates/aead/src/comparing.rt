// Comparing tags.
ghost use Rattle.std.specs.Prelude.{◌≡◌, bit_or, bit_xor, fold};
ghost use Rattle.std.specs.List.{zip};
ghost use Rattle.aead.specs.Bytes.{same};

use crate::words::Block;

// Whether two tags are the same.
#[tactic(auto, using(crate::proofs::Same::none_differ))]
// Kept: all sixteen bytes are looked at, whatever they are; `==` may end at the first difference, and tells by its time where that is.
pub(crate) fn equal(left: &Block, right: &Block) -> bool
    ensures all_bytes_compared { result ≡ same left.now right.now }
{
    differences(left, right) == 0
}

// The bits in which any two bytes of the tags differ.
fn differences(left: &Block, right: &Block) -> u8
    ensures differences_gathered { result
        ≡ fold (λ differ p. bit_or differ (bit_xor p.0 p.1)) 0 (zip left.now right.now) }
{
    left.iter()
        .zip(right)
        .fold(0, |differ, (left, right)| differ | (left ^ right))
}
