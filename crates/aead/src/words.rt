// Blocks of 16 bytes and the two words that they make, lowest byte first.
ghost use Rattle.std.specs.Prelude.{◌≡◌, [], ◌∷◌, ◌++◌, drop};
ghost use Rattle.aead.specs.Bytes.{bytes_of, word};

// A block of text, a key, a nonce or a tag.
pub type Block = [u8; 16];

// The two words of a block.
pub(crate) type Halves = [u64; 2];

// The words of the first and of the last eight bytes.
#[tactic(auto, using(crate::proofs::Bytes::word_is, crate::proofs::Bytes::word_at))]
pub(crate) fn words(block: &Block) -> Halves
    ensures words_are { result ≡ word block.now ∷ word (drop 8 block.now) ∷ [] }
{
    let (halves, _) = block.as_chunks::<8>();
    [u64::from_le_bytes(halves[0]), u64::from_le_bytes(halves[1])]
}

// The bytes of two words.
#[tactic(auto, using(crate::proofs::Bytes::bytes_are, crate::proofs::Bytes::halves))]
pub(crate) fn pair(low: u64, high: u64) -> Block
    ensures bytes_are { result ≡ bytes_of low ++ bytes_of high }
{
    let mut block = [0; 16];
    block[..8].copy_from_slice(&low.to_le_bytes());
    block[8..].copy_from_slice(&high.to_le_bytes());
    block
}
