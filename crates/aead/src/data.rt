// What a text is sealed under, and the blocks of associated data: whole ones as they are, the rest padded by 0x01 and then zeros.
ghost use Rattle.std.specs.Prelude.{◌≡◌, ◌*◌, ◌≤◌, length, take, drop, slice_index};
ghost use Rattle.aead.specs.Bytes.{block as block_of, padded};
ghost use Rattle.aead.specs.Cipher.{data_blocks};
ghost use Rattle.aead.specs.Data.{joined};

use crate::words::Block;

// Two parts that count as joined.
#[derive(Clone, Copy)]
pub struct Joined<'a> {
    pub front: &'a [u8],
    pub back: &'a [u8],
}

// What a text is sealed under: a key, a nonce and associated data.
#[derive(Clone, Copy)]
pub struct Context<'a> {
    pub key: &'a Block,
    pub nonce: &'a Block,
    pub data: Joined<'a>,
}

impl Joined<'_> {
    // How many bytes the parts have together.
    pub(crate) fn len(&self) -> usize
        ensures both_counted { result ≡ length (joined self.now) }
    {
        self.front.len() + self.back.len()
    }

    // How many blocks they make as associated data.
    #[tactic(auto, unfolding(crate::specs::Cipher::data_blocks))]
    pub(crate) fn block_count(&self) -> usize
        ensures count_is { result ≡ data_blocks (length (joined self.now)) }
    {
        let size = self.len();
        if size == 0 { 0 } else { size / 16 + 1 }
    }

    // Block `index`.
    #[tactic(auto, using(crate::proofs::Bytes::block_front, std::proofs::lemmas::List::take_rest))]
    pub(crate) fn block(&self, index: usize) -> Block
        ensures block_is { 16 * index ≤ length (joined self.now) → result
            ≡ block_of (joined self.now) index }
    {
        let start = index.saturating_mul(16);
        if start <= self.front.len()
            && let Some(block) = self.front[start..].first_chunk::<16>()
        {
            return *block;
        }
        // A block that is not wholly in the first part.
        std::array::from_fn(|i| self.byte(start.saturating_add(i)))
    }

    // The byte at a place of the joined parts and their padding.
    #[tactic(auto, using(crate::proofs::Bytes::padded_front, crate::proofs::Bytes::padded_back, crate::proofs::Bytes::padded_one, crate::proofs::Bytes::padded_past))]
    fn byte(&self, at: usize) -> u8
        ensures byte_is { result ≡ slice_index (padded (joined self.now)) at }
    {
        if at < self.front.len() {
            return self.front[at];
        }
        let past = at - self.front.len();
        if past < self.back.len() {
            return self.back[past];
        }
        if past == self.back.len() { 1 } else { 0 }
    }
}

// Block `index` of a text.
#[tactic(auto, using(crate::proofs::Bytes::alone))]
pub(crate) fn block(text: &[u8], index: usize) -> Block
    ensures block_is { 16 * index ≤ length text.now → result ≡ block_of text.now index }
{
    let parts = Joined {
        front: text,
        back: &[],
    };
    parts.block(index)
}
