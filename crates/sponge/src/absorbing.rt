// Absorbing on an engine. A step is refused only by an engine that lacks a run; it has then used the engine's runs up.
ghost use Rattle.std.specs.Prelude.{◌≡◌, [], ◌∷◌, ◌++◌, OnOk};
ghost use Rattle.engine.specs.Meaning.{mixed, permuted};
ghost use Rattle.engine.specs.Of.{meaning};
ghost use Rattle.engine.specs.Runs.{after, paid};
ghost use Rattle.sponge.specs.Held.{part_of};
ghost use Rattle.sponge.specs.Sponge.{absorbed, initialized, rest_of, whole_blocks};

use crate::block::Block;
use engine::{Engine, EngineFault};

// Loads a start value and makes run 12.
pub fn initialize<E: Engine>(engine: &mut E, value: u64) -> Result<(), EngineFault>
    ensures paid_or_refused { result ≡ paid 1 (meaning E.Engine engine.old) tt }
    ensures words_initialized { OnOk result (E.words engine.new ≡ initialized value) }
    ensures runs_spent { meaning E.Engine engine.new
        ≡ after 1 (E.words engine.new) (meaning E.Engine engine.old) }
{
    engine.load([value, 0, 0, 0, 0]);
    engine.run(12)?;
    Ok(())
}

// Mixes the word of a block into w0 and makes run 12.
pub fn absorb_word<E: Engine>(engine: &mut E, word: u64) -> Result<(), EngineFault>
    ensures paid_or_refused { result ≡ paid 1 (meaning E.Engine engine.old) tt }
    ensures word_absorbed { OnOk result (E.words engine.new
        ≡ permuted 12 (mixed 0 word (E.words engine.old))) }
    ensures runs_spent { meaning E.Engine engine.new
        ≡ after 1 (E.words engine.new) (meaning E.Engine engine.old) }
{
    engine.mix(0, word)?;
    engine.run(12)?;
    Ok(())
}

// Places a byte into the current block, with run 12 once that is whole.
#[tactic(auto, using(crate::proofs::Bytewise::one_byte))]
fn absorb_byte<E: Engine>(engine: &mut E, block: &mut Block, byte: u8) -> Result<(), EngineFault>
    ensures paid_or_refused { result
        ≡ paid (whole_blocks (part_of block.old ++ byte ∷ [])) (meaning E.Engine engine.old) tt }
    ensures byte_absorbed { OnOk result (E.words engine.new
        ≡ absorbed (E.words engine.old) (part_of block.old ++ byte ∷ [])) }
    ensures rest_kept { OnOk result (part_of block.new
        ≡ rest_of (part_of block.old ++ byte ∷ [])) }
    ensures runs_spent { meaning E.Engine engine.new
        ≡ after (whole_blocks (part_of block.old ++ byte ∷ [])) (E.words engine.new) (meaning E.Engine engine.old) }
{
    let Some(word) = block.place(byte) else {
        return Ok(());
    };
    absorb_word(engine, word)?;
    Ok(())
}

// Places the bytes of a piece into the current block one after another.
#[tactic(auto, using(crate::proofs::Taking::none_taken, crate::proofs::Taking::more_taken, std::proofs::lemmas::List::take_all))]
pub fn absorb_bytes<E: Engine>(
    engine: &mut E,
    block: &mut Block,
    piece: &[u8],
) -> Result<(), EngineFault>
    ensures paid_or_refused { result
        ≡ paid (whole_blocks (part_of block.old ++ piece.now)) (meaning E.Engine engine.old) tt }
    ensures piece_absorbed { OnOk result (E.words engine.new
        ≡ absorbed (E.words engine.old) (part_of block.old ++ piece.now)) }
    ensures rest_kept { OnOk result (part_of block.new
        ≡ rest_of (part_of block.old ++ piece.now)) }
    ensures runs_spent { meaning E.Engine engine.new
        ≡ after (whole_blocks (part_of block.old ++ piece.now)) (E.words engine.new) (meaning E.Engine engine.old) }
{
    for byte in piece.iter() {
        absorb_byte(engine, block, *byte)?;
    }
    Ok(())
}
