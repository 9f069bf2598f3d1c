// Opening: a ciphertext and its tag to the text, which is handed out only where the tag is right.
ghost use Rattle.std.specs.Prelude.{◌≡◌, ◌*◌, ◌/◌, ◌≤◌, ◌++◌, length, drop, OnOk};
ghost use Rattle.engine.specs.Of.{meaning};
ghost use Rattle.engine.specs.Runs.{after, paid};
ghost use Rattle.aead.specs.Blocks.{after_opening, after_text, opened_blocks, plaintext};
ghost use Rattle.aead.specs.Bytes.{xored};
ghost use Rattle.aead.specs.Calls.{opening as opening_of, verified};
ghost use Rattle.aead.specs.Cipher.{cost, tag_of, unsealed};
ghost use Rattle.aead.specs.Data.{joined};
ghost use Rattle.aead.specs.Laws.{AcceptsExactlySealed, SealingUndoesOpening};

use crate::comparing::equal;
use crate::data::{Context, block};
use crate::ending::{settle, too_long};
use crate::steps::{absorb, absorb_rest, finalize, prepare, squeeze};
use crate::words::Block;
use engine::{Engine, EngineFault, completed_runs};
use suite::SuiteFault;

// XORs at most sixteen bytes with those of w0 and w1.
#[tactic(auto, using(crate::proofs::Xor::xored_more), unfolding(crate::specs::Bytes::xored))]
fn uncover(mask: &Block, bytes: &mut [u8])
    requires few { length bytes.old ≤ 16 }
    ensures bytes_xored { bytes.new ≡ xored bytes.old mask.now }
{
    // Kept: an index, since nothing is known of the bytes after `iter_mut().zip(mask)`.
    for (i, byte) in bytes.iter_mut().enumerate() {
        *byte ^= mask[i];
    }
}

// Opens the whole blocks of a ciphertext where it stands, with run 8 after each.
fn open_blocks<E: Engine>(engine: &mut E, text: &mut [u8]) -> Result<(), EngineFault>
    ensures paid_or_refused { result ≡ paid (length text.old / 16) (meaning E.Engine engine.old) tt }
    ensures blocks_absorbed { OnOk result (E.words engine.new
        ≡ after_opening (length text.old / 16) (E.words engine.old) text.old) }
    ensures blocks_written { OnOk result (text.new
        ≡ opened_blocks (length text.old / 16) (E.words engine.old) text.old ++ drop (16 * (length
        text.old / 16)) text.old) }
    ensures runs_spent { meaning E.Engine engine.new
        ≡ after (length text.old / 16) (E.words engine.new) (meaning E.Engine engine.old) }
{
    // Kept: the number of the block, as in `seal_blocks`.
    for i in 0..text.len() / 16 {
        let part = &mut text[16 * i..16 * i + 16];
        uncover(&squeeze(engine), part);
        absorb(engine, &block(part, 0));
        engine.run(8)?;
    }
    Ok(())
}

// Opens a ciphertext where it stands: its whole blocks, and then the rest with no run.
#[tactic(auto, using(crate::proofs::Opens::plaintext_is, crate::proofs::Opens::after_plaintext_is))]
fn open_text<E: Engine>(engine: &mut E, text: &mut [u8]) -> Result<(), EngineFault>
    ensures paid_or_refused { result ≡ paid (length text.old / 16) (meaning E.Engine engine.old) tt }
    ensures text_absorbed { OnOk result (E.words engine.new
        ≡ after_text (E.words engine.old) (plaintext (E.words engine.old) text.old)) }
    ensures plaintext_written { OnOk result (text.new
        ≡ plaintext (E.words engine.old) text.old) }
    ensures runs_spent { meaning E.Engine engine.new
        ≡ after (length text.old / 16) (E.words engine.new) (meaning E.Engine engine.old) }
{
    open_blocks(engine, text)?;
    let start = 16 * (text.len() / 16);
    uncover(&squeeze(engine), &mut text[start..]);
    absorb_rest(engine, text);
    Ok(())
}

// All the steps of opening, with an output of just the right length. The answer is the tag that the text has.
// Kept: `len`, since a ciphertext that is copied before the engine made its first runs is copied for nothing where it lacks them.
#[tactic(auto, using(engine::proofs::Spending::next, engine::proofs::Spending::next_spent, engine::proofs::Spending::refused, crate::proofs::Opens::tag_of_is), unfolding(crate::specs::Cipher::cost, crate::specs::Cipher::unsealed))]
fn open_steps<E: Engine>(
    engine: &mut E,
    context: &Context<'_>,
    sealed: &[u8],
    out: &mut [u8],
) -> Result<Block, EngineFault>
    requires len { length out.old ≡ length sealed.now }
    ensures paid_or_refused { result
        ≡ paid (cost (length (joined context.now.data)) (length sealed.now)) (meaning E.Engine engine.old)
        (tag_of context.now.key.now context.now.nonce.now (joined context.now.data) (unsealed
        context.now.key.now context.now.nonce.now (joined context.now.data) sealed.now)) }
    ensures text_written { OnOk result (out.new
        ≡ unsealed context.now.key.now context.now.nonce.now (joined context.now.data) sealed.now) }
    ensures runs_spent { meaning E.Engine engine.new
        ≡ after (cost (length (joined context.now.data)) (length sealed.now)) (E.words engine.new) (meaning E.Engine engine.old) }
{
    prepare(engine, context)?;
    out.copy_from_slice(sealed);
    open_text(engine, out)?;
    finalize(engine, context.key)
}

// The computed tag against the one that came. An engine's refusal becomes one of the suite.
fn verify(computed: Result<Block, EngineFault>, tag: &Block) -> Result<(), SuiteFault>
    ensures tags_compared { result ≡ verified tag.now computed }
{
    let computed = computed?;
    if !equal(&computed, tag) {
        return Err(SuiteFault::TagMismatch);
    }
    Ok(())
}

// Opens a sealed text under its context. The output begins with the text, whose length is the answer. Where the tag is another, or the
// engine refuses a run, that part of the output is zero.
#[tactic(auto, using(crate::proofs::CallLaws::sealing_undoes_opening, crate::proofs::CallLaws::accepts_exactly_sealed, crate::proofs::Outcomes::opens_untagged, crate::proofs::Outcomes::opens_long, crate::proofs::Outcomes::opens_short))]
pub fn open<E: Engine>(
    engine: &mut E,
    context: &Context<'_>,
    sealed: &[u8],
    out: &mut [u8],
) -> Result<usize, SuiteFault>
    ensures opened_or_refused { (result, out.new, meaning E.Engine engine.new)
        ≡ opening_of context.now.key.now context.now.nonce.now (joined context.now.data) sealed.now out.old (meaning E.Engine engine.old) }
    ensures sealing_undoes_opening { SealingUndoesOpening }
    ensures accepts_exactly_sealed_texts { AcceptsExactlySealed }
{
    let Some((ciphertext, tag)) = sealed.split_last_chunk::<16>() else {
        return Err(SuiteFault::TagMissing);
    };
    if too_long(context.data.len(), ciphertext.len()) {
        return Err(SuiteFault::InputTooLong);
    }
    if out.len() < ciphertext.len() {
        return Err(SuiteFault::OutputTooShort);
    }
    let runs = completed_runs(engine);
    let text = &mut out[..ciphertext.len()];
    let result = verify(open_steps(engine, context, ciphertext, text), tag);
    settle(engine, runs, text, result)
}
