// Sealing: a text to its ciphertext and tag.
ghost use Rattle.std.specs.Prelude.{◌≡◌, ◌+◌, ◌*◌, ◌/◌, ◌++◌, length, drop, OnOk};
ghost use Rattle.engine.specs.Of.{meaning};
ghost use Rattle.engine.specs.Runs.{after, paid};
ghost use Rattle.aead.specs.Blocks.{after_blocks, after_text, ciphertext, sealed_blocks};
ghost use Rattle.aead.specs.Calls.{sealing as sealing_of};
ghost use Rattle.aead.specs.Cipher.{cost, ready, sealed, tag_of};
ghost use Rattle.aead.specs.Data.{joined};
ghost use Rattle.aead.specs.Laws.{OpeningUndoesSealing};
ghost use Rattle.aead.specs.Values.{PublishedAnswer};

use crate::data::{Context, block};
use crate::ending::{settle, too_long};
use crate::steps::{absorb, absorb_rest, finalize, prepare, squeeze};
use crate::words::Block;
use engine::{Engine, EngineFault, completed_runs};
use suite::SuiteFault;

// Seals the whole blocks of a text, with run 8 after each. Into the output goes ciphertext alone, block by block.
// Kept: `len`, here and below. A text that is sealed where it stands would need no such question, but would have to be copied into the
// output first, which then holds all of it while the engine runs.
fn seal_blocks<E: Engine>(engine: &mut E, text: &[u8], out: &mut [u8]) -> Result<(), EngineFault>
    requires len { length out.old ≡ length text.now }
    ensures paid_or_refused { result ≡ paid (length text.now / 16) (meaning E.Engine engine.old) tt }
    ensures blocks_absorbed { OnOk result (E.words engine.new
        ≡ after_blocks (length text.now / 16) (E.words engine.old) text.now) }
    ensures blocks_written { OnOk result (out.new
        ≡ sealed_blocks (length text.now / 16) (E.words engine.old) text.now ++ drop (16 * (length
        text.now / 16)) out.old) }
    ensures runs_spent { meaning E.Engine engine.new
        ≡ after (length text.now / 16) (E.words engine.new) (meaning E.Engine engine.old) }
{
    // Kept: the number of the block, since nothing is known of what a slice ends as after `chunks_exact_mut` or `as_chunks_mut`.
    for i in 0..text.len() / 16 {
        absorb(engine, &block(text, i));
        out[16 * i..16 * i + 16].copy_from_slice(&squeeze(engine));
        engine.run(8)?;
    }
    Ok(())
}

// Seals a text: its whole blocks, and then the padded rest with no run.
#[tactic(auto, using(crate::proofs::Seals::after_text_is, crate::proofs::Seals::ciphertext_is))]
fn seal_text<E: Engine>(engine: &mut E, text: &[u8], out: &mut [u8]) -> Result<(), EngineFault>
    requires len { length out.old ≡ length text.now }
    ensures paid_or_refused { result ≡ paid (length text.now / 16) (meaning E.Engine engine.old) tt }
    ensures text_absorbed { OnOk result (E.words engine.new
        ≡ after_text (E.words engine.old) text.now) }
    ensures ciphertext_written { OnOk result (out.new
        ≡ ciphertext (E.words engine.old) text.now) }
    ensures runs_spent { meaning E.Engine engine.new
        ≡ after (length text.now / 16) (E.words engine.new) (meaning E.Engine engine.old) }
{
    seal_blocks(engine, text, out)?;
    absorb_rest(engine, text);
    let last = squeeze(engine);
    let start = 16 * (out.len() / 16);
    let rest = &mut out[start..];
    rest.copy_from_slice(&last[..rest.len()]);
    Ok(())
}

// All the steps of sealing, with an output for the ciphertext. The answer is the tag.
#[tactic(auto, using(engine::proofs::Spending::next, engine::proofs::Spending::next_spent, engine::proofs::Spending::refused, crate::proofs::Seals::tag_is), unfolding(crate::specs::Cipher::cost))]
fn seal_steps<E: Engine>(
    engine: &mut E,
    context: &Context<'_>,
    text: &[u8],
    out: &mut [u8],
) -> Result<Block, EngineFault>
    requires len { length out.old ≡ length text.now }
    ensures paid_or_refused { result
        ≡ paid (cost (length (joined context.now.data)) (length text.now)) (meaning E.Engine engine.old)
        (tag_of context.now.key.now context.now.nonce.now (joined context.now.data) text.now) }
    ensures ciphertext_written { OnOk result (out.new
        ≡ ciphertext (ready context.now.key.now context.now.nonce.now (joined context.now.data)) text.now) }
    ensures runs_spent { meaning E.Engine engine.new
        ≡ after (cost (length (joined context.now.data)) (length text.now)) (E.words engine.new) (meaning E.Engine engine.old) }
{
    prepare(engine, context)?;
    seal_text(engine, text, out)?;
    finalize(engine, context.key)
}

// The same, with the tag behind the ciphertext in an output of just the right length.
// Kept: `len`, since where the output is cut in two in `seal` itself, a refusal can't be handed on by `?` past the clearing.
#[tactic(auto, using(engine::proofs::Spending::paid_value), unfolding(crate::specs::Cipher::sealed))]
fn seal_into<E: Engine>(
    engine: &mut E,
    context: &Context<'_>,
    text: &[u8],
    out: &mut [u8],
) -> Result<(), EngineFault>
    requires len { length out.old ≡ length text.now + 16 }
    ensures paid_or_refused { result
        ≡ paid (cost (length (joined context.now.data)) (length text.now)) (meaning E.Engine engine.old) tt }
    ensures sealed_written { OnOk result (out.new
        ≡ sealed context.now.key.now context.now.nonce.now (joined context.now.data) text.now) }
    ensures runs_spent { meaning E.Engine engine.new
        ≡ after (cost (length (joined context.now.data)) (length text.now)) (E.words engine.new) (meaning E.Engine engine.old) }
{
    let (ciphertext, tag) = out.split_at_mut(text.len());
    tag.copy_from_slice(&seal_steps(engine, context, text, ciphertext)?);
    Ok(())
}

// Seals a text under its context. The output begins with the ciphertext and the tag, whose length is the answer. Where the engine refuses
// a run, that part of the output is zero.
#[tactic(auto, using(crate::proofs::CallLaws::opening_undoes_sealing, crate::proofs::Published::published_answer, crate::proofs::Outcomes::seals_long, crate::proofs::Outcomes::seals_short))]
pub fn seal<E: Engine>(
    engine: &mut E,
    context: &Context<'_>,
    text: &[u8],
    out: &mut [u8],
) -> Result<usize, SuiteFault>
    ensures sealed_or_refused { (result, out.new, meaning E.Engine engine.new)
        ≡ sealing_of context.now.key.now context.now.nonce.now (joined context.now.data) text.now out.old (meaning E.Engine engine.old) }
    ensures opening_undoes_sealing { OpeningUndoesSealing }
    ensures published_answer { PublishedAnswer }
{
    if too_long(context.data.len(), text.len()) {
        return Err(SuiteFault::InputTooLong);
    }
    let size = text.len() + 16;
    if out.len() < size {
        return Err(SuiteFault::OutputTooShort);
    }
    let runs = completed_runs(engine);
    let part = &mut out[..size];
    let result = seal_into(engine, context, text, part).map_err(SuiteFault::from);
    settle(engine, runs, part, result)
}
