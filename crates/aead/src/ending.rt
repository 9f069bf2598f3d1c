// What sealing and opening share around their steps: the question of length before them, and the clearing after them.
ghost use Rattle.std.specs.Prelude.{◌≡◌, length, replicate, is_ok, if◌then◌else◌};
ghost use Rattle.engine.specs.Of.{meaning};
ghost use Rattle.engine.specs.Runs.{wiped};
ghost use Rattle.aead.specs.Calls.{long, settled};

use engine::Engine;
use suite::SuiteFault;

// The most bytes of associated data, and of text.
const LIMIT: usize = 16_777_216;

// Whether so many bytes of associated data or of text are too many.
pub(crate) fn too_long(ad: usize, text: usize) -> bool
    ensures limits_asked { result ≡ long ad text }
{
    ad > LIMIT || text > LIMIT
}

// Ends a call: zero words, and after a refusal a zero output and the completed runs in an engine's refusal.
pub(crate) fn settle<E: Engine>(
    engine: &mut E,
    runs: u64,
    out: &mut [u8],
    res: Result<(), SuiteFault>,
) -> Result<usize, SuiteFault>
    ensures answer_settled { result ≡ settled runs (length out.old) res }
    ensures refused_output_zero { out.new
        ≡ (if is_ok res then out.old else replicate (length out.old) 0) }
    ensures words_wiped { meaning E.Engine engine.new ≡ wiped (meaning E.Engine engine.old) }
{
    engine.load([0; 5]);
    match res {
        Ok(()) => Ok(out.len()),
        Err(fault) => {
            out.fill(0);
            Err(fault.after(runs))
        }
    }
}
