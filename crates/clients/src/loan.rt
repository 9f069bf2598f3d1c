// A digest on an engine that is lent for the call.
ghost use Rattle.std.specs.Prelude.{◌≡◌};
ghost use Rattle.engine.specs.Of.{meaning};
ghost use Rattle.clients.specs.Loans.{hashing};

use digest::Absorbing;
use engine::Engine;
use suite::SuiteFault;

// Ascon-Hash256 of a message, as many bytes as the output has. The session owns the loan while it lasts; when it ends, the owner finds the
// engine as the session left it, with zero words.
// Kept: the calls stand here one by one, though the console has a session like it, since each misuse in tests/misuse is an edit of one.
pub fn hash_on_loan<E: Engine>(
    engine: &mut E,
    message: &[u8],
    out: &mut [u8],
) -> Result<(), SuiteFault>
    ensures hashed_on_the_same_engine { (result, out.new, meaning E.Engine engine.new)
        ≡ hashing message.now out.old (meaning E.Engine engine.old) }
{
    let mut taking = Absorbing::hash256(engine);
    if let Err(fault) = taking.absorb(message) {
        taking.end();
        return Err(fault);
    }
    let mut giving = taking.finish();
    let answer = giving.squeeze(out);
    giving.end();
    answer
}
