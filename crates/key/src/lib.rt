// The key of a link, drawn on a lent engine from a secret and the link's name.
#![tactic(auto)]

ghost use Rattle.std.specs.Prelude.{◌≡◌};
ghost use Rattle.engine.specs.Of.{meaning};
ghost use Rattle.key.specs.Deriving.{KnownCost, deriving_key};
ghost use Rattle.key.specs.Steps.{filling};

use digest::{Absorbing, Customization};
use engine::{Engine, EngineFault, completed_runs};
use suite::SuiteFault;

// What the two ends of a link share.
pub type Secret = [u8; 32];

pub type Key = [u8; 16];

// The key of a link: 16 bytes of Ascon-CXOF128 over the secret, customized by the link's name.
#[tactic(auto, using(crate::proofs::Drawn::known_cost, crate::proofs::Drawn::accepted_where, crate::proofs::Drawn::engine_left, crate::proofs::Drawn::key_given))]
pub fn derive_key<E: Engine>(
    engine: &mut E,
    secret: &Secret,
    name: Customization<'_>,
) -> Result<Key, SuiteFault>
    ensures key_or_refused { (result, meaning E.Engine engine.new)
        ≡ deriving_key secret.now name.entry.bytes.now (meaning E.Engine engine.old) }
    ensures known_cost { KnownCost }
{
    let runs = completed_runs(engine);
    let mut key = [0; 16];
    match fill_key(engine, secret, name, &mut key) {
        Ok(()) => Ok(key),
        // Secret and key are within the session's limits, so a refusal is that of a run, also where the session says only that it is stopped.
        Err(_) => Err(SuiteFault::Engine(EngineFault::NoRunsLeft, runs)),
    }
}

// A session from start to end: the secret in one piece, the key in one piece. The first refusal ends it.
// Kept: the console and `clients` make these calls too; one call for all would have to give the loan back beside the answer, and what a loan
// in a pair ends as is not known to the check.
#[tactic(auto, unfolding(crate::specs::Steps::filling))]
fn fill_key<E: Engine>(
    engine: &mut E,
    secret: &Secret,
    name: Customization<'_>,
    key: &mut Key,
) -> Result<(), SuiteFault>
    ensures key_filled { (result, key.new, meaning E.Engine engine.new)
        ≡ filling secret.now name.entry.bytes.now key.old (meaning E.Engine engine.old) }
{
    let mut session = Absorbing::cxof128(engine, name);
    if let Err(fault) = session.absorb(secret) {
        session.end();
        return Err(fault);
    }
    let mut session = session.finish();
    let result = session.squeeze(key);
    session.end();
    result
}
