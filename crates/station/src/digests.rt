// The digest functions: starting a session of one, and a digest in one call.
ghost use Rattle.std.specs.Prelude.{◌≡◌};
ghost use Rattle.engine.specs.Of.{meaning};
ghost use Rattle.digest.specs.Phases.{starting};
ghost use Rattle.digest.specs.Sessions.{absorbing_of};
ghost use Rattle.station.specs.Digests.{Admitted, digested_once, digesting, function_of};

use crate::line::Reason;
use digest::{Absorbing, Customization};
use engine::Engine;
use std::fmt;
use std::str::FromStr;
use suite::SuiteFault;

// A digest function. The one that takes a customization holds it in the form of `C`.
#[derive(Clone, Copy)]
pub enum Function<C> {
    Hash256,
    Xof128,
    Cxof128(C),
}

impl<C> fmt::Display for Function<C> {
    fn fmt<W: fmt::Write>(&self, f: &mut fmt::Formatter<W>) -> fmt::Result {
        f.write_str(match self {
            Function::Hash256 => "hash256",
            Function::Xof128 => "xof128",
            Function::Cxof128(_) => "cxof128",
        })
    }
}

impl FromStr for Function<()> {
    type Err = Reason;

    fn from_str(word: &str) -> Result<Function<()>, Reason> {
        match word {
            "hash256" => Ok(Function::Hash256),
            "xof128" => Ok(Function::Xof128),
            "cxof128" => Ok(Function::Cxof128(())),
            _ => Err(Reason::UnknownWord),
        }
    }
}

// As it was typed: its customization may be too long.
pub type Typed = Function<Vec<u8>>;

impl Typed {
    // The function to start. A customization that is too long is refused.
    pub fn admitted(&self) -> Result<Function<Customization<'_>>, SuiteFault>
        ensures function_or_refused { Admitted self.now result }
    {
        match self {
            Function::Hash256 => Ok(Function::Hash256),
            Function::Xof128 => Ok(Function::Xof128),
            Function::Cxof128(bytes) => {
                let mut custom = Customization::empty();
                custom.make(bytes.as_slice())?;
                Ok(Function::Cxof128(custom))
            }
        }
    }
}

// Starts a session.
// Kept: a `match`, since a closure that starts the one that was typed would have to be boxed and handed on from where the line is read.
pub fn start_session<E: Engine>(engine: E, function: Function<Customization<'_>>) -> Absorbing<E>
    ensures started_or_stopped { absorbing_of E.Engine result ≡ starting (function_of function.entry) (meaning E.Engine engine) }
{
    match function {
        Function::Hash256 => Absorbing::hash256(engine),
        Function::Xof128 => Absorbing::xof128(engine),
        Function::Cxof128(custom) => Absorbing::cxof128(engine, custom),
    }
}

// A digest on a lent engine. A customization that is too long is refused first, and then the engine is not touched.
pub fn digest_once<E: Engine>(
    engine: &mut E,
    digest: &Typed,
    message: &[u8],
    out: &mut [u8],
) -> Result<(), SuiteFault>
    ensures digested_or_refused { (result, out.new, meaning E.Engine engine.new)
        ≡ digesting digest.now message.now out.old (meaning E.Engine engine.old) }
{
    let function = digest.admitted()?;
    whole_session(engine, function, message, out)
}

// A whole session: start, one message piece, finish, one output piece, end. The first refusal ends it.
// Kept: `key` and `clients` make these calls too; one call for all would have to give the loan back beside the answer, and what a loan in a
// pair ends as is not known to the check.
fn whole_session<E: Engine>(
    engine: &mut E,
    function: Function<Customization<'_>>,
    message: &[u8],
    out: &mut [u8],
) -> Result<(), SuiteFault>
    ensures digested_or_refused { (result, out.new, meaning E.Engine engine.new)
        ≡ digested_once (function_of function.entry) message.now out.old (meaning E.Engine engine.old) }
{
    let mut session = start_session(engine, function);
    if let Err(fault) = session.absorb(message) {
        session.end();
        return Err(fault);
    }
    let mut session = session.finish();
    let result = session.squeeze(out);
    session.end();
    result
}
