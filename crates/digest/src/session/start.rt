// Starting a session.
ghost use Rattle.std.specs.Prelude.{◌≡◌, ◌≤◌, [], is_ok, if◌then◌else◌};
ghost use Rattle.engine.specs.Of.{meaning};
ghost use Rattle.engine.specs.Runs.{wiped};
ghost use Rattle.digest.specs.Phases.{starting, stopped_taking, taking};
ghost use Rattle.digest.specs.Sessions.{absorbing_of};
ghost use Rattle.digest.specs.Functions.{cxof128 as CXOF128, hash256 as HASH256, plain, xof128 as XOF128};

use crate::customization::Customization;
use crate::customizing::customize;
use crate::session::Absorbing;
use engine::{Engine, EngineFault};
use sponge::{Block, initialize};

// The start values, which name the functions and their sizes.
const HASH256_START: u64 = 0x0000_0801_00cc_0002;

const XOF128_START: u64 = 0x0000_0800_00cc_0003;

const CXOF128_START: u64 = 0x0000_0800_00cc_0004;

// The most bytes of output.
const HASH256_LIMIT: usize = 32;

const XOF_LIMIT: usize = 16_777_216;

impl<E: Engine> Absorbing<E> {
    // A session of Ascon-Hash256, whose output has at most 32 bytes.
    pub fn hash256(engine: E) -> Absorbing<E>
        ensures started_or_stopped { absorbing_of E.Engine result ≡ starting HASH256 (meaning E.Engine engine) }
    {
        Absorbing::started(engine, HASH256_START, HASH256_LIMIT)
    }

    // A session of Ascon-XOF128.
    pub fn xof128(engine: E) -> Absorbing<E>
        ensures started_or_stopped { absorbing_of E.Engine result ≡ starting XOF128 (meaning E.Engine engine) }
    {
        Absorbing::started(engine, XOF128_START, XOF_LIMIT)
    }

    // A session of Ascon-CXOF128. The bound of a customization is in its type, so its length is not asked.
    pub fn cxof128(mut engine: E, custom: Customization<'_>) -> Absorbing<E>
        ensures started_or_stopped { absorbing_of E.Engine result
            ≡ starting (CXOF128 custom.entry.bytes.now) (meaning E.Engine engine) }
    {
        let started = customize(&mut engine, CXOF128_START, custom);
        Absorbing::new(engine, started, XOF_LIMIT)
    }

    // A session of a function that begins with a start value alone.
    fn started(mut engine: E, value: u64, limit: usize) -> Absorbing<E>
        requires output_bounded { limit ≤ 16777216 }
        ensures started_or_stopped { absorbing_of E.Engine result ≡ starting (plain value limit) (meaning E.Engine engine) }
    {
        let started = initialize(&mut engine, value);
        Absorbing::new(engine, started, limit)
    }

    // A session over an engine that made its first runs, or a stopped one over an engine that was refused one.
    fn new(engine: E, started: Result<(), EngineFault>, limit: usize) -> Absorbing<E>
        requires output_bounded { limit ≤ 16777216 }
        ensures ready_or_stopped { absorbing_of E.Engine result
            ≡ (if is_ok started then taking limit [] 0 (meaning E.Engine engine) else stopped_taking limit (wiped (meaning E.Engine engine))) }
    {
        let mut session = Absorbing {
            engine,
            block: Block::empty(),
            taken: Some(0),
            limit,
        };
        if started.is_err() {
            session.stop();
        }
        session
    }
}
