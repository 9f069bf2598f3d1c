// The desk: the bench while no session is open, else the one open session, which owns the bench's engine.
ghost use Rattle.station.specs.Desks.{Closed, Opened};

use crate::bench::{Bench, Pile};
use crate::command::Kind;
use crate::digests::{Typed, start_session};
use digest::{Absorbing, Squeezing};
use suite::SuiteFault;

// A session cannot be let go, so a desk is handed on by value, and closed in the end.
pub enum Desk {
    Idle(Bench),
    Absorbing(Kind, Absorbing<Pile>),
    Squeezing(Kind, Squeezing<Pile>),
}

// What a command leaves, and whether its answer could be printed.
pub type Answered = (Desk, anyhow::Result<()>);

impl Desk {
    // Opens a session on the bench's engine. A customization that is too long is refused, and the bench stays.
    pub fn open(bench: Bench, digest: &Typed) -> (Desk, Result<(), SuiteFault>)
        ensures started_or_refused { Opened digest.now bench result.1 result.0 }
    {
        match digest.admitted() {
            Ok(function) => {
                let Bench { kind, engine } = bench;
                (
                    Desk::Absorbing(kind, start_session(engine, function)),
                    Ok(()),
                )
            }
            Err(fault) => (Desk::Idle(bench), Err(fault)),
        }
    }

    // Ends the session that is open, if one is, and puts its engine back onto the bench.
    pub fn close(self) -> Bench
        ensures idle_or_engine_back { Closed self result }
    {
        let (kind, engine) = match self {
            Desk::Idle(bench) => return bench,
            Desk::Absorbing(kind, session) => (kind, session.end()),
            Desk::Squeezing(kind, session) => (kind, session.end()),
        };
        Bench { kind, engine }
    }
}
