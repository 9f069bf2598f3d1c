// A session held in either of its two states, for an owner that keeps one in a field.
ghost use Rattle.std.specs.Prelude.{◌≡◌, true, false};
ghost use Rattle.clients.specs.States.{gives};

use digest::{Absorbing, Squeezing};
use engine::Engine;
use suite::SuiteFault;

// Kept: its two cases are the two phases, and neither is a failure or an absence, so it is no `Result` and no `Option`.
pub enum Session<E> {
    Taking(Absorbing<E>),
    Giving(Squeezing<E>),
}

impl<E: Engine> Session<E> {
    // A message piece, for a session that takes a message.
    fn message(&mut self, piece: &[u8]) -> Result<(), SuiteFault>
        requires takes_message { gives self.old ≡ false }
        ensures still_takes_message { gives self.new ≡ false }
    {
        match self {
            Session::Taking(taking) => taking.absorb(piece),
            Session::Giving(_) => unreachable!(),
        }
    }

    // An output piece, for a session that gives output.
    fn output(&mut self, out: &mut [u8]) -> Result<(), SuiteFault>
        requires gives_output { gives self.old ≡ true }
        ensures still_gives_output { gives self.new ≡ true }
    {
        match self {
            Session::Taking(_) => unreachable!(),
            Session::Giving(giving) => giving.squeeze(out),
        }
    }

    fn finished(self) -> Session<E>
        ensures gives_output { gives result ≡ true }
    {
        match self {
            Session::Taking(taking) => Session::Giving(taking.finish()),
            Session::Giving(giving) => Session::Giving(giving),
        }
    }
}

// A piece to absorb, then output and further output.
pub fn squeeze_twice<E: Engine>(
    session: Absorbing<E>,
    piece: &[u8],
    out: &mut [u8],
    more: &mut [u8],
) -> (Session<E>, Result<(), SuiteFault>)
    ensures gives_output { gives result.0 ≡ true }
{
    let mut session = Session::Taking(session);
    let taken = session.message(piece);
    let mut session = session.finished();
    let first = session.output(out);
    let second = session.output(more);
    (session, taken.and(first).and(second))
}
