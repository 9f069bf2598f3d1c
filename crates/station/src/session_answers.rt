// The answers of the commands to a session.
use crate::bench::{Bench, Pile, five_words};
use crate::desk::{Answered, Desk};
use crate::digests::Typed;
use crate::shown::{Five, Outcome, Told, UNWRITTEN, digits};
use digest::{Absorbing, Squeezing};
use engine::Engine;
use suite::SuiteFault;

pub fn start(rt: &HostRuntime, bench: Bench, digest: &Typed) -> Answered {
    let (desk, result) = Desk::open(bench, digest);
    (desk, show(rt, "start", result))
}

pub fn absorb(rt: &HostRuntime, session: &mut Absorbing<Pile>, piece: &[u8]) -> anyhow::Result<()> {
    show(rt, "absorb", session.absorb(piece))
}

pub fn squeeze(rt: &HostRuntime, session: &mut Squeezing<Pile>, room: usize) -> anyhow::Result<()> {
    let mut output = vec![in rt.alloc(); UNWRITTEN; room]?;
    let outcome = Outcome(session.squeeze(output.as_mut_slice()));
    let output = digits(rt.alloc(), output.as_slice())?;
    println!(rt; "squeeze {outcome} output={output}")?;
    Ok(())
}

pub fn end(rt: &HostRuntime, desk: Desk) -> Answered {
    let bench = desk.close();
    let words = Five(five_words(&bench.engine));
    let allowance = Told(bench.engine.tell());
    let printed = show_end(rt, words, allowance);
    (Desk::Idle(bench), printed)
}

fn show_end(rt: &HostRuntime, words: Five, allowance: Told) -> anyhow::Result<()> {
    println!(rt; "end ok words={words} allowance={allowance}")?;
    Ok(())
}

pub fn show(rt: &HostRuntime, name: &str, res: Result<(), SuiteFault>) -> anyhow::Result<()> {
    let outcome = Outcome(res);
    println!(rt; "{name} {outcome}")?;
    Ok(())
}
