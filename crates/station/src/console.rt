// The loop over the input. Which commands can be done depends on whether a session is open, and in which phase it is.
use crate::bench::Bench;
use crate::command::{Command, SessionCommand};
use crate::desk::{Answered, Desk};
use crate::line::{Line, Reason};
use crate::session_answers::{absorb, end, show, squeeze, start};
use std::io::{BufRead, BufReader};
use std::str::from_utf8;

// Answers one line after another, to the end of the input, or until reading or printing fails. A session that is then open is ended.
pub fn serve(rt: &HostRuntime) -> anyhow::Result<()> {
    let input = BufReader::new(rt.alloc(), rt.stdin())?;
    let mut desk = Desk::Idle(Bench::new());
    let mut outcome = Ok(());
    for line in input.split(rt.alloc(), b'\n') {
        match line {
            Ok(bytes) => (desk, outcome) = desk.answer(rt, bytes.as_slice()),
            Err(fault) => outcome = Err(fault.into()),
        }
        if outcome.is_err() {
            break;
        }
    }
    desk.close();
    outcome
}

// Kept: `rt` and `name` beside each other in what prints: the one is the handle that every printing call takes, the other is the first word
// of one line; a struct of both would be taken apart at each `println!`.
impl Desk {
    // Answers a line, unless it is empty or a comment.
    fn answer(self, rt: &HostRuntime, bytes: &[u8]) -> Answered {
        let Ok(text) = from_utf8(bytes) else {
            return self.bad(rt, "?", Reason::NoText);
        };
        let mut words = Line::new(rt.alloc(), text);
        let Some(name) = words.word() else {
            return (self, Ok(()));
        };
        if name.starts_with('#') {
            return (self, Ok(()));
        }
        match Command::parse(name, &mut words) {
            Ok(command) => self.perform(rt, name, command),
            Err(reason) => self.bad(rt, name, reason),
        }
    }

    fn perform(self, rt: &HostRuntime, name: &str, command: Command) -> Answered {
        match (self, command) {
            (Desk::Idle(mut bench), Command::Bench(command)) => {
                let printed = bench.answer(rt, command);
                (Desk::Idle(bench), printed)
            }
            (Desk::Idle(bench), Command::Start(digest)) => start(rt, bench, &digest),
            (Desk::Absorbing(kind, mut session), Command::Session(SessionCommand::Absorb(piece))) =>
                {
                    let printed = absorb(rt, &mut session, piece.as_slice());
                    (Desk::Absorbing(kind, session), printed)
                }
            (Desk::Absorbing(kind, session), Command::Session(SessionCommand::Finish)) => {
                let desk = Desk::Squeezing(kind, session.finish());
                (desk, show(rt, name, Ok(())))
            }
            (Desk::Squeezing(kind, mut session), Command::Session(SessionCommand::Squeeze(room))) =>
                {
                    let printed = squeeze(rt, &mut session, room);
                    (Desk::Squeezing(kind, session), printed)
                }
            (desk, command) => desk.perform_in_any(rt, name, command),
        }
    }

    // Ends a session, or says why the command cannot be done now.
    fn perform_in_any(self, rt: &HostRuntime, name: &str, command: Command) -> Answered {
        match (self, command) {
            (Desk::Idle(bench), _) => Desk::Idle(bench).bad(rt, name, Reason::NoSession),
            (desk, Command::Session(SessionCommand::End)) => end(rt, desk),
            (desk, Command::Session(_)) => desk.bad(rt, name, Reason::WrongPhase),
            (desk, _) => desk.bad(rt, name, Reason::SessionOpen),
        }
    }

    // The line is no command that can be done now, and the desk stays as it is.
    fn bad(self, rt: &HostRuntime, name: &str, reason: Reason) -> Answered {
        (self, show_reason(rt, name, reason))
    }
}

fn show_reason(rt: &HostRuntime, name: &str, reason: Reason) -> anyhow::Result<()> {
    println!(rt; "{name} bad {reason}")?;
    Ok(())
}
