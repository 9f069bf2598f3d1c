// The answers of the commands that need the engine.
use crate::bench::{Bench, Pile, permute};
use crate::command::{AeadJob, BenchCommand, DigestJob};
use crate::digests::{Function, digest_once};
use crate::shown::{Five, Outcome, Refused, Told, UNWRITTEN, digits};
use aead::{Context, open, seal};
use engine::Engine;
use permutation::State;
use suite::SuiteFault;

impl Bench {
    // Does a command, and prints its answer.
    pub fn answer(&mut self, rt: &HostRuntime, command: BenchCommand) -> anyhow::Result<()> {
        match command {
            BenchCommand::Engine(kind) => {
                self.choose(kind);
                println!(rt; "engine ok kind={kind}")?;
            }
            BenchCommand::Quota(quotas) => {
                self.limit(quotas);
                let allowance = self.told();
                println!(rt; "quota ok allowance={allowance}")?;
            }
            BenchCommand::Tell => {
                let allowance = self.told();
                println!(rt; "tell ok allowance={allowance}")?;
            }
            BenchCommand::Permute(rounds, state) => self.permute(rt, rounds, state)?,
            BenchCommand::SealText(job) => self.cipher(
                rt,
                "seal-text",
                &job,
                |e, c, text, out| seal(e, c, text, out),
            )?,
            BenchCommand::OpenText(job) => self.cipher(
                rt,
                "open-text",
                &job,
                |e, c, text, out| open(e, c, text, out),
            )?,
            BenchCommand::Digest(job) => self.digest(rt, &job)?,
        }
        Ok(())
    }

    fn told(&self) -> Told {
        Told(self.engine.tell())
    }

    fn permute(&mut self, rt: &HostRuntime, rounds: usize, state: State) -> anyhow::Result<()> {
        let result = permute(&mut self.engine, rounds, state);
        let allowance = self.told();
        match result {
            Ok(state) => {
                let words = Five(state);
                println!(rt; "permute ok words={words} allowance={allowance}")?;
            }
            Err(fault) => {
                let refused = Refused(fault);
                println!(rt; "permute {refused} allowance={allowance}")?;
            }
        }
        Ok(())
    }

    // Seals or opens a text, by the call that is given.
    fn cipher<F: FnOnce(&mut Pile, &Context<'_>, &[u8], &mut [u8]) -> Result<usize, SuiteFault>>(
        &mut self,
        rt: &HostRuntime,
        name: &str,
        job: &AeadJob,
        call: F,
    ) -> anyhow::Result<()>
        requires callable { F.IsAlwaysCallable call }
    {
        let mut output = vec![in rt.alloc(); UNWRITTEN; job.room]?;
        let result = call(
            &mut self.engine,
            &job.context(),
            job.text.as_slice(),
            output.as_mut_slice(),
        );
        let output = digits(rt.alloc(), output.as_slice())?;
        let allowance = self.told();
        match result {
            Ok(length) => println!(rt;
                "{name} ok length={length} output={output} allowance={allowance}"
            )?,
            Err(fault) => {
                let refused = Refused(fault);
                println!(rt; "{name} {refused} output={output} allowance={allowance}")?;
            }
        }
        Ok(())
    }

    fn digest(&mut self, rt: &HostRuntime, job: &DigestJob) -> anyhow::Result<()> {
        let mut output = vec![in rt.alloc(); UNWRITTEN; job.room]?;
        let result = digest_once(
            &mut self.engine,
            &job.digest,
            job.message.as_slice(),
            output.as_mut_slice(),
        );
        let name = &job.digest;
        let outcome = Outcome(result);
        let allowance = self.told();
        if result.is_err() {
            println!(rt; "{name} {outcome} allowance={allowance}")?;
            return Ok(());
        }
        let field = match job.digest {
            Function::Hash256 => "digest",
            Function::Xof128 | Function::Cxof128(_) => "output",
        };
        let output = digits(rt.alloc(), output.as_slice())?;
        println!(rt; "{name} {outcome} {field}={output} allowance={allowance}")?;
        Ok(())
    }
}
