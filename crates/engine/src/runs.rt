// What the layers above say about runs: the facts that stand on specs/Runs.antt, the question that every run is asked, and the number that
// a refused call reports.
ghost use Rattle.std.specs.Prelude.{◌≡◌, if◌then◌else◌, Ok, Err};
ghost use Rattle.engine.specs.Meaning.{rounds_allowed};
ghost use Rattle.engine.specs.Of.{meaning};
ghost use Rattle.engine.specs.Runs.{RunsAddUp, completed};
ghost use Rattle.engine.specs.declared.fault.EngineFault.TheVariants.{RoundsOutOfRange as OutOfRange};

use crate::allowance::Allowance;
use crate::fault::EngineFault;
use crate::interface::Engine;

// Are the rounds 1 to 16? An implementation asks this first of a run.
pub fn check_rounds(rounds: usize) -> Result<(), EngineFault>
    ensures rounds_asked { result ≡ (if rounds_allowed rounds then Ok tt else Err OutOfRange) }
{
    if !(1..=16).contains(&rounds) {
        return Err(EngineFault::RoundsOutOfRange);
    }
    Ok(())
}

// The runs that a call which begins now has completed when the engine refuses it one: all that the engine has.
pub fn completed_runs<E: Engine>(engine: &E) -> u64
    ensures all_runs_at_hand { result ≡ completed (meaning E.Engine engine.now) }
    ensures runs_add_up { RunsAddUp }
{
    match engine.tell() {
        Allowance::Limited(runs) => runs,
        Allowance::Unlimited => 0,
    }
}
