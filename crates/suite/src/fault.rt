// The refusals of the suite. Each has a number, a layer and a place, which specs/Facts.antt gives case by case.
ghost use Rattle.std.specs.Prelude.{◌≡◌};
ghost use Rattle.suite.specs.Facts.{facts as listed, stamped};
ghost use Rattle.suite.specs.declared.fault.SuiteFault.TheVariants.{Engine as OfEngine};

use engine::{EngineFault, Layer, Refusal};

#[derive(Clone, Copy, PartialEq, Eq, Debug)]
pub enum SuiteFault {
    // The engine refused, after the call had completed this many runs.
    Engine(EngineFault, u64),
    // A customization has at most 256 bytes.
    CustomizationTooLong,
    // The session's engine refused a run before.
    SessionStopped,
    // The message so far, with this piece, has more than 16,777,216 bytes.
    MessageTooLong,
    // The output so far, with this piece, has more bytes than the function gives.
    OutputTooLong,
    // Associated data or text has more than 16,777,216 bytes.
    InputTooLong,
    // The output is too short for the answer.
    OutputTooShort,
    // A sealed text has at least the 16 bytes of its tag.
    TagMissing,
    // The tag is not that of this text.
    TagMismatch,
}

// Inside a call the runs are not counted; the call puts them in where it ends, by `after`.
impl From<EngineFault> for SuiteFault {
    ghost from_gives = { λ fault r. r ≡ OfEngine fault 0 };

    fn from(fault: EngineFault) -> SuiteFault {
        SuiteFault::Engine(fault, 0)
    }
}

impl Refusal for SuiteFault {
    ghost facts = { listed };

    // Kept: every refusal has its number outside the program, which the definition lists; inside, the enum is used.
    fn number(&self) -> u8 {
        match self {
            SuiteFault::Engine(fault, _) => fault.number(),
            SuiteFault::CustomizationTooLong => 4,
            SuiteFault::SessionStopped => 5,
            SuiteFault::MessageTooLong => 6,
            SuiteFault::OutputTooLong => 7,
            SuiteFault::InputTooLong => 8,
            SuiteFault::OutputTooShort => 9,
            SuiteFault::TagMissing => 10,
            SuiteFault::TagMismatch => 11,
        }
    }

    fn layer(&self) -> Layer {
        match self {
            SuiteFault::Engine(fault, _) => fault.layer(),
            _ => Layer::Suite,
        }
    }

    fn place(&self) -> u64 {
        match self {
            SuiteFault::Engine(_, runs) => *runs,
            _ => 0,
        }
    }
}

impl SuiteFault {
    // The same refusal, with the runs that the call had completed.
    pub fn after(self, runs: u64) -> SuiteFault
        ensures runs_put_in { result ≡ stamped runs self }
    {
        match self {
            SuiteFault::Engine(fault, _) => SuiteFault::Engine(fault, runs),
            other => other,
        }
    }
}
