// The refusals of the link. Each has a number, a layer and a place, which specs/Facts.antt gives case by case.
ghost use Rattle.std.specs.Prelude.{◌≡◌};
ghost use Rattle.frame.specs.Facts.{facts as listed, stamped};
ghost use Rattle.frame.specs.declared.fault.LinkFault.TheVariants.{Suite as OfSuite};

use engine::{Layer, Refusal};
use suite::SuiteFault;

#[derive(Clone, Copy, PartialEq, Eq, Debug)]
pub enum LinkFault {
    // The suite refused, or the engine below it.
    Suite(SuiteFault),
    // A name has 1 to 32 bytes.
    NameOutOfRange,
    // The two stations of a link differ.
    SameStation,
    // A first number is 1 to 2^40 - 1, and there is a number left.
    NumberOutOfRange,
    // A header has at most 256 bytes, a body at most 1,200.
    PartTooLong,
    // The output is too short for the answer.
    OutputTooShort,
    // A frame has at least the 32 bytes of its tag and its trailer.
    FrameTooShort,
    // A trailer ends in a5 01.
    MarkMissing,
    // The lengths in a trailer are within the limits, and those of its frame.
    WrongLengths,
    // A frame comes from the peer's station.
    WrongStation,
    // A number is above the last accepted one, and below 2^40.
    WrongNumber,
}

impl From<SuiteFault> for LinkFault {
    ghost from_gives = { λ fault r. r ≡ OfSuite fault };

    fn from(fault: SuiteFault) -> LinkFault {
        LinkFault::Suite(fault)
    }
}

impl Refusal for LinkFault {
    ghost facts = { listed };

    // Kept: every refusal has its number outside the program, which the definition lists; inside, the enum is used.
    fn number(&self) -> u8 {
        match self {
            LinkFault::Suite(fault) => fault.number(),
            LinkFault::OutputTooShort => 9,
            LinkFault::NameOutOfRange => 12,
            LinkFault::SameStation => 13,
            LinkFault::NumberOutOfRange => 14,
            LinkFault::PartTooLong => 15,
            LinkFault::FrameTooShort => 16,
            LinkFault::MarkMissing => 17,
            LinkFault::WrongLengths => 18,
            LinkFault::WrongStation => 19,
            LinkFault::WrongNumber => 20,
        }
    }

    fn layer(&self) -> Layer {
        match self {
            LinkFault::Suite(fault) => fault.layer(),
            _ => Layer::Link,
        }
    }

    // Of a trailer that is refused, where in it the field begins.
    fn place(&self) -> u64 {
        match self {
            LinkFault::Suite(fault) => fault.place(),
            LinkFault::MarkMissing => 14,
            LinkFault::WrongLengths => 10,
            LinkFault::WrongStation => 6,
            _ => 0,
        }
    }
}

impl LinkFault {
    // The same refusal, with the runs that the call had completed.
    pub fn after(self, runs: u64) -> LinkFault
        ensures runs_put_in { result ≡ stamped runs self }
    {
        match self {
            LinkFault::Suite(fault) => LinkFault::Suite(fault.after(runs)),
            other => other,
        }
    }
}
