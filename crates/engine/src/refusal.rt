// What every refusal has, whichever layer made it.
ghost use Rattle.std.specs.Prelude.{◌≡◌};
ghost use Rattle.engine.specs.Facts.{Facts};

use crate::fault::Layer;

// A refusal has a number, the layer whose rule it reports, and a place. One definition in specs/ gives them, case by case.
pub trait Refusal {
    // The three.
    ghost facts: { Self → Facts };

    fn number(&self) -> u8
        ensures listed_number { result ≡ (facts self.now).number };

    fn layer(&self) -> Layer
        ensures listed_layer { result ≡ (facts self.now).layer };

    fn place(&self) -> u64
        ensures listed_place { result ≡ (facts self.now).place };
}
