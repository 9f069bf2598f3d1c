// The bench: the engine that the operator chose, with the quotas set on it.
ghost use Rattle.std.specs.Prelude.{◌≡◌, ◌<◌};
ghost use Rattle.engine.specs.Of.{meaning};
ghost use Rattle.station.specs.Built.{Built};
ghost use Rattle.station.specs.Permute.{five_read, permute_once};
ghost use Rattle.station.specs.declared.command.Kind.TheVariants.{Word};
ghost use Rattle.station.specs.declared.command.Quotas.TheVariants.{Off};

use crate::command::{Kind, Quotas};
use engine::{Engine, EngineFault};
use engines::{ColumnEngine, WordEngine};
use layers::{Either, Quota};
use permutation::State;
use std::array::from_fn;

pub type Chosen = Either<WordEngine, ColumnEngine>;

// No quota, one, or one over another, on the chosen engine.
pub type Pile = Either<Chosen, Either<Quota<Chosen>, Quota<Quota<Chosen>>>>;

#[derive(Drop)]
pub struct Bench {
    pub kind: Kind,
    pub engine: Pile,
}

impl Bench {
    // A word engine with no quota.
    pub fn new() -> Bench
        ensures word_engine { (result.kind ≡ Word) × Built Word Off result.engine }
    {
        Bench {
            kind: Kind::Word,
            engine: pile(Kind::Word, Quotas::Off),
        }
    }

    pub fn choose(&mut self, kind: Kind)
        ensures new_engine { (self.new.kind ≡ kind) × Built kind Off self.new.engine }
    {
        self.kind = kind;
        self.engine = pile(kind, Quotas::Off);
    }

    pub fn limit(&mut self, quotas: Quotas)
        ensures new_engine { (self.new.kind
            ≡ self.old.kind) × Built self.old.kind quotas self.new.engine }
    {
        self.engine = pile(self.kind, quotas);
    }
}

// A new engine of the kind, with zero words, under the quotas.
fn pile(kind: Kind, quotas: Quotas) -> Pile
    ensures kind_and_quotas { Built kind quotas result }
{
    let chosen = match kind {
        Kind::Word => Either::First(WordEngine::new()),
        Kind::Column => Either::Second(ColumnEngine::new()),
    };
    match quotas {
        Quotas::Off => Either::First(chosen),
        Quotas::One(count) => Either::Second(Either::First(Quota::new(chosen, count))),
        Quotas::Two(upper, lower) => {
            Either::Second(Either::Second(Quota::new(Quota::new(chosen, lower), upper)))
        }
    }
}

// The five words of an engine. No place below 5 is refused.
pub fn five_words<E: Engine>(engine: &E) -> State
    ensures words_read { result ≡ five_read (E.words engine.now) }
{
    from_fn(
        |place| -> u64
            requires in_the_state { place < 5 }
        { engine.read(place).unwrap() },
    )
}

// Loads the words, makes one run, and reads the words again.
pub fn permute<E: Engine>(engine: &mut E, rounds: usize, state: State) -> Result<State, EngineFault>
    ensures loaded_run_read { (result, meaning E.Engine engine.new)
        ≡ permute_once rounds state (meaning E.Engine engine.old) }
{
    engine.load(state);
    engine.run(rounds)?;
    Ok(five_words(engine))
}
