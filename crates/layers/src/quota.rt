// A quota: an engine over any engine, with a count of runs that its owner sets. Quotas pile up: a quota over a quota is an engine too.
ghost use Rattle.std.specs.Prelude.{◌≡◌};
ghost use Rattle.engine.specs.Allowance.{smaller};
ghost use Rattle.engine.specs.Meaning.{loaded, mix, run};
ghost use Rattle.layers.specs.Metered.{below, limited, metered, passed, run_metered};

use engine::{Allowance, Engine, EngineFault, check_rounds};
use permutation::State;

// It shows the words of the engine below; its allowance is the smaller of its count and the allowance below.
#[derive(Drop)]
pub struct Quota<E> {
    engine: E,
    count: u32,
}

impl<E: Engine> Quota<E> {
    pub fn new(engine: E, count: u32) -> Quota<E>
        ensures engine_and_count { result ≡ record { engine = engine; count = count } }
    {
        Quota { engine, count }
    }

    pub fn count(&self) -> u32
        ensures count_answered { result ≡ self.now.count }
    {
        let Quota { count, .. } = self;
        *count
    }

    pub fn set_count(&mut self, count: u32)
        ensures only_count_set { self.new ≡ record { engine = self.old.engine; count = count } }
    {
        self.count = count;
    }

    // A look at the engine below.
    pub fn engine(&self) -> &E
        ensures engine_below { result.now ≡ self.now.engine }
    {
        &self.engine
    }

    // Gives the engine below back.
    pub fn into_engine(self) -> E
        ensures engine_below { result ≡ self.engine }
    {
        let Quota { engine, count: _ } = self;
        engine
    }
}

impl<E: Engine> Engine for Quota<E> {
    ghost words = { λ q. E.Engine.words q.engine };

    ghost allowance = { λ q. smaller q.count (E.Engine.allowance q.engine) };

    ghost loans = { λ q. E.Engine.loans q.engine };

    fn load(&mut self, state: State)
        ensures five_words_set { limited E.Engine self.new
            ≡ loaded state (limited E.Engine self.old) }
        ensures loaded_below { metered E.Engine self.new
            ≡ below (loaded state) (metered E.Engine self.old) }
    {
        self.engine.load(state);
    }

    fn mix(&mut self, place: usize, value: u64) -> Result<(), EngineFault>
        ensures value_mixed_or_unchanged { (result, limited E.Engine self.new)
            ≡ mix place value (limited E.Engine self.old) }
        ensures mixed_below { (result, metered E.Engine self.new)
            ≡ passed (mix place value) (metered E.Engine self.old) }
    {
        self.engine.mix(place, value)
    }

    fn read(&self, place: usize) -> Result<u64, EngineFault> {
        self.engine.read(place)
    }

    fn tell(&self) -> Allowance {
        let count = u64::from(self.count);
        match self.engine.tell() {
            Allowance::Limited(below) => Allowance::Limited(count.min(below)),
            Allowance::Unlimited => Allowance::Limited(count),
        }
    }

    fn run(&mut self, rounds: usize) -> Result<(), EngineFault>
        ensures run_made_or_unchanged { (result, limited E.Engine self.new)
            ≡ run rounds (limited E.Engine self.old) }
        ensures counted_and_run_below { (result, metered E.Engine self.new)
            ≡ run_metered rounds (metered E.Engine self.old) }
    {
        check_rounds(rounds)?;
        if self.count == 0 {
            return Err(EngineFault::NoRunsLeft);
        }
        self.engine.run(rounds)?;
        self.count -= 1;
        Ok(())
    }
}
