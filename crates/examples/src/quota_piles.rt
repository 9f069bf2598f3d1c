// A pile of two quotas, running dry.
use engine::{Allowance, Engine, EngineFault};
use engines::WordEngine;
use layers::Quota;
use std::test::Fail;

#[test]
fn pile_of_3_over_2_runs_twice(rt: HostRuntime) -> Result<(), Fail> {
    let mut engine = Quota::new(Quota::new(WordEngine::new(), 2), 3);
    assert_eq!(rt; engine.tell(), Allowance::Limited(2));
    engine.run(12)?;
    engine.run(8)?;
    let before = engine.read(0)?;
    assert_eq!(rt; engine.run(12), Err(EngineFault::NoRunsLeft));
    assert_eq!(rt; engine.read(0)?, before);
    assert_eq!(rt; engine.count(), 1);
    assert_eq!(rt; engine.tell(), Allowance::Limited(0));
    Ok(())
}

#[test]
fn owner_sets_the_count_again(rt: HostRuntime) -> Result<(), Fail> {
    let mut engine = Quota::new(WordEngine::new(), 0);
    assert_eq!(rt; engine.run(17), Err(EngineFault::RoundsOutOfRange));
    assert_eq!(rt; engine.run(16), Err(EngineFault::NoRunsLeft));
    engine.set_count(4_294_967_295);
    engine.run(16)?;
    assert_eq!(rt; engine.tell(), Allowance::Limited(4_294_967_294));
    assert_eq!(rt; engine.into_engine().tell(), Allowance::Unlimited);
    Ok(())
}
