// The five engine calls, on the word engine and on the column engine.
use engine::{Allowance, Engine, EngineFault};
use engines::{ColumnEngine, WordEngine};
use permutation::State;
use std::process::Abort;
use std::test::Fail;

// Five words without a pattern, and what another implementation makes of them by 1 and by 16 rounds.
const START: State = [
    0x0123_4567_89ab_cdef,
    0xfedc_ba98_7654_3210,
    0x0011_2233_4455_6677,
    0x8899_aabb_ccdd_eeff,
    0xdead_beef_cafe_f00d,
];

const AFTER_1: State = [
    0x5238_2818_9234_75f5,
    0x6cab_c3fe_2d79_6fa2,
    0xb1c1_1354_eb0d_94d5,
    0x18f9_6792_ac6b_bfa4,
    0x9091_cde2_cb7c_68d1,
];

const AFTER_16: State = [
    0x1b12_a8ff_1aea_2269,
    0xf136_6b15_8cbe_f192,
    0xf974_4362_b75d_7821,
    0xf596_4ec0_5e89_4bed,
    0x99cf_2f0c_d355_2d1a,
];

// The states after initialization of Ascon-Hash256, Ascon-XOF128 and Ascon-CXOF128, from SP 800-232, Table 12.
const HASH256: State = [
    0x9b1e_5494_e934_d681,
    0x4bc3_a01e_3337_51d2,
    0xae65_396c_6b34_b81a,
    0x3c7f_d4a4_d56a_4db3,
    0x1a5c_4649_06c5_976d,
];

const XOF128: State = [
    0xda82_ce76_8d94_47eb,
    0xcc7c_e6c7_5f1e_f969,
    0xe750_8fd7_8008_5631,
    0x0ee0_ea53_416b_58cc,
    0xe054_7524_db6f_0bde,
];

const CXOF128: State = [
    0x6755_27c2_a0e8_de03,
    0x43d1_2d7d_c037_7bbc,
    0xe990_1dec_426e_81b5,
    0x2ab1_4907_7207_80b6,
    0x8f3f_1d02_d432_bc46,
];

fn check_words<E: Engine>(rt: &impl Abort, engine: &E, words: State) -> Result<(), Fail> {
    for (place, word) in words.iter().enumerate() {
        assert_eq!(rt; engine.read(place)?, *word);
    }
    Ok(())
}

fn check_run<E: Engine>(
    rt: &impl Abort,
    engine: &mut E,
    from: State,
    rounds: usize,
    to: State,
) -> Result<(), Fail> {
    engine.load(from);
    engine.run(rounds)?;
    check_words(rt, engine, to)
}

fn check_refused<E: Engine>(rt: &impl Abort, engine: &mut E, rounds: usize) -> Result<(), Fail> {
    engine.load(START);
    assert_eq!(rt; engine.run(rounds), Err(EngineFault::RoundsOutOfRange));
    check_words(rt, engine, START)
}

fn check_runs<E: Engine>(rt: &impl Abort, engine: &mut E) -> Result<(), Fail> {
    check_run(rt, engine, START, 1, AFTER_1)?;
    check_run(rt, engine, START, 16, AFTER_16)?;
    check_run(rt, engine, [0x0000_0801_00cc_0002, 0, 0, 0, 0], 12, HASH256)?;
    check_run(rt, engine, [0x0000_0800_00cc_0003, 0, 0, 0, 0], 12, XOF128)?;
    check_run(rt, engine, [0x0000_0800_00cc_0004, 0, 0, 0, 0], 12, CXOF128)?;
    assert_eq!(rt; engine.tell(), Allowance::Unlimited);
    Ok(())
}

#[test]
fn runs_of_the_word_engine(rt: HostRuntime) -> Result<(), Fail> {
    check_runs(&rt, &mut WordEngine::new())
}

#[test]
fn runs_of_the_column_engine(rt: HostRuntime) -> Result<(), Fail> {
    check_runs(&rt, &mut ColumnEngine::new())
}

#[test]
fn rounds_0_and_17_are_refused(rt: HostRuntime) -> Result<(), Fail> {
    check_refused(&rt, &mut WordEngine::new(), 0)?;
    check_refused(&rt, &mut WordEngine::new(), 17)?;
    check_refused(&rt, &mut ColumnEngine::new(), 0)?;
    check_refused(&rt, &mut ColumnEngine::new(), 17)
}

#[test]
fn place_4_is_the_last(rt: HostRuntime) -> Result<(), Fail> {
    let mut engine = WordEngine::new();
    engine.mix(4, 6)?;
    engine.mix(4, 5)?;
    assert_eq!(rt; engine.mix(5, 1), Err(EngineFault::NoSuchWord));
    assert_eq!(rt; engine.read(5), Err(EngineFault::NoSuchWord));
    check_words(&rt, &engine, [0, 0, 0, 0, 3])
}
