// Keys of links: a key as another implementation gives it, at the price of its runs, and an engine that lacks one.
use digest::Customization;
use engine::{Allowance, Engine, EngineFault};
use engines::WordEngine;
use key::{Key, Secret, derive_key};
use layers::Quota;
use std::test::Fail;
use suite::SuiteFault;

// The secret 00 01 .. 1f.
fn secret() -> Secret {
    std::array::from_fn(|i| (i & 0xff) as u8)
}

// The key of the secret under the name `ring-1/2`.
const KEY: Key = [
    0x64, 0xce, 0xf0, 0xdb, 0xa3, 0xf2, 0xd6, 0x02, 0x4a, 0x7b, 0x48, 0xfb, 0x05, 0x42, 0xa6, 0x2b,
];

#[test]
fn a_name_of_8_bytes_costs_10_runs(rt: HostRuntime) -> Result<(), Fail> {
    let mut engine = Quota::new(WordEngine::new(), 10);
    let mut name = Customization::empty();
    name.make(b"ring-1/2".as_slice())?;
    let key = derive_key(&mut engine, &secret(), name)?;
    assert_eq!(rt; key, KEY);
    assert_eq!(rt; engine.tell(), Allowance::Limited(0));
    assert_eq!(rt; engine.read(0)?, 0);
    Ok(())
}

#[test]
fn a_key_is_refused_where_its_last_run_is_lacking(rt: HostRuntime) -> Result<(), Fail> {
    let mut engine = Quota::new(WordEngine::new(), 8);
    let refused = derive_key(&mut engine, &secret(), Customization::empty());
    let no_runs = SuiteFault::Engine(EngineFault::NoRunsLeft, 8);
    assert_eq!(rt; refused, Err(no_runs));
    assert_eq!(rt; engine.read(0)?, 0);
    Ok(())
}

#[test]
fn a_key_is_refused_where_the_start_lacks_a_run(rt: HostRuntime) {
    let mut engine = Quota::new(WordEngine::new(), 0);
    let refused = derive_key(&mut engine, &secret(), Customization::empty());
    let no_runs = SuiteFault::Engine(EngineFault::NoRunsLeft, 0);
    assert_eq!(rt; refused, Err(no_runs));
}
