// Digest sessions: a published digest, customizations and outputs at their limits, and the longest message.
use clients::hash_on_loan;
use digest::{Absorbing, Customization};
use engine::{Allowance, Engine};
use engines::WordEngine;
use layers::Quota;
use std::process::Abort;
use std::test::Fail;
use suite::SuiteFault;

// Ascon-Hash256 of the empty message, as published.
const EMPTY_DIGEST: [u8; 32] = [
    0x0b, 0x3b, 0xe5, 0x85, 0x0f, 0x2f, 0x6b, 0x98, 0xca, 0xf2, 0x9f, 0x8f, 0xde, 0xa8, 0x9b, 0x64,
    0xa1, 0xfa, 0x70, 0xaa, 0x24, 0x9b, 0x8f, 0x83, 0x9b, 0xd5, 0x3b, 0xaa, 0x30, 0x4d, 0x92, 0xb2,
];

#[test]
fn empty_message_costs_5_runs(rt: HostRuntime) -> Result<(), Fail> {
    let mut engine = Quota::new(WordEngine::new(), 5);
    let mut digest = [0; 32];
    hash_on_loan(&mut engine, &[], &mut digest)?;
    assert_eq!(rt; digest, EMPTY_DIGEST);
    assert_eq!(rt; engine.tell(), Allowance::Limited(0));
    assert_eq!(rt; engine.read(0)?, 0);
    Ok(())
}

#[test]
fn a_33rd_byte_is_refused(rt: HostRuntime) {
    let mut engine = WordEngine::new();
    let mut long = [0xee; 33];
    let refused = hash_on_loan(&mut engine, &[], &mut long);
    assert_eq!(rt; refused, Err(SuiteFault::OutputTooLong));
    assert_eq!(rt; long, [0xee; 33]);
}

#[test]
fn customizations_have_at_most_256_bytes(rt: HostRuntime) -> Result<(), Fail> {
    let bytes = [7; 257];
    let mut custom = Customization::empty();
    custom.make(&bytes[1..])?;
    assert_eq!(rt; custom.bytes().len(), 256);
    let refused = custom.make(&bytes);
    assert_eq!(rt; refused, Err(SuiteFault::CustomizationTooLong));
    assert_eq!(rt; custom.bytes().len(), 256);
    Ok(())
}

// Absorbs the longest message. One byte more is refused, no byte more is not.
fn absorb_longest(
    rt: &impl Abort,
    session: &mut Absorbing<WordEngine>,
    long: &[u8],
) -> Result<(), Fail> {
    session.absorb(long)?;
    assert_eq!(rt; session.absorb(&[0]), Err(SuiteFault::MessageTooLong));
    session.absorb(&[])?;
    Ok(())
}

#[test]
fn messages_have_at_most_16777216_bytes(rt: HostRuntime) -> Result<(), Fail> {
    let long = vec![in rt.alloc(); 0u8; 16_777_216]?;
    let mut session = Absorbing::xof128(WordEngine::new());
    let absorbed = absorb_longest(&rt, &mut session, long.as_slice());
    session.end();
    absorbed
}
