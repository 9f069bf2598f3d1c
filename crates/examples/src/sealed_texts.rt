// Sealed texts: the limits of length, and that a refusal before the first run changes nothing.
use aead::{Context, Joined, open, seal};
use engine::Engine;
use engines::WordEngine;
use std::test::Fail;
use suite::SuiteFault;

const LIMIT: usize = 16_777_216;

#[test]
fn texts_of_16777216_bytes_are_within_the_limit(rt: HostRuntime) -> Result<(), Fail> {
    let mut engine = WordEngine::new();
    engine.load([1, 2, 3, 4, 5]);
    let long = vec![in rt.alloc(); 0u8; LIMIT + 1]?;
    assert!(rt; long.len() == LIMIT + 1);
    let text = long.as_slice();
    let key = [0; 16];
    let context = Context {
        key: &key,
        nonce: &key,
        data: Joined {
            front: &[],
            back: &[],
        },
    };
    let too_long = seal(&mut engine, &context, text, &mut []);
    assert_eq!(rt; too_long, Err(SuiteFault::InputTooLong));
    let no_room = seal(&mut engine, &context, &text[1..], &mut []);
    assert_eq!(rt; no_room, Err(SuiteFault::OutputTooShort));
    assert_eq!(rt; engine.read(4)?, 5);
    Ok(())
}

#[test]
fn joined_data_counts(rt: HostRuntime) -> Result<(), Fail> {
    let mut engine = WordEngine::new();
    let long = vec![in rt.alloc(); 0u8; LIMIT]?;
    let key = [0; 16];
    let context = Context {
        key: &key,
        nonce: &key,
        data: Joined {
            front: long.as_slice(),
            back: &[0],
        },
    };
    let too_long = open(&mut engine, &context, &[0; 16], &mut []);
    assert_eq!(rt; too_long, Err(SuiteFault::InputTooLong));
    let untagged = open(&mut engine, &context, &[0; 15], &mut []);
    assert_eq!(rt; untagged, Err(SuiteFault::TagMissing));
    Ok(())
}
