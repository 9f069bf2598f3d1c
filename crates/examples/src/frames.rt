// Frames: one that another implementation gave, made and read, and the questions of reading at the ends of ranges.
use aead::{Context, Joined, open, seal};
use engine::{Allowance, Engine, Refusal};
use engines::WordEngine;
use frame::{Fields, LinkFault, nonce, read_trailer, write_trailer};
use layers::Quota;
use std::test::Fail;

// Key 00 01 .. 0f, station 0x0a000001, number 5, header 01 02 03, body 00 01 .. 13.
const FRAME: [u8; 55] = [
    0x01, 0x02, 0x03, 0xb7, 0x2c, 0xda, 0xdc, 0x3e, 0x70, 0xd5, 0xf1, 0xa3, 0x6b, 0xbc, 0x4b, 0x4e,
    0x50, 0x9a, 0x15, 0x98, 0x0f, 0x73, 0xd7, 0x53, 0x18, 0x6d, 0xa0, 0xf0, 0xe2, 0x8e, 0xfd, 0x67,
    0x5d, 0x08, 0xcf, 0xf4, 0x8c, 0x0f, 0xfa, 0x00, 0x00, 0x00, 0x00, 0x00, 0x05, 0x0a, 0x00, 0x00,
    0x01, 0x00, 0x03, 0x00, 0x14, 0xa5, 0x01,
];

const FIELDS: Fields = Fields {
    number: 5,
    station: 0x0a00_0001,
    header: 3,
    body: 20,
};

#[test]
fn frame_is_made_and_read(rt: HostRuntime) -> Result<(), Fail> {
    let key = [0, 1, 2, 3, 4, 5, 6, 7, 8, 9, 10, 11, 12, 13, 14, 15];
    let nonce = nonce(FIELDS.station, FIELDS.number);
    let trailer = write_trailer(FIELDS);
    let header = [1, 2, 3];
    let body = [
        0, 1, 2, 3, 4, 5, 6, 7, 8, 9, 10, 11, 12, 13, 14, 15, 16, 17, 18, 19,
    ];
    let data = Joined {
        front: &header,
        back: &trailer,
    };
    let context = Context {
        key: &key,
        nonce: &nonce,
        data,
    };
    let mut engine = Quota::new(WordEngine::new(), 10);
    let mut sealed = [0; 36];
    assert_eq!(rt; seal(&mut engine, &context, &body, &mut sealed), Ok(36));
    assert_eq!(rt; engine.tell(), Allowance::Limited(5));
    let parts = read_trailer(&FRAME)?;
    assert!(rt; parts.fields == FIELDS);
    assert!(rt; parts.header == &header[..]);
    assert!(rt; parts.sealed == &sealed[..]);
    assert!(rt; parts.ciphertext == &sealed[..20]);
    assert!(rt; *parts.trailer == trailer);
    let mut text = [0xff; 20];
    assert_eq!(rt;
        open(&mut engine, &context, parts.sealed, &mut text),
        Ok(20)
    );
    assert!(rt; text == body);
    assert_eq!(rt; engine.tell(), Allowance::Limited(0));
    Ok(())
}

// What reading this frame refuses.
fn refusal(frame: &[u8]) -> Option<LinkFault> {
    read_trailer(frame).err()
}

#[test]
fn questions_come_in_order(rt: HostRuntime) -> Result<(), Fail> {
    assert_eq!(rt; refusal(&[0xff; 31]), Some(LinkFault::FrameTooShort));
    assert_eq!(rt; refusal(&[0xff; 32]), Some(LinkFault::MarkMissing));
    // a frame from the third byte on
    assert_eq!(rt; refusal(&FRAME[3..]), Some(LinkFault::WrongLengths));
    assert_eq!(rt; refusal(&FRAME), None);
    let empty = write_trailer(Fields {
        header: 0,
        body: 0,
        ..FIELDS
    });
    let mut frame = [0; 32];
    frame[16..].copy_from_slice(&empty);
    assert_eq!(rt; refusal(&frame), None);
    let fault = LinkFault::WrongStation;
    assert_eq!(rt; (fault.number(), fault.place()), (19, 6));
    Ok(())
}

#[test]
fn longest_frame_reads(rt: HostRuntime) -> Result<(), Fail> {
    let mut frame = [0; 1488];
    frame[1472..].copy_from_slice(&write_trailer(Fields {
        header: 256,
        body: 1200,
        ..FIELDS
    }));
    assert_eq!(rt; refusal(&frame), None);
    frame[1472..].copy_from_slice(&write_trailer(Fields {
        header: 257,
        body: 1199,
        ..FIELDS
    }));
    assert_eq!(rt; refusal(&frame), Some(LinkFault::WrongLengths));
    Ok(())
}
