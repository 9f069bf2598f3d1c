// The permutation's tables, and the known answers of the self-test.
use crate::substitution::State;

// The round constants; a run of r rounds uses the last r.
pub const ROUND_CONSTANTS: [u64; 16] = [
    0x3c, 0x2d, 0x1e, 0x0f, 0xf0, 0xe1, 0xd2, 0xc3, 0xb4, 0xa5, 0x96, 0x87, 0x78, 0x69, 0x5a, 0x4b,
];

// The S-box: what each column of five bits is replaced by.
pub const SBOX: [u8; 32] = [
    0x04, 0x0b, 0x1f, 0x14, 0x1a, 0x15, 0x09, 0x02, 0x1b, 0x05, 0x08, 0x12, 0x1d, 0x03, 0x06, 0x1c,
    0x1e, 0x13, 0x07, 0x0e, 0x00, 0x0d, 0x11, 0x18, 0x10, 0x0c, 0x01, 0x19, 0x16, 0x0a, 0x0f, 0x17,
];

// The state after the initialization phase of Ascon-Hash256 (SP 800-232, Table 12).
pub const HASH256_INITIAL: State = [
    0x9b1e_5494_e934_d681,
    0x4bc3_a01e_3337_51d2,
    0xae65_396c_6b34_b81a,
    0x3c7f_d4a4_d56a_4db3,
    0x1a5c_4649_06c5_976d,
];

// The same of Ascon-XOF128.
pub const XOF128_INITIAL: State = [
    0xda82_ce76_8d94_47eb,
    0xcc7c_e6c7_5f1e_f969,
    0xe750_8fd7_8008_5631,
    0x0ee0_ea53_416b_58cc,
    0xe054_7524_db6f_0bde,
];

// The same of Ascon-CXOF128.
pub const CXOF128_INITIAL: State = [
    0x6755_27c2_a0e8_de03,
    0x43d1_2d7d_c037_7bbc,
    0xe990_1dec_426e_81b5,
    0x2ab1_4907_7207_80b6,
    0x8f3f_1d02_d432_bc46,
];
