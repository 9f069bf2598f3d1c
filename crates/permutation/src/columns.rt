// The substitution layer column by column: each of the 64 columns is looked up in the S-box.
ghost use Rattle.std.specs.Prelude.{◌≡◌, ◌*◌, ◌^◌, ◌<◌, bit_or, slice_index};
ghost use Rattle.permutation.specs.Bits.{bit};
ghost use Rattle.permutation.specs.OneColumn.{gathered, with_column};
ghost use Rattle.permutation.specs.Permutation.{column, sbox};

use crate::substitution::{State, Substitution};
use crate::tables::SBOX;

#[derive(Clone, Copy)]
pub struct Columns;

impl Substitution for Columns {
    #[tactic(auto, using(crate::proofs::Gathered::gathered_all))]
    fn substituted(x: State) -> State {
        look_up(x)
    }
}

#[tactic(auto, using(crate::proofs::Gathered::gathered_none, crate::proofs::Gathered::gathered_more))]
fn look_up(x: State) -> State
    ensures all_columns_gathered { result ≡ gathered x 64 }
{
    let mut y = [0; 5];
    // Kept: `j` is the number of a column and indexes nothing; a `fold` over it would hide that the columns are set one by one.
    for j in 0..64 {
        let replacement = entry(column_at(&x, j));
        set_column(&mut y, j, u64::from(replacement));
    }
    y
}

// The S-box's entry of a column.
fn entry(column: usize) -> u8
    requires five_bits { column < 32 }
    ensures entry_is { result ≡ slice_index sbox column }
{
    SBOX[column]
}

// Column `j`: bit `j` of the five words, that of w0 highest.
// Kept: `j` is a number here and below, since a type for a place below 64 would be taken apart at each shift; and the five words are written
// out, since each has a weight of its own.
fn column_at(x: &State, j: u32) -> usize
    requires in_the_word { j < 64 }
    ensures column_is { result ≡ column x.now j }
    ensures five_bits { result < 32 }
{
    let [x0, x1, x2, x3, x4] = *x;
    (bit_at(x0, j) * 16
        + bit_at(x1, j) * 8
        + bit_at(x2, j) * 4
        + bit_at(x3, j) * 2
        + bit_at(x4, j)) as usize
}

// Sets the five bits of `entry` into column `j`, which is zero so far.
fn set_column(y: &mut State, j: u32, entry: u64)
    requires in_the_word { j < 64 }
    ensures column_set { y.new ≡ with_column y.old j entry }
{
    let [y0, y1, y2, y3, y4] = *y;
    *y = [
        with_bit(y0, j, bit_at(entry, 4)),
        with_bit(y1, j, bit_at(entry, 3)),
        with_bit(y2, j, bit_at(entry, 2)),
        with_bit(y3, j, bit_at(entry, 1)),
        with_bit(y4, j, bit_at(entry, 0)),
    ];
}

// Bit `j` of a word.
fn bit_at(word: u64, j: u32) -> u64
    requires in_the_word { j < 64 }
    ensures bit_is { result ≡ bit word j }
{
    word >> j & 1
}

// The word with a bit ORed in at place `j`.
fn with_bit(word: u64, j: u32, bit: u64) -> u64
    requires in_the_word { j < 64 }
    requires one_bit { bit < 2 }
    ensures bit_set { result ≡ bit_or word (bit * 2 ^ j) }
{
    word | bit << j
}
