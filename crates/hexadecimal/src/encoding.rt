// Bytes to digits.
ghost use Rattle.std.specs.Prelude.{◌≡◌, ◌*◌, ◌<◌, length};
ghost use Rattle.std.specs.Char.{digit_char};
ghost use Rattle.hexadecimal.specs.Hexadecimal.{encode, encoded};

use crate::fault::HexFault;

// Writes two digits for each byte, in lower case and the high one first, and answers how many.
pub fn encode(bytes: &[u8], text: &mut [u8]) -> Result<usize, HexFault>
    ensures digits_written_or_unchanged { (result, text.new) ≡ encode bytes.now text.old }
{
    if bytes.len() > text.len() / 2 {
        return Err(HexFault::OutputTooShort);
    }
    let count = bytes.len() * 2;
    write_digits(bytes, &mut text[..count]);
    Ok(count)
}

fn write_digits(bytes: &[u8], text: &mut [u8])
    requires two_for_each { length text.old ≡ 2 * length bytes.now }
    ensures all_digits { text.new ≡ encoded bytes.now }
{
    // Kept: writes by index, since nothing is known of `text` after `text.as_chunks_mut::<2>()`.
    for (k, byte) in bytes.iter().enumerate() {
        text[2 * k] = digit(*byte / 16);
        text[2 * k + 1] = digit(*byte % 16);
    }
}

// The digit of a value, in lower case.
fn digit(value: u8) -> u8
    requires below_16 { value < 16 }
    ensures digit_is { result ≡ digit_char value }
{
    char::from_digit(u32::from(value), 16).unwrap() as u8
}
