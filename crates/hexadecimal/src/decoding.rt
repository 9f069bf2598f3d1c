// Digits to bytes.
ghost use Rattle.std.specs.Prelude.{◌≡◌, ◌*◌, ◌<◌, ◌&&◌, true, fold, IsTrue, length};
ghost use Rattle.std.specs.Char.{digit_value, is_ascii_hexdigit};
ghost use Rattle.hexadecimal.specs.Hexadecimal.{GivesBack, bytes_of, decode, is_hex};

use crate::fault::HexFault;

// Reads two digits for each byte, in either case, and answers how many bytes.
#[tactic(auto, using(crate::proofs::RoundTrip::gives_back))]
pub fn decode(text: &[u8], bytes: &mut [u8]) -> Result<usize, HexFault>
    ensures bytes_written_or_unchanged { (result, bytes.new) ≡ decode text.now bytes.old }
    ensures decoding_undoes_encoding { GivesBack }
{
    if !is_hex(text) {
        return Err(HexFault::NotHex);
    }
    let count = text.len() / 2;
    if count > bytes.len() {
        return Err(HexFault::OutputTooShort);
    }
    write_bytes(text, &mut bytes[..count]);
    Ok(count)
}

// Whether the text is an even number of digits.
#[tactic(auto, using(crate::proofs::Digits::all_folded))]
fn is_hex(text: &[u8]) -> bool
    ensures hex_is { result ≡ is_hex text.now }
{
    text.len() % 2 == 0 && all_digits(text)
}

// Kept: no early end by `all`, so that many characters are looked at at once.
fn all_digits(text: &[u8]) -> bool
    ensures digits_gathered { result ≡ fold (λ ok c. ok && is_ascii_hexdigit c) true text.now }
{
    text.iter().fold(true, |ok, c| ok & c.is_ascii_hexdigit())
}

#[tactic(auto, using(crate::proofs::Digits::digit_of_pair))]
fn write_bytes(text: &[u8], bytes: &mut [u8])
    requires half_the_digits { length text.now ≡ 2 * length bytes.old }
    requires digits_only { IsTrue (is_hex text.now) }
    ensures all_bytes { bytes.new ≡ bytes_of text.now }
{
    let (pairs, _) = text.as_chunks::<2>();
    // Kept: a write by index, since nothing is known of `bytes` after `bytes.iter_mut().zip(pairs)`.
    for (k, [high, low]) in pairs.iter().enumerate() {
        bytes[k] = value(*high) * 16 + value(*low);
    }
}

// The value of a digit, in either case.
// Kept: ranges, since `char::to_digit` doubles the time of decoding.
#[tactic(auto, using(crate::proofs::Digits::hexdigit_value))]
fn value(digit: u8) -> u8
    requires is_digit { IsTrue (is_ascii_hexdigit digit) }
    ensures value_is { result ≡ digit_value digit }
    ensures below_16 { result < 16 }
{
    match digit {
        b'0'..=b'9' => digit - b'0',
        b'A'..=b'F' => digit - b'A' + 10,
        _ => digit - b'a' + 10,
    }
}
