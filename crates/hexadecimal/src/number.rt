// Numbers: decimal digits, or `0x` and hexadecimal digits.
ghost use Rattle.std.specs.Prelude.{◌≤◌};
ghost use Rattle.hexadecimal.specs.Numbers.{OneMore, Parsed, PrintedIsRead, ReadsDigits};

// The number that a text writes, if it writes one below 2^64.
#[tactic(auto, using(crate::proofs::Numerals::printing))]
pub fn parse_number(text: &[u8]) -> Option<u64>
    ensures number_written { Parsed text.now result }
    ensures printed_is_read { PrintedIsRead text.now result }
{
    match text {
        [b'0', b'x', digits @ ..] => parse_digits(digits, 16),
        _ => parse_digits(text, 10),
    }
}

// The number that digits write.
#[tactic(auto, using(crate::proofs::Numerals::reading))]
fn parse_digits(digits: &[u8], radix: u32) -> Option<u64>
    requires two_or_more { 2 ≤ radix }
    requires at_most_16 { radix ≤ 16 }
    ensures number_written { ReadsDigits radix digits.now result }
{
    if digits.is_empty() {
        return None;
    }
    let mut number = 0;
    for digit in digits {
        number = one_more(number, *digit, radix)?;
    }
    Some(number)
}

// The number that one digit more writes.
fn one_more(number: u64, digit: u8, radix: u32) -> Option<u64>
    requires two_or_more { 2 ≤ radix }
    requires at_most_16 { radix ≤ 16 }
    ensures number_written { OneMore radix number digit result }
{
    let value = char::from(digit).to_digit(radix)?;
    number
        .checked_mul(u64::from(radix))?
        .checked_add(u64::from(value))
}
