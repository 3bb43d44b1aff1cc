// Decimal numbers.
ghost use Rattle.std.specs.Prelude.{◌≡◌, ◌-◌, ◌^◌, min};
ghost use Rattle.std.specs.Char.{is_ascii_digit};
ghost use Rattle.std.specs.List.{list_all};
ghost use Rattle.words.specs.Words.{decimal, value};

use crate::fault::Fault;

fn all_digits(word: &[u8]) -> bool
    ensures { result ≡ list_all is_ascii_digit word.now }
{
    word.iter().all(u8::is_ascii_digit)
}

// Beyond every number.
const BEYOND: u64 = 0x1_0000_0000;

// The value of the word's digits, or 2^32 where it is beyond that. What is cut before a step needs no test within it.
fn value(digits: &[u8]) -> u64
    ensures { result ≡ min (value digits.now) (2 ^ 32) }
{
    let sum = digits.iter().fold(0, |n: u64, digit| {
        n.min(BEYOND) * 10 + u64::from(digit.saturating_sub(b'0'))
    });
    sum.min(BEYOND)
}

// A number that is at most `most`. Not by `parse`, which takes a sign and tells no number too large from no number.
pub(crate) fn number_of(word: &[u8], most: u32) -> Result<u32, Fault>
    ensures { result ≡ decimal most word.now }
{
    if word.is_empty() || !all_digits(word) {
        return Err(Fault::Number);
    }
    match u32::try_from(value(word)) {
        Ok(n) if n <= most => Ok(n),
        _ => Err(Fault::Large),
    }
}
