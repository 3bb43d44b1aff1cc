// Bytes in hex: two digits for each, the lower-case ones.
ghost use Rattle.std.specs.Prelude.{◌≡◌, ◌<◌, ◌++◌, IfOk, string_bytes, OnOk};
ghost use Rattle.std.specs.List.{list_all};
ghost use Rattle.hex_bytes.specs.Hex.{bytes_of, glyph_of, hex_of, hexed, is_hex, nibble_of, spelled};

use std::alloc::{AllocError, Global};

fn is_digit(b: u8) -> bool
    ensures { result ≡ is_hex b }
{
    matches!(b, b'0'..=b'9' | b'a'..=b'f')
}

fn all_digits(word: &[u8]) -> bool
    ensures { result ≡ list_all is_hex word.now }
{
    word.iter().all(|b| is_digit(*b))
}

// Whether the word is bytes in hex.
pub fn is_hex(word: &[u8]) -> bool
    ensures { result ≡ hexed word.now }
{
    all_digits(word) && word.len() % 2 == 0
}

// Not `to_digit`, which answers nothing for what is no digit: every byte has a value here.
#[tactic(auto, unfolding(crate::specs::Hex::nibble_of))]
fn nibble(digit: u8) -> u8
    ensures value { result ≡ nibble_of digit }
    ensures small { result < 16 }
{
    if digit < b'a' {
        digit.saturating_sub(b'0') % 16
    } else {
        (digit - b'a' + 10) % 16
    }
}

// The bytes that the digits stand for; a last one without a second is left out.
pub fn bytes_of(heap: Global, digits: &[u8]) -> Result<Vec<u8>, AllocError>
    ensures { IfOk result (λ v. v.items ≡ bytes_of digits.now) }
{
    let (pairs, _) = digits.as_chunks::<2>();
    pairs
        .iter()
        .map(|[high, low]| 16 * nibble(*high) + nibble(*low))
        .collect(heap)
}

#[tactic(auto, unfolding(crate::specs::Hex::glyph_of))]
fn glyph(n: u8) -> char
    requires { n < 16 }
    ensures value { result ≡ glyph_of n }
    ensures ascii { result < 128 }
{
    if n < 10 {
        (b'0' + n) as char
    } else {
        (b'a' + n - 10) as char
    }
}

// Not by `write!`, whose error says no more that memory was wanted.
fn push_byte(text: &mut String, b: u8) -> Result<(), AllocError>
    ensures { OnOk result (string_bytes text.new ≡ string_bytes text.old ++ spelled b) }
{
    text.push(glyph(b / 16))?;
    text.push(glyph(b % 16))?;
    Ok(())
}

// The text with the digits of the bytes behind it. It is given away, so that nothing of it is left where memory is wanting.
pub fn push_hex(mut text: String, bytes: &[u8]) -> Result<String, AllocError>
    ensures { IfOk result (λ s. string_bytes s ≡ string_bytes text ++ hex_of bytes.now) }
{
    for b in bytes {
        push_byte(&mut text, *b)?;
    }
    Ok(text)
}

// The digits of the bytes.
pub fn hex_of(heap: Global, bytes: &[u8]) -> Result<String, AllocError>
    ensures { IfOk result (λ s. string_bytes s ≡ hex_of bytes.now) }
{
    push_hex(String::new(heap), bytes)
}
