// The words of a line, parted by blanks.
ghost use Rattle.std.specs.Prelude.{◌≡◌, ◌==◌, [], ◌∷◌, ℕ, List, drop, not, IfNone, IfSome};
ghost use Rattle.std.specs.Iterator.{YieldsFirstRef, item_count};
ghost use Rattle.std.specs.List.{before_first, position, position_or_len};
ghost use Rattle.words.specs.Words.{words};

use crate::text::cut;
use std::marker::Model;

// Where the first word begins.
fn first_letter(text: &[u8]) -> Option<usize>
    ensures { result ≡ position (λ b. not (b == 32)) text.now }
{
    text.iter().position(|b| *b != b' ')
}

// The text from its first word on.
#[tactic(auto, using(crate::proofs::Splits::no_letter, crate::proofs::Splits::from_letter))]
fn from_word(text: &[u8]) -> Option<&[u8]>
    ensures none { IfNone result (words text.now ≡ []) }
    ensures first { IfSome result (λ t. words text.now ≡ before_first (λ b. b == 32) t.now ∷ words (drop (position_or_len (λ b. b == 32) t.now) t.now)) }
{
    match first_letter(text) {
        Some(start) => Some(&text[start..]),
        None => None,
    }
}

// The words of a line that are left.
#[derive(Drop)]
pub struct Words<'a> {
    rest: &'a [u8],
}

impl<'a> Model for Words<'a> {
    ghost Value = { List (List ℕ) };

    ghost view = { λ left. words left.rest.now };
}

impl<'a> Words<'a> {
    pub fn of(line: &'a [u8]) -> Words<'a>
        ensures { result ≡ words line.now }
    {
        Words { rest: line }
    }

    // The text of the words that are left.
    pub fn rest(&self) -> &'a [u8]
        ensures { words result.now ≡ self.now }
    {
        &self.rest[..]
    }
}

impl<'a> Iterator for Words<'a> {
    type Item = &'a [u8];

    ghost next_gives = { YieldsFirstRef (λ left. left) };

    ghost remaining = { item_count (λ left. left) };

    fn next(&mut self) -> Option<&'a [u8]> {
        let (word, rest) = cut(from_word(self.rest)?, b' ');
        self.rest = rest;
        Some(word)
    }
}
