// Texts are cut at a byte: lines at their ends, words at blanks.
ghost use Rattle.std.specs.Prelude.{◌≡◌, ◌<◌, ◌==◌, ℕ, List, length, drop};
ghost use Rattle.std.specs.Iterator.{YieldsFirstRef, item_count};
ghost use Rattle.std.specs.List.{after_first, before_first, position_or_len};
ghost use Rattle.words.specs.Words.{lines};

use std::marker::Model;

// How many bytes stand before the first `stop`, or in all.
fn upto(text: &[u8], stop: u8) -> usize
    ensures { result ≡ position_or_len (λ b. b == stop) text.now }
{
    text.iter().position(|b| *b == stop).unwrap_or(text.len())
}

// The text before the first `stop`, and from there on.
#[tactic(auto, using(crate::proofs::Splits::here_within))]
pub(crate) fn cut(text: &[u8], stop: u8) -> (&[u8], &[u8])
    ensures front { result.0.now ≡ before_first (λ b. b == stop) text.now }
    ensures behind { result.1.now ≡ drop (position_or_len (λ b. b == stop) text.now) text.now }
{
    text.split_at(upto(text, stop))
}

// The first line, and the text behind its end.
#[tactic(auto, using(crate::proofs::Splits::one_past))]
pub fn split_line(text: &[u8]) -> (&[u8], &[u8])
    ensures line { result.0.now ≡ before_first (λ b. b == 10) text.now }
    ensures rest { result.1.now ≡ after_first (λ b. b == 10) text.now }
    ensures shorter { 0 < length text.now → length result.1.now < length text.now }
{
    let (line, rest) = cut(text, b'\n');
    match rest.split_first() {
        Some((_, more)) => (line, more),
        None => (line, rest),
    }
}

// The lines of a text that are left, each without its end.
#[derive(Drop)]
pub struct Lines<'a> {
    rest: &'a [u8],
}

impl<'a> Model for Lines<'a> {
    ghost Value = { List (List ℕ) };

    ghost view = { λ left. lines left.rest.now };
}

impl<'a> Lines<'a> {
    // Behind the last end is one more where anything stands there.
    pub fn of(text: &'a [u8]) -> Lines<'a>
        ensures { result ≡ lines text.now }
    {
        Lines { rest: text }
    }
}

impl<'a> Iterator for Lines<'a> {
    type Item = &'a [u8];

    ghost next_gives = { YieldsFirstRef (λ left. left) };

    ghost remaining = { item_count (λ left. left) };

    #[tactic(auto, using(crate::proofs::Splits::first_line))]
    fn next(&mut self) -> Option<&'a [u8]> {
        if self.rest.is_empty() {
            return None;
        }
        let (line, rest) = split_line(self.rest);
        self.rest = rest;
        Some(line)
    }
}
