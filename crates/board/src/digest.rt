// A number that tells two memories apart, mostly.
ghost use Rattle.std.specs.Prelude.{◌≡◌};
ghost use Rattle.board.specs.Runs.{digest_of};

// The sum of the words, each times its place counted from 1. It wraps as words do.
#[tactic(auto, using(crate::proofs::Digests::one_more))]
pub(crate) fn digest_of(words: &[u32]) -> u32
    ensures { result ≡ digest_of words.now }
{
    let mut sum: u32 = 0;
    for (i, word) in words.iter().enumerate() {
        let weight = ((i as u64 + 1) % 0x1_0000_0000) as u32;
        sum = sum.wrapping_add(weight.wrapping_mul(*word));
    }
    sum
}
