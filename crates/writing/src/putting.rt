// Words and records, put into bytes.
ghost use Rattle.std.specs.Prelude.{◌≡◌, ◌+◌, ◌*◌, ◌≤◌, length};
ghost use Rattle.std.specs.List.{flat_map};
ghost use Rattle.records.specs.Words.{bytes_of, spell};
ghost use Rattle.writing.specs.inside.Putting.{placed};

use records::record::Record;

#[tactic(auto, using(crate::proofs::Placing::word_placed), unfolding(crate::specs::inside::Putting::placed))]
fn put_word(out: &mut [u8], at: usize, word: u32)
    requires { at + 4 ≤ length out.old }
    ensures { out.new ≡ placed out.old at (bytes_of word) }
{
    out[at..at + 4].copy_from_slice(&word.to_le_bytes());
}

#[tactic(auto, using(crate::proofs::Placing::placed_none, crate::proofs::Placing::word_more, crate::proofs::Placing::all_words))]
pub(crate) fn put_words(out: &mut [u8], at: usize, words: &[u32])
    requires { at + 4 * length words.now ≤ length out.old }
    ensures { out.new ≡ placed out.old at (spell words.now) }
{
    for (k, word) in words.iter().enumerate() {
        put_word(out, at + 4 * k, *word);
    }
}

// Puts the records one after another. `at` runs on: chunks of `out` in a zip would be written through an adapter that no proof sees through.
pub(crate) fn put_list<R: Record<N>, const N: usize>(out: &mut [u8], start: usize, records: &[R])
    requires { start + 4 * (N * length records.now) ≤ length out.old }
    ensures { out.new ≡ placed out.old start (spell (flat_map R.spelt records.now)) }
{
    let mut at = start;
    for record in records {
        put_words(out, at, &record.write());
        at += 4 * N;
    }
}
