// Records where they stand in an image: each is read when it is asked for, and nothing is copied.
ghost use Rattle.std.specs.Prelude.{◌≡◌, ℕ, MatchResult, None, Err, is_none, position, unwrap_or};
ghost use Rattle.std.specs.List.{slice_get};
ghost use Rattle.std.specs.Result.{result_err};
ghost use Rattle.records.specs.Rows.{words_in, readings, read_all};

use crate::list::ListOf;
use crate::record::{Record, RecordFault};

// A record's words, each as its four bytes.
#[inline(always)]
fn words_in<const N: usize>(row: &[[u8; 4]; N]) -> [u32; N]
    ensures { result ≡ words_in row.now }
{
    let mut words = [0; N];
    for (k, word) in words.iter_mut().enumerate() {
        *word = u32::from_le_bytes(row[k]);
    }
    words
}

#[inline(always)]
fn read_row<R: Record<N>, const N: usize>(row: &[[u8; 4]; N]) -> Option<R>
    ensures { result ≡ R.meant (words_in row.now) }
{
    R::read(&words_in(row))
}

// What a record means, or `blank` where it means nothing.
#[inline(always)]
pub fn read_or<R: Record<N>, const N: usize>(row: &[[u8; 4]; N], blank: R) -> R
    ensures { result ≡ unwrap_or (R.meant (words_in row.now)) blank }
{
    read_row(row).unwrap_or(blank)
}

// Record `i` of a list.
#[inline(always)]
pub fn read_at<R: Record<N>, const N: usize>(rows: &[[[u8; 4]; N]], i: usize, blank: R) -> Option<R>
    ensures { result ≡ slice_get (readings R.meant blank rows.now) i }
{
    match rows.get(i) {
        Some(row) => Some(read_or(row, blank)),
        None => None,
    }
}

fn means_nothing<R: Record<N>, const N: usize>(row: &[[u8; 4]; N]) -> bool
    ensures { result ≡ is_none (R.meant (words_in row.now)) }
{
    read_row::<R, N>(row).is_none()
}

fn first_meaningless<R: Record<N>, const N: usize>(rows: &[[[u8; 4]; N]]) -> Option<usize>
    ensures { result ≡ position (λ r. is_none (R.meant (words_in r))) rows.now }
{
    // The closure has a clause, since none is found for a generic one.
    rows.iter().position(
        |row| -> bool
            ensures { result ≡ is_none (R.meant (words_in row.now)) }
        { means_nothing::<R, N>(row) },
    )
}

// The first record of a list that means nothing, if there is one.
#[tactic(auto, using(crate::proofs::Chunks::all_mean, crate::proofs::Chunks::one_fails))]
pub fn check<R: Record<N>, const N: usize>(
    rows: &[[[u8; 4]; N]],
    list: ListOf,
) -> Result<(), RecordFault>
    ensures { MatchResult result (λ _. result_err (read_all R.meant rows.now) ≡ None) (λ f. (f.list ≡ list) × (read_all R.meant rows.now ≡ Err f.record)) }
{
    match first_meaningless::<R, N>(rows) {
        Some(record) => Err(RecordFault { list, record }),
        None => Ok(()),
    }
}
