// One list, as it stands in an image, and read into an array.
ghost use Rattle.std.specs.Prelude.{◌≡◌, ◌+◌, ◌*◌, ◌/◌, ◌<◌, ◌≤◌, drop, take, length};
ghost use Rattle.std.specs.Simd.{first_chunks};
ghost use Rattle.records.specs.Rows.{rows, readings};
ghost use Rattle.parts.specs.Holding.{RowsRead};

use records::list::ListOf;
use records::record::{Record, RecordFault};
use records::rows::{check, read_or};
use records::word::after;

// Bytes in words of four.
fn words_of(bytes: &[u8]) -> &[[u8; 4]]
    ensures front { result.now ≡ first_chunks 4 (length bytes.now / 4) bytes.now }
    ensures long { length result.now ≡ length bytes.now / 4 }
{
    let (words, _short) = bytes.as_chunks::<4>();
    words
}

// The `count` records from byte `at` on, as they stand there.
fn rows_at<const N: usize>(image: &[u8], at: usize, count: usize) -> &[[[u8; 4]; N]]
    requires some { 0 < N }
    requires there { at + 4 * (N * count) ≤ length image.now }
    ensures { result.now ≡ rows N count (drop at image.now) }
{
    let (rows, _more) = words_of(after(image, at)).as_chunks::<N>();
    &rows[..count]
}

// The same, or the first of them that means nothing.
#[tactic(auto, using(records::proofs::Chunks::fails_there, records::proofs::Chunks::none_there))]
pub(crate) fn rows_of<R: Record<N>, const N: usize>(
    image: &[u8],
    at: usize,
    count: usize,
    list: ListOf,
) -> Result<&[[[u8; 4]; N]], RecordFault>
    requires some { 0 < N }
    requires there { at + 4 * (N * count) ≤ length image.now }
    ensures { RowsRead R.meant N count list (drop at image.now) result }
{
    let rows = rows_at(image, at, count);
    check::<R, N>(rows, list)?;
    Ok(rows)
}

// Reads the records into the front of `places`.
pub(crate) fn fill<R: Record<N>, const N: usize>(places: &mut [R], rows: &[[[u8; 4]; N]], blank: R)
    requires { length rows.now ≤ length places.old }
    ensures read { take (length rows.now) places.new ≡ readings R.meant blank rows.now }
    ensures long { length places.new ≡ length places.old }
{
    for (k, row) in rows.iter().enumerate() {
        places[k] = read_or(row, blank);
    }
}
