// Where the globals lie.
ghost use Rattle.std.specs.Prelude.{◌≡◌, ◌*◌, ◌<◌, ◌≤◌, length, MatchOption, unwrap_or};
ghost use Rattle.std.specs.List.{slice_get};
ghost use Rattle.parts.specs.Content.{shown, kinds, globals};
ghost use Rattle.rules.specs.Types.{size};
ghost use Rattle.tables.specs.Tables.{words, Placed, Over, AllPlaced};

use content::global::Global;
use parts::image::Image;
use parts::items::{GLOBAL, kind_at};
use records::rows::read_or;
use rules::lookup::size;

// The words from `low` up to and without `high`.
#[derive(Clone, Copy, PartialEq, Eq)]
pub struct Span {
    pub low: u32,
    pub high: u32,
}

fn global_words(types: &[[[u8; 4]; 3]], global: Global) -> u64
    ensures value { result ≡ unwrap_or (size (slice_get (kinds types.now) global.kind)) 0 * global.count }
    ensures few { result ≤ 18446744065119617025 }
{
    let size = size(kind_at(types, global.kind as usize)).unwrap_or(0);
    size as u64 * global.count as u64
}

// The spans are an array beside the list of globals, as long as that may be: the board has no heap.
#[derive(Clone, Copy)]
pub struct Places {
    // Where each global lies.
    pub spans: [Span; 64],
    // Where the heap begins.
    pub heap: u32,
}

// Places the globals one after another; nothing where they take more than `limit` words.
#[tactic(auto, using(crate::proofs::Words::words_next, crate::proofs::Words::words_front, crate::proofs::Words::words_all, crate::proofs::Words::placed_all))]
fn place_all(types: &[[[u8; 4]; 3]], rows: &[[[u8; 4]; 2]], limit: u32) -> Option<Places>
    requires { length rows.now ≤ 64 }
    ensures { MatchOption result (limit < words (kinds types.now) (globals rows.now)) (λ p. (p.heap ≡ words (kinds types.now) (globals rows.now)) × (p.heap ≤ limit) × Placed (kinds types.now) (globals rows.now) p.spans) }
{
    let mut spans = [Span { low: 0, high: 0 }; 64];
    let mut heap = 0u32;
    // Not a zip with `spans.iter_mut()`: it was tried, and a proof is told nothing of what the loop wrote.
    for (k, row) in rows.iter().enumerate() {
        let high = heap as u64 + global_words(types, read_or(row, GLOBAL));
        if high > limit as u64 {
            return None;
        }
        spans[k] = Span {
            low: heap,
            high: high as u32,
        };
        heap = high as u32;
    }
    Some(Places { spans, heap })
}

// Where the globals lie; nothing where they take more than the memory has.
pub fn places_of(image: &Image) -> Option<Places>
    ensures { MatchOption result (Over (shown image.now)) (λ p. AllPlaced (shown image.now) p) }
{
    place_all(image.types, image.globals, image.header.memory())
}
