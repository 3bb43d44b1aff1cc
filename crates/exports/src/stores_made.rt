// The stores that a caller can choose from, each on so many empty slots.
ghost use Rattle.std.specs.Prelude.{◌≡◌, None, replicate, MatchResult};
ghost use Rattle.exports.specs.declared.undone.Undone.TheVariants.{Room};

use crate::undone::Undone;
use array_store::ArrayStore;
use hash_store::HashStore;
use std::alloc::Global;
use values::marked::Marked;
use window::Window;

// Where a window's addresses begin in the store below.
const BASE: u32 = 1000;

pub(crate) fn array(heap: Global, slots: usize) -> Result<ArrayStore<Marked>, Undone>
    ensures { MatchResult result (λ s. s.slots.items ≡ replicate slots None) (λ u. u ≡ Room) }
{
    let empty = vec![in heap; None; slots]?;
    Ok(ArrayStore::new(empty))
}

pub(crate) fn hash(heap: Global, slots: usize) -> Result<HashStore<Marked>, Undone>
    ensures { MatchResult result (λ s. s.slots.items ≡ replicate slots None) (λ u. u ≡ Room) }
{
    let empty = vec![in heap; None; slots]?;
    Ok(HashStore::new(empty))
}

pub(crate) fn window(
    heap: Global,
    slots: usize,
    len: u32,
) -> Result<Window<HashStore<Marked>>, Undone>
    ensures { MatchResult result (λ w. (w.base ≡ 1000) × (w.len ≡ len) × (w.below.slots.items ≡ replicate slots None)) (λ u. u ≡ Room) }
{
    Ok(Window::new(BASE, len, hash(heap, slots)?))
}
