// The slots that a make is handed: all are emptied, and the first 65,536 count.
ghost use Rattle.std.specs.Prelude.{◌≡◌, length, replicate};
ghost use Rattle.stores.specs.Slots.{counted};

const MOST: usize = 65_536;

// The same slots, each of them empty. Not by `fill`: it asks that a clone can't fail, and `T: Copy` doesn't say so.
pub fn emptied<T: Copy>(mut slots: Vec<T>, empty: T) -> Vec<T>
    ensures items { result.items ≡ replicate (length slots.items) empty }
    ensures len { length result.items ≡ length slots.items }
{
    slots.fill_with(|| empty);
    slots
}

// The slots that count.
#[tactic(auto, using(crate::proofs::Counted::counted_front))]
pub fn first_of<T>(slots: &[T]) -> &[T]
    ensures { result.now ≡ counted slots.now }
{
    &slots[..slots.len().min(MOST)]
}
