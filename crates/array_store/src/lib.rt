//! The array store: address a stands in slot a.
#![tactic(auto)]

ghost use Rattle.std.specs.Prelude.{◌≡◌, ℕ, min, true, false, is_ok, length, replicate, None, nat_lt};
ghost use Rattle.array_store.specs.Array.{array_entry, array_kept, array_taken};
ghost use Rattle.array_store.specs.inside.Rows.{SlotWritten, array_held, array_lasting};

use stores::slots::{emptied, first_of};
use stores::store::{NotTaken, Store};

#[derive(Drop)]
pub struct ArrayStore<V: Copy> {
    slots: Vec<Option<V>>,
}

impl<V: Copy> ArrayStore<V> {
    // Empties all the slots, also those that don't count.
    #[tactic(auto, using(crate::proofs::Rows::empty_entry, crate::proofs::Rows::empty_taken))]
    pub fn new(slots: Vec<Option<V>>) -> ArrayStore<V>
        ensures nothing { (a : ℕ) → array_entry result a ≡ None }
        ensures taken { (a : ℕ) → array_taken result a ≡ nat_lt a (min 65536 (length slots.items)) }
        ensures slots { result.slots.items ≡ replicate (length slots.items) None }
    {
        ArrayStore {
            slots: emptied(slots, None),
        }
    }

    // Gives back the slots that it was made with.
    pub fn into_slots(self) -> Vec<Option<V>>
        ensures { result ≡ self.slots }
    {
        let ArrayStore { slots } = self;
        slots
    }

    // Writes to the address's slot, if it counts.
    #[tactic(auto, using(stores::proofs::Counted::counted_length))]
    fn write(&mut self, a: u32, slot: Option<V>) -> Result<(), NotTaken>
        ensures answer { is_ok result ≡ array_taken self.old a }
        ensures refused { is_ok result ≡ false → self.new ≡ self.old }
        ensures made { is_ok result ≡ true → array_entry self.new a ≡ slot }
        ensures written { SlotWritten self.old self.new a slot }
        ensures kept { array_kept self.old self.new }
    {
        if self.takes(a) {
            self.slots[a as usize] = slot;
            Ok(())
        } else {
            Err(NotTaken)
        }
    }
}

impl<V: Copy> Store for ArrayStore<V> {
    type Entry = V;

    ghost entry = { λ s. array_entry s };

    ghost taken = { λ s. array_taken s };

    ghost held = { λ s. array_held s };

    ghost kept = { λ s t. array_kept s t };

    ghost lasting = { array_lasting };

    fn get(&self, a: u32) -> Option<V> {
        first_of(&self.slots).get(a as usize).copied().flatten()
    }

    fn takes(&self, a: u32) -> bool {
        (a as usize) < first_of(&self.slots).len()
    }

    fn put(&mut self, a: u32, v: V) -> Result<(), NotTaken> {
        self.write(a, Some(v))
    }

    fn drop(&mut self, a: u32) {
        let _was = self.write(a, None);
    }
}
