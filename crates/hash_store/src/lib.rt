//! The hash store: any address stands in any slot, found by linear probing in the order of homes. Deletion shifts entries back, so that a call costs what is held now and not what was.
#![tactic(auto)]

ghost use Rattle.std.specs.Prelude.{◌≡◌, ◌<◌, ◌≤◌, ℕ, min, true, false, length, replicate, is_some, None, Some, nat_lt};
ghost use Rattle.hash_store.specs.Hash.{hash_entry, hash_taken};
ghost use Rattle.hash_store.specs.inside.Laws.{HashDropped, HashPut, hash_held};
ghost use Rattle.hash_store.specs.inside.Probing.{Absent, Found, Sound, count};
ghost use Rattle.stores.specs.Slots.{SlotsKept, counted, slots_chained, slots_same};

use crate::probe::{close, find, has_room, open};
use crate::slot::Slot;
use stores::slots::{emptied, first_of};
use stores::store::{NotTaken, Store};

mod probe;
mod ring;
pub mod slot;

// The same slots, each of them empty, as a store may have them.
fn fresh<V: Copy>(slots: Vec<Slot<V>>) -> Vec<Slot<V>>
    ensures items { result.items ≡ replicate (length slots.items) None }
    ensures sound { Sound (counted result.items) }
{
    emptied(slots, None)
}

#[derive(Drop)]
pub struct HashStore<V: Copy> {
    slots: Vec<Slot<V>>,
    ghost sound: { Sound (counted slots.items) },
}

impl<V: Copy> HashStore<V> {
    // Empties all the slots, also those that don't count.
    #[tactic(auto, using(crate::proofs::Empties::fresh_lookup, crate::proofs::Empties::fresh_room))]
    pub fn new(slots: Vec<Slot<V>>) -> HashStore<V>
        ensures nothing { (a : ℕ) → hash_entry result.slots.items a ≡ None }
        ensures taken { (a : ℕ) → hash_taken result.slots.items a ≡ nat_lt 0 (min 65536 (length slots.items)) }
        ensures slots { result.slots.items ≡ replicate (length slots.items) None }
    {
        HashStore {
            slots: fresh(slots),
        }
    }

    // Gives back the slots that it was made with.
    pub fn into_slots(self) -> Vec<Slot<V>>
        ensures { result ≡ self.slots }
    {
        let HashStore { slots } = self;
        slots
    }

    // The slots that count, in a ring.
    #[tactic(auto, using(stores::proofs::Counted::counted_length))]
    fn ring(&self) -> &[Slot<V>]
        ensures now { result.now ≡ counted self.now.slots.items }
        ensures few { length result.now ≤ 65536 }
    {
        first_of(&self.slots)
    }

    // The slot that holds the address.
    fn find(&self, a: u32) -> Option<usize>
        ensures place { Found (counted self.now.slots.items) a result }
        ensures tells { is_some result ≡ is_some (hash_entry self.now.slots.items a) }
    {
        find(self.ring(), a)
    }

    // Whether an address that isn't held is taken: one slot is empty.
    fn has_room(&self, a: u32) -> bool
        ensures empty { result ≡ nat_lt (count (counted self.now.slots.items)) (length (counted self.now.slots.items)) }
        ensures taken { is_some (hash_entry self.now.slots.items a) ≡ false → hash_taken self.now.slots.items a ≡ result }
    {
        has_room(self.ring(), a)
    }

    // The value in the slot that holds the address. What a search found is asked of i and a: a type that keeps it would borrow the slots, which `write` and `remove` change.
    fn value_in(&self, i: usize, a: u32) -> Option<V>
        requires { Found (counted self.now.slots.items) a (Some i) }
        ensures { result ≡ hash_entry self.now.slots.items a }
    {
        let (_, v) = self.ring()[i]?;
        Some(v)
    }

    // An entry over the one that the slot holds for the address.
    fn write(&mut self, i: usize, a: u32, v: V)
        requires { Found (counted self.old.slots.items) a (Some i) }
        ensures put { HashPut self.old.slots.items self.new.slots.items a v }
        ensures kept { SlotsKept self.old.slots.items self.new.slots.items }
    {
        self.slots[i] = Some((a, v));
    }

    // An entry for an address that no slot holds, while one slot is empty.
    fn add(&mut self, a: u32, v: V)
        requires absent { Absent (counted self.old.slots.items) a }
        requires room { count (counted self.old.slots.items) < length (counted self.old.slots.items) }
        ensures put { HashPut self.old.slots.items self.new.slots.items a v }
        ensures kept { SlotsKept self.old.slots.items self.new.slots.items }
    {
        let n = self.ring().len();
        open(&mut self.slots[0..n], a, v);
    }

    // Empties the slot that holds the address.
    fn remove(&mut self, i: usize, a: u32)
        requires { Found (counted self.old.slots.items) a (Some i) }
        ensures dropped { HashDropped self.old.slots.items self.new.slots.items a }
        ensures kept { SlotsKept self.old.slots.items self.new.slots.items }
    {
        let n = self.ring().len();
        close(&mut self.slots[0..n], i);
    }
}

impl<V: Copy> Store for HashStore<V> {
    type Entry = V;

    ghost entry = { λ s. hash_entry s.slots.items };

    ghost taken = { λ s. hash_taken s.slots.items };

    ghost held = { λ s. hash_held s.slots.items };

    ghost kept = { λ s t. SlotsKept s.slots.items t.slots.items };

    ghost lasting = { record { same = λ s. slots_same s.slots.items; chained = λ s t u. slots_chained s.slots.items t.slots.items u.slots.items } };

    fn get(&self, a: u32) -> Option<V> {
        match self.find(a) {
            Some(i) => self.value_in(i, a),
            None => None,
        }
    }

    fn takes(&self, a: u32) -> bool {
        self.find(a).is_some() || self.has_room(a)
    }

    fn put(&mut self, a: u32, v: V) -> Result<(), NotTaken> {
        match self.find(a) {
            Some(i) => self.write(i, a, v),
            None if self.has_room(a) => self.add(a, v),
            None => return Err(NotTaken),
        }
        Ok(())
    }

    fn drop(&mut self, a: u32) {
        if let Some(i) = self.find(a) {
            self.remove(i, a);
        }
    }
}
