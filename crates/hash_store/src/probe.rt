// Slots in a ring: an address is looked for from its home on, put in the order of homes, and taken out with what stands behind it moved back.
ghost use Rattle.std.specs.Prelude.{◌≡◌, ◌<◌, ◌≤◌, length, nat_lt};
ghost use Rattle.hash_store.specs.Holding.{has};
ghost use Rattle.hash_store.specs.inside.Probing.{Absent, Closed, Fits, Found, Opened, Ordered, Single, Sound, count};

use crate::ring::Ring;
use crate::slot::Slot;

// How many slots are looked at together.
const SPAN: usize = 6;

// Whether the slot holds the address.
fn holds<V: Copy>(slot: Slot<V>, a: u32) -> bool
    ensures { result ≡ has slot a }
{
    match slot {
        Some((k, _)) => k == a,
        None => false,
    }
}

// Which of some slots holds the address. All are looked at, and the place is added up: this leaves the processor nothing to guess, and at a high load a wrong guess takes longer than a look at all.
fn holder<V: Copy>(slots: &[Slot<V>], a: u32) -> Option<usize>
    requires single { Single slots.now }
    ensures { Found slots.now a result }
{
    let mut at = 0;
    // Over places, and not over slots: the place is the answer.
    for i in 0..slots.len() {
        if holds(slots[i], a) {
            at += i + 1;
        }
    }
    if at == 0 { None } else { Some(at - 1) }
}

// The slot that holds the address.
pub(crate) fn find<V: Copy>(slots: &[Slot<V>], a: u32) -> Option<usize>
    requires small { length slots.now ≤ 65536 }
    requires sound { Sound slots.now }
    ensures { Found slots.now a result }
{
    if slots.len() < SPAN {
        return holder(slots, a);
    }
    let places = Ring { n: slots.len() };
    let mut i = places.home(a);
    let mut d = 0;
    // No `for` over a range: the place goes round, and the distance is asked for.
    while d < places.n {
        // As many slots each time, some of them looked at already where the ring ends.
        let start = i.min(places.n - SPAN);
        let end = start + SPAN;
        if let Some(j) = holder(&slots[start..end], a) {
            return Some(start + j);
        }
        d += end - i;
        if places.is_nearer(end - 1, slots[end - 1], d) {
            return None;
        }
        i = places.round(end);
    }
    None
}

// Whether a slot is empty.
#[tactic(auto, using(crate::proofs::Tables::count_all, crate::proofs::Tables::count_lt))]
fn has_empty<V: Copy>(slots: &[Slot<V>]) -> bool
    ensures { result ≡ nat_lt (count slots.now) (length slots.now) }
{
    for slot in slots {
        if slot.is_none() {
            return true;
        }
    }
    false
}

// The same, looked for from the address's home on, where an empty one is near.
pub(crate) fn has_room<V: Copy>(slots: &[Slot<V>], a: u32) -> bool
    requires small { length slots.now ≤ 65536 }
    ensures { result ≡ nat_lt (count slots.now) (length slots.now) }
{
    if slots.is_empty() {
        return false;
    }
    let h = Ring { n: slots.len() }.home(a);
    has_empty(&slots[h..]) || has_empty(&slots[..h])
}

// Where an entry for the address goes: before the first that is nearer to its home.
fn place_for<V: Copy>(slots: &[Slot<V>], a: u32) -> usize
    requires small { length slots.now ≤ 65536 }
    requires ordered { Ordered (length slots.now) slots.now }
    requires room { count slots.now < length slots.now }
    ensures { Fits (length slots.now) slots.now a result }
{
    let places = Ring { n: slots.len() };
    let mut i = places.home(a);
    let mut d = 0;
    while !places.is_nearer(i, slots[i], d + 1) {
        i = places.next(i);
        d += 1;
    }
    i
}

// Puts an entry where it goes. Those behind it move on by one, up to an empty slot.
pub(crate) fn open<V: Copy>(slots: &mut [Slot<V>], a: u32, v: V)
    requires small { length slots.old ≤ 65536 }
    requires sound { Sound slots.old }
    requires room { count slots.old < length slots.old }
    requires absent { Absent slots.old a }
    ensures opened { Opened slots.old slots.new a v }
    ensures long { length slots.new ≡ length slots.old }
{
    let places = Ring { n: slots.len() };
    let mut i = place_for(slots, a);
    let mut entry = (a, v);
    while let Some(pushed) = slots[i] {
        slots[i] = Some(entry);
        entry = pushed;
        i = places.next(i);
    }
    slots[i] = Some(entry);
}

// Empties the slot i. Those behind it move back by one, up to an empty slot or an entry at its home.
pub(crate) fn close<V: Copy>(slots: &mut [Slot<V>], i: usize)
    requires inside { i < length slots.old }
    requires small { length slots.old ≤ 65536 }
    requires sound { Sound slots.old }
    ensures closed { Closed slots.old slots.new i }
    ensures long { length slots.new ≡ length slots.old }
{
    let places = Ring { n: slots.len() };
    let mut hole = i;
    loop {
        let next = places.next(hole);
        let Some((k, v)) = slots[next] else { break };
        if places.is_home(k, next) {
            break;
        }
        slots[hole] = Some((k, v));
        hole = next;
    }
    slots[hole] = None;
}
