// Places in a ring of slots: where an address is first looked for, the place after one, and how far an entry stands from its home.
ghost use Rattle.std.specs.Prelude.{◌≡◌, ◌<◌, ◌≤◌, ◌==◌, cond, nat_lt};
ghost use Rattle.hash_store.specs.inside.Probing.{away, home_of, reach, ring};

use crate::slot::Slot;

// Places in a ring, of which there is one at least.
#[derive(Clone, Copy)]
pub(crate) struct Ring {
    pub(crate) n: usize,
    ghost some: { 0 < n },
    ghost few: { n ≤ 65536 },
}

impl Ring {
    // Where an address is first looked for: its remainder, so that neighbours have neighbouring homes. A division takes longer than a probe, and most addresses need none.
    #[tactic(auto, using(crate::proofs::Rings::home_inside, crate::proofs::Rings::home_near), unfolding(crate::specs::inside::Probing::home_of))]
    pub(crate) fn home(self, a: u32) -> usize
        ensures { (result ≡ home_of a self.n) × (result < self.n) }
    {
        let n = self.n as u32;
        if a < n { a as usize } else { (a % n) as usize }
    }

    // The place that counts as many as end: the first place is behind the last.
    pub(crate) fn round(self, end: usize) -> usize
        requires { end ≤ self.n }
        ensures { (result ≡ cond (nat_lt end self.n) end 0) × (result < self.n) }
    {
        if end < self.n { end } else { 0 }
    }

    // The place after i.
    pub(crate) fn next(self, i: usize) -> usize
        requires { i < self.n }
        ensures { (result ≡ ring i 1 self.n) × (result < self.n) }
    {
        self.round(i + 1)
    }

    // How many places on from h the place i is.
    fn distance(self, h: usize, i: usize) -> usize
        requires { (h < self.n) × (i < self.n) }
        ensures { result ≡ away h i self.n }
    {
        if i < h { i + self.n - h } else { i - h }
    }

    // How far from its home the entry of the slot i stands, counted from one; an empty slot counts none.
    fn reach<V: Copy>(self, i: usize, slot: Slot<V>) -> usize
        requires { i < self.n }
        ensures { result ≡ reach self.n i slot }
    {
        match slot {
            Some((k, _)) => self.distance(self.home(k), i) + 1,
            None => 0,
        }
    }

    // Whether it reaches less far than d.
    pub(crate) fn is_nearer<V: Copy>(self, i: usize, slot: Slot<V>, d: usize) -> bool
        requires { i < self.n }
        ensures { result ≡ nat_lt (reach self.n i slot) d }
    {
        self.reach(i, slot) < d
    }

    // Whether the address is first looked for at i.
    pub(crate) fn is_home(self, a: u32, i: usize) -> bool
        ensures { result ≡ (home_of a self.n == i) }
    {
        self.home(a) == i
    }
}
