// Orders to a store: a word is 65,536 times 0 for get, 1 for put, else drop, and an address, at which a put writes code of that number.
ghost use Rattle.std.specs.Prelude.{◌≡◌, ◌%◌, ◌/◌, MatchResult};
ghost use Rattle.machine.specs.Values.{word, read};
ghost use Rattle.exports.specs.Stores.{NoKind};
ghost use Rattle.exports.specs.Orders.{Done, HasObeyed, Obeyed};
ghost use Rattle.exports.specs.inside.Undoing.{Why};

use crate::stores_made::{array, hash, window};
use crate::undone::Undone;
use std::alloc::Global;
use stores::store::Store;
use values::marked::Marked;

const ADDRESSES: u32 = 65_536;

// 0 where nothing was got.
fn word_of(got: Option<Marked>) -> u32
    ensures { result ≡ word (read got 0) }
{
    match got {
        Some(Marked::Code(word) | Marked::Data(word, _)) => word,
        None => 0,
    }
}

// Does an order, and answers the sum of what was got so far.
fn order<S: Store<Entry = Marked>>(store: &mut S, sum: u32, word: u32) -> u32
    ensures { Done S.entry S.taken (word / 65536) (word % 65536) sum store.old result store.new }
{
    let a = word % ADDRESSES;
    match word / ADDRESSES {
        0 => sum.wrapping_add(word_of(store.get(a))),
        1 => {
            match store.put(a, Marked::Code(a)) {
                Ok(()) | Err(_) => sum,
            }
        }
        _ => {
            store.drop(a);
            sum
        }
    }
}

fn obey_on<S: Store<Entry = Marked> + Drop>(mut store: S, orders: &[u32]) -> u32
    ensures { Obeyed S.entry S.taken store orders.now result }
{
    let mut sum = 0;
    for word in orders {
        sum = order(&mut store, sum, *word);
    }
    sum
}

pub(crate) fn obey(heap: Global, kind: u32, slots: usize, orders: &[u32]) -> Result<u32, Undone>
    ensures { MatchResult result (λ n. HasObeyed kind slots orders.now n) (λ u. Why (λ f. ⊥) (NoKind kind) ⊥ u) }
{
    match kind {
        0 => Ok(obey_on(array(heap, slots)?, orders)),
        1 => Ok(obey_on(hash(heap, slots)?, orders)),
        2 => Ok(obey_on(window(heap, slots, ADDRESSES)?, orders)),
        _ => Err(Undone::Kind),
    }
}
