// A call of a store, whatever its make.
ghost use Rattle.replay.specs.Stores.{Asked};

use crate::answer::Answer;
use script::command::Call;
use stores::store::Store;
use values::marked::Marked;

pub(crate) fn ask<S: Store<Entry = Marked>>(store: &mut S, call: Call) -> Answer
    ensures asked { Asked S.Store.entry S.Store.taken store.old call result store.new }
    ensures kept { S.Store.kept store.old store.new }
{
    match call {
        Call::Put(a, v) => Answer::Put(store.put(a, v)),
        Call::Drop(a) => {
            store.drop(a);
            Answer::Dropped
        }
        Call::Get(a) => Answer::Held(store.get(a)),
        Call::Takes(a) => Answer::Taken(store.takes(a)),
    }
}
