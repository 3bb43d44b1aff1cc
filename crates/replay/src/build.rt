// The store that a script asks for.
ghost use Rattle.std.specs.Prelude.{IfOk};
ghost use Rattle.replay.specs.Stores.{Built, FlatBuilt};

use crate::either::Either;
use array_store::ArrayStore;
use hash_store::HashStore;
use script::command::{Make, Shape};
use std::alloc::{AllocError, Global};
use values::marked::Marked;
use window::Window;

pub type Flat = Either<ArrayStore<Marked>, HashStore<Marked>>;

// Either make, behind a window or not.
pub type Loose = Either<Flat, Window<Flat>>;

fn flat(heap: Global, make: Make, slots: u32) -> Result<Flat, AllocError>
    ensures { IfOk result (FlatBuilt make slots) }
{
    match make {
        Make::Array => {
            let empty = vec![in heap; None; slots as usize]?;
            Ok(Either::First(ArrayStore::new(empty)))
        }
        Make::Hash => {
            let empty = vec![in heap; None; slots as usize]?;
            Ok(Either::Second(HashStore::new(empty)))
        }
    }
}

// Fails only for want of memory.
pub(crate) fn build(heap: Global, shape: Shape) -> Result<Loose, AllocError>
    ensures { IfOk result (Built shape.view shape.make shape.slots) }
{
    let store = flat(heap, shape.make, shape.slots)?;
    match shape.view {
        Some(view) => Ok(Either::Second(Window::new(view.base, view.len, store))),
        None => Ok(Either::First(store)),
    }
}
