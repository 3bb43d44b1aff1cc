// What a line of a script asks for.
use values::marked::Marked;

#[derive(Clone, Copy)]
pub enum Make {
    Array,
    Hash,
}

// The part of a store's addresses that a window shows.
#[derive(Clone, Copy)]
pub struct View {
    pub base: u32,
    pub len: u32,
}

// A store of so many slots, behind a window or not.
#[derive(Clone, Copy)]
pub struct Shape {
    pub view: Option<View>,
    pub make: Make,
    pub slots: u32,
}

// A call of a store.
#[derive(Clone, Copy)]
pub enum Call {
    Put(u32, Marked),
    Drop(u32),
    Get(u32),
    Takes(u32),
}

#[derive(Clone, Copy)]
pub enum Command {
    Build(Shape),
    Ask(Call),
}
