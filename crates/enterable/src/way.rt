// How an instruction leads to a function, and where it stands.

#[derive(Clone, Copy, PartialEq, Eq, Debug)]
pub enum Way {
    Call,
    // The function's address is taken, so that it can be entered through a pointer.
    Address,
}

#[derive(Clone, Copy, PartialEq, Eq, Debug)]
pub struct Site {
    pub function: u32,
    // Counted within the function.
    pub place: u32,
}
