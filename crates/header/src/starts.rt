// Where each list starts in an image, and where the image ends.

#[derive(Clone, Copy, PartialEq, Eq)]
pub struct Starts {
    pub types: usize,
    pub fields: usize,
    pub globals: usize,
    pub locals: usize,
    pub functions: usize,
    pub code: usize,
    pub end: usize,
}
