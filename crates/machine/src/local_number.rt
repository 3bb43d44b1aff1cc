// The number of one of a frame's locals.
ghost use Rattle.std.specs.Prelude.{◌<◌};

// Below 8, so that what takes one needs no test of it.
#[derive(Clone, Copy)]
pub struct LocalNumber {
    pub x: u32,
    ghost below: { x < 8 },
}
