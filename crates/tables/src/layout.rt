// The locals of a function, as a step needs them.
ghost use Rattle.std.specs.Prelude.{◌≡◌, ℕ, ◌<◌, Some};
ghost use Rattle.std.specs.List.{slice_get};
ghost use Rattle.parts.specs.Content.{shown};
ghost use Rattle.tables.specs.Tables.{local_of, layout_of, layout_at, LaidOut};

use parts::image::Image;
use parts::items::function_at;
use rules::lookup::size;
use rules::place::Scope;
use sensitivity::marked;
use std::array;

#[derive(Clone, Copy, PartialEq, Eq)]
pub struct Local {
    // Its type is sensitive.
    pub sensitive: bool,
    // How many words that which it points at takes, if that has a size.
    pub size: Option<u32>,
}

const PLAIN: Local = Local {
    sensitive: false,
    size: None,
};

fn local_of(scope: &Scope, marks: &[bool; 64], x: u32) -> Local
    ensures { result ≡ local_of (shown scope.now.image.now) marks.now scope.now.function.now x }
{
    Local {
        sensitive: scope.local_type(x).is_some_and(|t| marked(marks, t)),
        size: size(scope.target_kind(x)),
    }
}

// The eight locals of a function; those that it doesn't have are plain and of no size.
fn layout_of(scope: &Scope, marks: &[bool; 64]) -> [Local; 8]
    ensures { result ≡ layout_of (shown scope.now.image.now) marks.now scope.now.function.now }
{
    // Not by `from_fn` or `map`: nothing is found for a closure that reads an image.
    [
        local_of(scope, marks, 0),
        local_of(scope, marks, 1),
        local_of(scope, marks, 2),
        local_of(scope, marks, 3),
        local_of(scope, marks, 4),
        local_of(scope, marks, 5),
        local_of(scope, marks, 6),
        local_of(scope, marks, 7),
    ]
}

// The layout of function k; all plain where there is none.
fn layout_at(image: &Image, marks: &[bool; 64], k: usize) -> [Local; 8]
    ensures { result ≡ layout_at (shown image.now) marks.now k }
{
    match function_at(image.functions, k) {
        Some(function) => layout_of(&Scope::of(image, &function), marks),
        None => [PLAIN; 8],
    }
}

fn table_of(image: &Image, marks: &[bool; 64]) -> [[Local; 8]; 64]
    ensures { (k : ℕ) → k < 64 → slice_get result k ≡ Some (layout_at (shown image.now) marks.now k) }
{
    // The closure has a clause, since none is found for one that gives an array.
    array::from_fn(
        |k|
            ensures { result ≡ layout_at (shown image.entry.now) marks.entry.now k }
        { layout_at(image, marks, k) },
    )
}

// Each function's layout.
pub fn layouts(image: &Image, marks: &[bool; 64]) -> [[Local; 8]; 64]
    ensures { LaidOut (shown image.now) marks.now result }
{
    table_of(image, marks)
}
