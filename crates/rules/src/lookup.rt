// What a type is, found by its number.
ghost use Rattle.std.specs.Prelude.{◌≡◌, ◌+◌};
ghost use Rattle.std.specs.List.{slice_get};
ghost use Rattle.rules.specs.Types.{size, atomic, number, function, pointee, field_type, kind_at, local_type, same};
ghost use Rattle.rules.specs.inside.Rows.{sized, type_of, global_type};
ghost use Rattle.parts.specs.Content.{kinds, typed, globals};

use content::function::Function;
use content::kind::Kind;
use parts::items::{global_at, kind_at, typed_at};

pub fn item_at<R: Copy>(items: &[R], i: usize) -> Option<R>
    ensures { result ≡ slice_get items.now i }
{
    items.get(i).copied()
}

pub(crate) fn kind_of_type(types: &[[[u8; 4]; 3]], t: Option<u32>) -> Option<Kind>
    ensures { result ≡ kind_at (kinds types.now) t }
{
    kind_at(types, t? as usize)
}

pub(crate) fn atomic(kind: Option<Kind>) -> bool
    ensures { result ≡ atomic kind }
{
    matches!(kind, Some(Kind::Number | Kind::Pointer { .. }))
}

pub(crate) fn sized(kind: Option<Kind>) -> bool
    ensures { result ≡ sized kind }
{
    size(kind).is_some()
}

pub(crate) fn number(kind: Option<Kind>) -> bool
    ensures { result ≡ number kind }
{
    kind == Some(Kind::Number)
}

pub(crate) fn function(kind: Option<Kind>) -> bool
    ensures { result ≡ function kind }
{
    kind == Some(Kind::Function)
}

pub(crate) fn pointee(kind: Option<Kind>) -> Option<u32>
    ensures { result ≡ pointee kind }
{
    match kind? {
        Kind::Pointer { to } => Some(to),
        _ => None,
    }
}

pub(crate) fn type_at(list: &[[[u8; 4]; 1]], first: u32, k: u32) -> Option<u32>
    ensures { result ≡ type_of (slice_get (typed list.now) (first + k)) }
{
    typed_at(list, first as usize + k as usize).map(|typed| typed.kind)
}

pub(crate) fn global_type(list: &[[[u8; 4]; 2]], g: u32) -> Option<u32>
    ensures { result ≡ global_type (slice_get (globals list.now) g) }
{
    global_at(list, g as usize).map(|global| global.kind)
}

pub(crate) fn field_type(fields: &[[[u8; 4]; 1]], kind: Option<Kind>, k: u32) -> Option<u32>
    ensures { result ≡ field_type (typed fields.now) kind k }
{
    match kind? {
        Kind::Fields { first, count } if k < count => type_at(fields, first, k),
        _ => None,
    }
}

// The type of local x of the function.
pub fn local_type(locals: &[[[u8; 4]; 1]], function: &Function, x: u32) -> Option<u32>
    ensures { result ≡ local_type (typed locals.now) function.now x }
{
    if x < function.locals {
        type_at(locals, function.first_local, x)
    } else {
        None
    }
}

// The derived equality alone would take none and none as the same.
pub(crate) fn same(a: Option<u32>, b: Option<u32>) -> bool
    ensures { result ≡ same a b }
{
    a.is_some() && a == b
}

// How many words a type takes, if it is sized.
pub fn size(kind: Option<Kind>) -> Option<u32>
    ensures { result ≡ size kind }
{
    match kind? {
        Kind::Number | Kind::Pointer { .. } => Some(1),
        Kind::Fields { count, .. } => Some(count),
        Kind::Void | Kind::Function => None,
    }
}
