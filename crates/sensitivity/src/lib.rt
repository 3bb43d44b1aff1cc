//! Which types are sensitive.
#![tactic(auto)]

ghost use Rattle.std.specs.Prelude.{◌≡◌, ℕ, ◌≤◌, false, length, Some, Decides, MatchOption, slice_index_or};
ghost use Rattle.std.specs.Option.{IfSome};
ghost use Rattle.std.specs.List.{slice_get};
ghost use Rattle.parts.specs.Content.{content};
ghost use Rattle.sensitivity.specs.Sensitive.{First, Sensitive, IsMarked, NoMark, ToMark};
ghost use Rattle.sensitivity.specs.inside.Rounds.{Due, Round};

use content::kind::Kind;
use content::typed::Typed;
use parts::parts::Parts;

// Type t is marked.
pub fn marked(marks: &[bool; 64], t: u32) -> bool
    ensures { result ≡ slice_index_or marks.now t false }
{
    marks.get(t as usize).copied().unwrap_or(false)
}

// The types that are marked, and the fields over which a record leads to them.
#[derive(Clone, Copy)]
struct Marking<'a> {
    fields: &'a [Typed],
    marks: &'a [bool; 64],
}

impl<'a> Marking<'a> {
    // The type of the first marked field.
    fn marked_field(&self, first: u32, count: u32) -> Option<u32>
        ensures link { MatchOption result (NoMark self.now.fields.now self.now.marks.now (Some (Kind.Fields first count))) (ToMark self.now.fields.now self.now.marks.now (Some (Kind.Fields first count))) }
        ensures first { IfSome result (λ j. First self.now.fields.now (IsMarked self.now.marks.now) (Some (Kind.Fields first count)) j) }
    {
        self.fields
            .get(first as usize..)?
            .iter()
            .take(count as usize)
            .map(|field| field.kind)
            .find(|t| marked(self.marks, *t))
    }

    // The end of the first link that leads to a marked type.
    fn marked_link(&self, kind: Kind) -> Option<u32>
        ensures link { MatchOption result (NoMark self.now.fields.now self.now.marks.now (Some kind)) (ToMark self.now.fields.now self.now.marks.now (Some kind)) }
        ensures first { IfSome result (λ j. First self.now.fields.now (IsMarked self.now.marks.now) (Some kind) j) }
    {
        match kind {
            Kind::Number | Kind::Void | Kind::Function => None,
            Kind::Pointer { to } => marked(self.marks, to).then_some(to),
            Kind::Fields { first, count } => self.marked_field(first, count),
        }
    }

    fn due(&self, kind: Kind) -> bool
        ensures { Decides result (Due self.now.fields.now self.now.marks.now (Some kind)) }
    {
        matches!(kind, Kind::Void | Kind::Function) || self.marked_link(kind).is_some()
    }
}

// Marks each type that is due, and says whether one was new. No option: the flag has no value beside it.
fn round(types: &[Kind], fields: &[Typed], marks: &mut [bool; 64]) -> bool
    requires { length types.now ≤ 64 }
    ensures { Round types.now fields.now marks.old (length types.now) marks.new result }
{
    let mut changed = false;
    // By place, since all marks are looked at while one is set.
    for (i, kind) in types.iter().enumerate() {
        if !marks[i] && (Marking { fields, marks }).due(*kind) {
            marks[i] = true;
            changed = true;
        }
    }
    changed
}

fn marks_of(types: &[Kind], fields: &[Typed]) -> [bool; 64]
    requires { length types.now ≤ 64 }
    ensures { (k : ℕ) → Decides (slice_index_or result k false) (Sensitive types.now fields.now k) }
{
    let mut marks = [false; 64];
    while round(types, fields, &mut marks) {}
    marks
}

// Marks exactly the sensitive types.
pub fn sensitive_types(parts: &Parts) -> [bool; 64]
    ensures { (k : ℕ) → Decides (slice_index_or result k false) (Sensitive (content parts.now).types (content parts.now).fields k) }
{
    let lists = parts.lists();
    marks_of(lists.types, lists.fields)
}

// The end of the first link from type t that leads to a type marked in `sensitive`.
pub fn next_link(parts: &Parts, sensitive: &[bool; 64], t: u32) -> Option<u32>
    ensures link { MatchOption result (NoMark (content parts.now).fields sensitive.now (slice_get (content parts.now).types t)) (ToMark (content parts.now).fields sensitive.now (slice_get (content parts.now).types t)) }
    ensures first { IfSome result (λ j. First (content parts.now).fields (IsMarked sensitive.now) (slice_get (content parts.now).types t) j) }
{
    let lists = parts.lists();
    let kind = lists.types.get(t as usize).copied()?;
    let marking = Marking {
        fields: lists.fields,
        marks: sensitive,
    };
    marking.marked_link(kind)
}
