// The rules that a record can break.

// An enum, and not a closure for each rule: it is asked of records of five types, and stands in the definitions.
#[derive(Clone, Copy, PartialEq, Eq)]
pub enum Rule {
    // A number names something that is there.
    Names,
    // The types fit each other.
    Types,
}
