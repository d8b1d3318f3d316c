//! What a step asks of a deed, and what it does to the variables.

/// A number that is worked out before a deed.
#[derive(Clone, Copy)]
pub enum Term {
    /// This number.
    Number(u8),
    /// The variable x.
    X,
    /// The variable y.
    Y,
    /// The first argument of the deed.
    First,
    /// The second argument of the deed.
    Second,
}

#[derive(Clone, Copy)]
pub enum Comparison {
    Equal,
    Unequal,
    Less,
    AtMost,
    Greater,
    AtLeast,
}

/// A comparison that has to be true before the deed.
#[derive(Clone, Copy)]
pub struct Guard {
    pub left: Term,
    pub comparison: Comparison,
    pub right: Term,
}

#[derive(Clone, Copy)]
pub enum Variable {
    X,
    Y,
}

/// A variable becomes a term plus a number.
#[derive(Clone, Copy)]
pub struct Change {
    pub target: Variable,
    pub source: Term,
    pub add: u8,
}

/// One deed: of this partner and signal, under the guard, with the change.
// Stays: a diagram is drawn, accepted or not, and refusal 5 judges the ranges of its numbers, so they are plain numbers.
#[derive(Clone, Copy)]
pub struct Step {
    pub address: u8,
    pub signal: u8,
    pub guard: Option<Guard>,
    pub change: Option<Change>,
}
