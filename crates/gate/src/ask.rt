use crate::answer::Answer;
use fault::fault::Fault;

/// One thing asked of a gate.
#[derive(Clone, Copy, Debug, PartialEq, Eq)]
pub enum Ask<T> {
    /// Do this action.
    Submit(T),
    /// What would be answered to this action?
    Query(T),
    /// How many actions of this kind has the host done?
    Count(u8),
}

/// What a gate replies to one.
#[derive(Clone, Copy, Debug, PartialEq, Eq)]
pub enum Reply {
    /// To a submitted action, or to a query.
    Answered(Answer),
    /// To a count.
    Counted(Result<u64, Fault>),
}
