//! What may come next in a run of a sheet: first, and after each step.
#![tactic(auto)]

pub mod follow;
pub mod laws;
pub mod sets;
