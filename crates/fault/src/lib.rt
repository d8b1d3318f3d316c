//! Refusals: why an input is turned away, as a number and a place.
#![tactic(auto)]

pub mod fault;
pub mod laws;
