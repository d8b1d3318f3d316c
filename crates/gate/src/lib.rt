//! The gate: it stands between a script and its host, and has a watch judge what is asked for.
#![tactic(auto)]

pub mod answer;
pub mod ask;
pub mod closed;
pub mod gate;
pub mod laws;
pub mod shortened;
