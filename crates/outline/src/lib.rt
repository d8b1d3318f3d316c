//! A sheet in words, for those who read it.
#![tactic(auto)]

pub mod outline;
pub mod words;
