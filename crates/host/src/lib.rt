//! Hosts: what does the actions, and counts them.
#![tactic(auto)]

pub mod board;
pub mod host;
pub mod lent;
pub mod outcome;
pub mod spool;
