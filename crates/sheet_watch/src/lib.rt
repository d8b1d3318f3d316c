//! The watch of a sheet, and rehearsals.
#![tactic(auto)]

pub mod rehearsal;
pub mod watching;
