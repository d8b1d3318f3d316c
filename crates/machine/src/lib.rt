//! The machine of a sheet: all its runs side by side, deed by deed.
#![tactic(auto)]

pub mod accepts;
mod bytes;
pub mod chart;
mod fire;
mod moves;
