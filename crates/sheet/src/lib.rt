//! Sheets: diagrams of one lifeline, what they mean, and which of them are accepted.
#![tactic(auto)]

mod checks;
pub mod diagram;
pub mod emptiness;
mod headed;
pub mod judge;
pub mod laws;
pub mod marks;
pub mod sheet;
pub mod step;
