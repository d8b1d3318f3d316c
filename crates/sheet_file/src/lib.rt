//! The byte format of a sheet.
#![tactic(auto)]

mod codes;
pub mod load;
mod rows;
