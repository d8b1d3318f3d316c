//! What deeds are answered under a sheet, over a new board.
#![tactic(auto)]

pub mod deeds;
pub mod files;
