//! What the programs share: the folders that they are to work in, the files there, and how a refusal is told.
#![tactic(auto)]

mod bytes;
pub mod files;
pub mod folders;
pub mod tell;
