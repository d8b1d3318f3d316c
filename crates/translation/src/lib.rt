//! Translations: calls become deeds, so that a watch of deeds judges calls.
#![tactic(auto)]

pub mod load;
pub mod translated;
pub mod translation;
