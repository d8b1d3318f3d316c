//! Gates over what is lent, so that its owner knows what came of it.
#![tactic(auto)]

pub mod lent;
