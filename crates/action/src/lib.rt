//! Actions: the deeds of a script and the calls of its engine, each made from bytes.
#![tactic(auto)]

pub mod action;
pub mod bounded;
mod bytes;
pub mod call;
pub mod deed;
pub mod kind;
pub mod partner;
