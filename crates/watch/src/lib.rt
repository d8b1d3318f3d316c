//! Watches: what they forbid, alone and in piles.
#![tactic(auto)]

pub mod cap;
mod kinds;
pub mod lent;
pub mod narrowed;
pub mod order;
pub mod pair;
pub mod watch;
