//! Tests of piles of watches, over what is loaded and asked for in bytes.
#![tactic(auto)]

#[cfg(test)]
mod sheets;
#[cfg(test)]
mod tests;
