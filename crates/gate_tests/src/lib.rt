//! Examples of hosts and gates.
#![tactic(auto)]

#[cfg(test)]
mod tests;
