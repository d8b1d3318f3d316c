//! Examples of actions, sheets and runs, good and garbled, and of what a machine and a watch make of them.
#![tactic(auto)]

#[cfg(test)]
mod actions;
#[cfg(test)]
mod machines;
#[cfg(test)]
mod runs;
#[cfg(test)]
mod sheets;
#[cfg(test)]
mod told;
