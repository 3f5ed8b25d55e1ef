//! Worked rows of the shared table and the hub, tried through their public calls.
//!
//! They stand in a room of their own above the crates that they try, since a crate with tests is
//! proved twice.
#![tactic(auto)]

#[cfg(test)]
mod batches;
#[cfg(test)]
mod callers;
#[cfg(test)]
mod calls;
#[cfg(test)]
mod filters;
#[cfg(test)]
mod hubs;
#[cfg(test)]
mod settling;
