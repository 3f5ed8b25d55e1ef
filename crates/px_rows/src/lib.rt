//! Worked rows of the parts that need no threads, tried through their public calls.
//!
//! What no clause says is shown here: texts from outside, limits at their edges, the same bytes in
//! pieces of every size. A crate with tests is proved twice, so they stand together in a room of
//! their own above the crates that they try.
#![tactic(auto)]

#[cfg(test)]
mod documents;
#[cfg(test)]
mod explanations;
#[cfg(test)]
mod feed;
#[cfg(test)]
mod filters;
#[cfg(test)]
mod journal;
#[cfg(test)]
mod meaning;
#[cfg(test)]
mod options;
#[cfg(test)]
mod programs;
#[cfg(test)]
mod reader;
#[cfg(test)]
mod text;
#[cfg(test)]
mod tree;
