//! Tests of the outside: of sources, sinks and a clock; and of the edge of a session: what a thread
//! reads ahead, what is handed on of it, and when a stop hears it.
//!
//! They call public calls alone. Without tests this crate has their reader and their clock, whose
//! definitions stand in specs/.
#![tactic(auto)]

mod given;
#[cfg(test)]
mod handed_on;
#[cfg(test)]
mod heard;
#[cfg(test)]
mod outside;
#[cfg(test)]
mod same;
