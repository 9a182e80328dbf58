//! Tests of sessions over a source and a sink: the lines of an input, and what is served and
//! written at them.
//!
//! They call public calls alone. Without tests this crate is empty.
#![tactic(auto)]

#[cfg(test)]
mod inputs;
#[cfg(test)]
mod same;
#[cfg(test)]
mod talks;
