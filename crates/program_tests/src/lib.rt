//! Tests of the program: whole runs, over a source and a sink in memory.
//!
//! They stand in a crate of their own, so that no library is proved twice, with its tests and
//! without them. Without tests this one is empty.
#![tactic(auto)]

#[cfg(test)]
mod lines;
#[cfg(test)]
mod runs;
#[cfg(test)]
mod same;
