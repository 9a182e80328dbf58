//! Tests of what threads share: counts of workers, a desk whose counts are words, and jobs that are
//! done side by side.
//!
//! They call public calls alone. They stand apart from the other tests of the search, so that those
//! aren't proved anew where a word changes. Without tests this crate is empty.
#![tactic(auto)]

#[cfg(test)]
mod problems;
#[cfg(test)]
mod same;
#[cfg(test)]
mod shared_counts;
#[cfg(test)]
mod shared_desk;
#[cfg(test)]
mod teams;
#[cfg(test)]
mod two_ports;
