//! Tests of searches by several workers, each in a thread of its own: how they end, what each has
//! drawn, that two in turn do what a world of two does, and that they begin with what is known; and
//! of cook reports, which make many searches.
//!
//! They call public calls alone. Without tests this crate is empty.
#![tactic(auto)]

#[cfg(test)]
mod cooks;
#[cfg(test)]
mod crews;
#[cfg(test)]
mod in_turn;
#[cfg(test)]
mod known;
#[cfg(test)]
mod problems;
#[cfg(test)]
mod same;
