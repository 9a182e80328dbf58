//! Tests of the search: of the public calls of the crates that hold a search, keep its table and
//! its desk, and run its workers.
//!
//! They stand in a crate of their own, so that no library is proved twice, with its tests and
//! without them. Without tests this one is empty.
#![tactic(auto)]

#[cfg(test)]
mod desk;
#[cfg(test)]
mod first_numbers;
#[cfg(test)]
mod known_notes;
#[cfg(test)]
mod lengths;
#[cfg(test)]
mod limits;
#[cfg(test)]
mod many_workers;
#[cfg(test)]
mod one_worker;
#[cfg(test)]
mod problems;
#[cfg(test)]
mod same;
#[cfg(test)]
mod table;
#[cfg(test)]
mod whole_searches;
