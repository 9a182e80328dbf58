//! The public calls on squares, positions, paths and proof numbers, tried by examples.
//!
//! The tests of this layer stand here and not in its libraries, so that no library is proved twice.
//! Without tests this crate is empty.
#![tactic(auto)]

#[cfg(test)]
mod numbers;
#[cfg(test)]
mod paths;
#[cfg(test)]
mod positions;
#[cfg(test)]
mod same;
#[cfg(test)]
mod squares;
