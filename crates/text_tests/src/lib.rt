//! The public calls on texts (moves, positions, solutions, certificates, libraries, bounds,
//! shortest mates, collections, lines of sessions) and on problems by number, by examples.
//!
//! The tests of this layer stand here and not in its libraries, so that no library is proved twice.
//! Without tests this crate is empty.
#![tactic(auto)]

#[cfg(test)]
mod advice;
#[cfg(test)]
mod bounds;
#[cfg(test)]
mod certificates;
#[cfg(test)]
mod collections;
#[cfg(test)]
mod diagrams;
#[cfg(test)]
mod generated;
#[cfg(test)]
mod libraries;
#[cfg(test)]
mod moves;
#[cfg(test)]
mod records;
#[cfg(test)]
mod same;
#[cfg(test)]
mod sessions;
#[cfg(test)]
mod sfen;
#[cfg(test)]
mod shortest;
#[cfg(test)]
mod solutions;
#[cfg(test)]
mod told_lines;
