//! The public calls on notes, certificates, libraries, bounds, cook reports, lines of moves and
//! lists of positions, tried by examples.
//!
//! The tests of this layer stand here and not in its libraries, so that no library is proved twice.
//! Without tests this crate is empty.
#![tactic(auto)]

#[cfg(test)]
mod bounds;
#[cfg(test)]
mod chase;
#[cfg(test)]
mod checked;
#[cfg(test)]
mod checking;
#[cfg(test)]
mod cooks;
#[cfg(test)]
mod derivations;
#[cfg(test)]
mod dominance;
#[cfg(test)]
mod extraction;
#[cfg(test)]
mod known;
#[cfg(test)]
mod letters;
#[cfg(test)]
mod libraries;
#[cfg(test)]
mod lines;
#[cfg(test)]
mod main_lines;
#[cfg(test)]
mod places;
#[cfg(test)]
mod reading;
#[cfg(test)]
mod same;
#[cfg(test)]
mod texts;
