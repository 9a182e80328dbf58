//! The public calls on the rules of shogi and on the lists of its moves, tried by examples.
//!
//! The tests of this layer stand here and not in its libraries, so that no library is proved twice.
//! Without tests this crate is empty.
#![tactic(auto)]

#[cfg(test)]
mod attacks;
#[cfg(test)]
mod guarded;
#[cfg(test)]
mod letters;
#[cfg(test)]
mod lists;
#[cfg(test)]
mod rules;
#[cfg(test)]
mod same;
