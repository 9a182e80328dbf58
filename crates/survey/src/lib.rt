//! Surveys: what the searches of many problems of the generator come to.
//!
//! [`survey`] takes the problems of a range of numbers, searches each by itself and with one
//! worker, and tells of each whether it is a mate, is none, or was given up, and why. The problems
//! are spread over threads; that changes no `Tally` (no clause says it).
#![tactic(auto)]

mod asked;
mod decide;
mod tallies;

pub use tallies::survey;
