//! Tsume problems by number, to try a solver on: small, alike, and always the same for the same
//! number.
//!
//! [`problem_of`] makes a problem of any number, by a generator whose steps `specs/Generator.antt`
//! states. Nothing here takes memory.
#![tactic(auto)]

mod drawn;
mod draws;
mod problem;
mod putting;

pub use problem::problem_of;
