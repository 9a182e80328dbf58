//! Lists of moves that keep the order of moves, and the room that they once took.
#![tactic(auto)]

mod moves;

pub use moves::Moves;
