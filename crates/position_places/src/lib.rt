//! Where positions stand in a list, each once: found by the position itself, or by its board.
//!
//! [`Places`] are the places of the positions of a list, in which none stands twice, found by the
//! position: whoever makes lists of positions, or looks things up by them, keeps `Places` beside
//! its list. [`BoardPlaces`] are the same places, found by the board: all at once that stand on one
//! board, with the same side to move and whatever is in hand. What both are is defined in
//! `specs/Places.antt`, and what stands on one board in `specs/Boards.antt`.
#![tactic(auto)]

mod by_board;
mod places;

pub use by_board::BoardPlaces;
pub use places::Places;
