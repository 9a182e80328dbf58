//! Legal moves as sets of squares: to which squares a piece on the board may go, and on which a
//! piece in hand may be dropped.
//!
//! A [`Guard`] says once for a position what the king of the side to move needs to be safe; then
//! each set is a few steps over sets of squares, and no move is tried but the one drop of a pawn
//! that gives check. Nothing here takes memory.
#![tactic(auto)]

mod board_moves;
mod drops;
mod guard;
mod guarding;
mod landings;
mod rows;

pub use guard::Guard;
pub use landings::Landings;
