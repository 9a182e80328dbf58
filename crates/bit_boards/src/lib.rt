//! The board of shogi without a position: sides, kinds, pieces and squares, how pieces move on an
//! empty board, sets of squares, and the rays by which a piece sees the squares of a line up to the
//! first one that is occupied.
//!
//! All are small values that are copied. Nothing here takes memory, and nothing here knows what
//! stands on a board but by a set of occupied squares that it is given. Tables give most answers;
//! `tools/make_masks.py` writes them, and each is proved equal to its plain definition.
#![tactic(auto)]

mod direction;
mod gait;
mod laws;
mod mask;
mod movement;
mod piece;
mod rays;
mod reach;
mod square;
mod squares;
mod standing;
mod tables;

pub use direction::Direction;
pub use laws::mask_laws;
pub use mask::Mask;
pub use movement::fits;
pub use piece::{Kind, Piece, Side};
pub use rays::{between, direction_to, lines, open_ray, ray};
pub use reach::{around, steps, steps_to};
pub use square::Square;
pub use squares::Squares;
