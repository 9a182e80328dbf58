//! Positions of shogi, hands and moves, as plain values. Squares and pieces are those of
//! `bit_boards`, offered here again.
//!
//! A [`Position`] is small, of fixed size and copied as its bytes. It keeps that no kind has more
//! pieces than a set of shogi, that a side has at most one king, that no piece stands where it
//! could never move again, and that no side has two unpromoted pawns on a file. Nothing here takes
//! memory, and nothing here knows how pieces move.
#![tactic(auto)]

mod build;
mod changing;
mod code;
mod coding;
mod hand;
mod keys;
mod laws;
mod leftover;
mod moves;
mod pack;
mod position;
mod scan;
mod sets;
mod tally;

pub use bit_boards::{Kind, Piece, Side, Square};
pub use build::BadPosition;
pub use hand::Hand;
pub use keys::Key;
pub use laws::{build_laws, order_laws, value_laws};
pub use leftover::rest;
pub use moves::Move;
pub use pack::{key, same_key};
pub use position::Position;
