//! Moves of shogi and answers about mates as texts of the USI protocol.
//!
//! A move is read with [`read_move`] and written with [`write_move`]; both are exact: a text is
//! read as a move where it is that move's text, and no two moves have one text. [`mate_line`],
//! [`nomate_line`] and [`timeout_line`] are the three answers to a question for a mate, without a
//! line feed. Nothing here knows which moves are legal.
#![tactic(auto)]

mod laws;
mod lines;
mod read;
mod write;

pub use laws::move_laws;
pub use lines::{
    append_mate_line, append_nomate_line, append_timeout_line, mate_line, nomate_line, timeout_line,
};
pub use read::read_move;
pub use write::{MoveText, write_move};
