//! Positions of shogi as SFEN texts, both ways.
//!
//! [`write_sfen`] and [`append_sfen`] write the one text of a position: no two positions have one
//! text. [`read_sfen`] reads every text of a position, with runs side by side, hands in any order
//! and a move number too, and names the first fault of any other input with its place. What is
//! written for a position whose side not to move has a king is read as it. [`sfen_laws`] are facts
//! about all these texts. Nothing here knows how pieces move.
#![tactic(auto)]

mod fault;
mod hands;
mod laws;
mod pieces;
mod read;
mod squares;
mod write;

pub use fault::TextFault;
pub use laws::sfen_laws;
pub use read::read_sfen;
pub use write::{append_sfen, write_sfen};
