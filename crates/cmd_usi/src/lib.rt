//! The command `usi`: a mate session of the USI protocol, over a source and a sink.
//!
//! [`usi`] takes the lines of the source one after the other, and has each served
//! ([`usi_serve`]) before it takes the next: what the session says is written, and a problem that
//! it is asked to have solved is solved and answered. [`Talked`] is how it ended, with the replies.
//! What its words ask for is a [`Usi`], which asks for nothing more.
#![tactic(auto)]

mod running;
mod talked;
mod turn;
mod words;

pub use running::usi;
pub use talked::{TalkEnd, Talked};
pub use words::Usi;
