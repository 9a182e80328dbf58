//! Serves a mate session of the USI protocol: what it does at a line is done, and its answer is
//! written.
//!
//! [`serve_line`] hands a line to a [`Session`](usi_session::Session). What that says is written; a
//! problem that it is asked to have solved is searched, and the USI answer alone is written, with
//! no certificate behind it: a [`Reply`] keeps what was asked and what was found. What was done
//! over several lines stands in `specs/Served.antt`.
#![tactic(auto)]

mod reply;
mod serving;

pub use reply::{Reply, reply_text};
pub use serving::{ServeFault, Served, Serving, serve_line};
