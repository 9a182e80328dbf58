//! A worker of the search by proof numbers (df-pn: Nagai 2002): a machine that asks one thing at a
//! time and is told the answer.
//!
//! A [`Worker`] holds the visits that are going on, the innermost last. It asks whether it is to
//! stop, for a visit, for room for a note, what the table knows of a position, to enter a
//! position and to leave it, to post the note that answers the problem; and at last it has ended.
//! Whoever has the table and the desk answers: [`work`] does it over any [`Port`] to the end,
//! [`work_until`] for so many requests. So one worker serves a search alone, many under any
//! schedule, and many on threads. What it does is promised by the definitions of `visit_log`: its
//! log is a visit log.
#![tactic(auto)]

mod crew;
mod machine;
mod port;
mod stack;
mod tops;
mod worker;
mod working;

pub use crew::Crew;
pub use port::Port;
pub use worker::Worker;
pub use working::{turn, work, work_until};
