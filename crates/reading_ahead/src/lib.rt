//! The edge of a session: a thread reads the standard input ahead, so that a running search hears
//! the line `stop`, and a process doesn't outlive whoever drives it.
//!
//! [`read_ahead`] starts the thread. What it reads goes, in order, through a queue that holds so
//! many bytes at most; [`Queue`] hands them on as a source, a line a call at most. [`HeardStop`] is
//! a search's stop: it signals at its deadline, while a line `stop` was read that wasn't handed on,
//! and, where it is armed for no time, from a second on after `quit` or the end was read.
//!
//! What stands between the threads is trusted, since no clause follows a value through a lock or
//! an atomic: that the thread's bytes are those of the reader, and what was heard. What each side
//! does with its values is proved.
#![tactic(auto)]

mod begin;
mod handing;
mod hearing;
mod held;
mod line;
mod passage;
mod queue;
mod reader;
mod stop;

pub use begin::{NotBegun, read_ahead};
pub use hearing::{Heard, Listener};
pub use queue::Queue;
pub use stop::HeardStop;
