//! What a run of any command leaves beside its answer: its exit status, and what the user is told
//! of it.
//!
//! An answer has a [`Status`], and so has an ending; a fault of a text is [`Explained`], and
//! [`told_of`] is the text for the user of a run that ended so: nothing where it was answered, else
//! a line, and behind it what is at fault, what was expected, and what to do. So a command gives
//! the status of its answer, the line of its fault, and what explains it, and no other crate has to
//! know them.
#![tactic(auto)]

mod explained;
mod status;
mod telling;

pub use explained::Explained;
pub use status::Status;
pub use telling::{told_line, told_of, told_of_written};
