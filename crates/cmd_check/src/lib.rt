//! The command `check`: it reads a certificate, and tells whether it is valid for the problem that
//! the words give, or for its own where they give none, or the first reason why it isn't.
//!
//! What its words ask for is a [`Check`], which has its line of the command line and reads them,
//! and is a command of [`one_run`]. [`check`] is one run of it, whose clauses are what the command
//! promises, in plain words first.
#![tactic(auto)]

mod asked;
mod clash;
mod judgement;
mod running;
mod words;

pub use asked::{MOST_CERTIFICATE_BYTES, asked_problem};
pub use running::check;
pub use words::Check;
