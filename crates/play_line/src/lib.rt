//! The main line of a mate: the certificate's moves against the defence that lasts longest.
//!
//! [`main_line`] follows a valid certificate from its problem to the mate, at each position by the
//! entry that stands for it in the certificate's version. The line is defined in `specs/Line.antt`.
#![tactic(auto)]

mod defence;
mod finding;
mod line;

pub use line::main_line;
