//! A mate session of the USI protocol, as a machine that takes lines and gives acts.
//!
//! A [`Session`] keeps a problem and options. Each [`Session::line`] gives one [`Act`]: lines to be
//! said, a problem to be solved, the end, or nothing. Nothing is read or written here, and nothing
//! is searched: whoever drives the session does that. `specs/Sessions.antt` has what each line
//! does, and the sessions of several lines. (USI protocol: `usi`, `isready`, `setoption`,
//! `position`, `go mate`, `quit`.)
#![tactic(auto)]

mod act;
mod command;
mod fields;
mod laws;
mod numbers;
mod options;
mod playing;
mod position;
mod reading;
mod session;
mod texts;

pub use act::{Act, Solve};
pub use command::MOST_MILLIS;
pub use laws::{line_laws, session_laws};
pub use options::FIRST_ROWS;
pub use session::Session;
