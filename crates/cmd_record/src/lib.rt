//! The command `record`: it reads a mate's certificate, as `solve` prints it, checks it as `check`
//! does, and writes the KIF record of its problem and its main line, which board programs open.
//!
//! What its words ask for is a [`Record`], which has its line of the command line and reads them,
//! and is a command of [`one_run`]. [`record`] is one run of it, whose clauses are what the command
//! promises, in plain words first.
#![tactic(auto)]

mod answer;
mod asked;
mod fault;
mod judging;
mod running;
mod words;

pub use answer::RecordAnswer;
pub use fault::RecordFault;
pub use running::record;
pub use words::Record;
