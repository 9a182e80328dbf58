//! What the commands of the program do alike: one reads a text whole, answers it, and writes the
//! answer's text; or it ends with a fault that has its cause.
//!
//! What a command is of its own is a [`Command`], by its meaning: how many bytes a text may have,
//! which answers are true of one, which faults one has, the text of an answer, and what becomes of
//! the stops. A run is three calls: [`read`] begins it, the command answers the text by one of its
//! own, and [`tell`] ends it; [`Ended`] is how. What a run promises (`IsRun`) is proved here, once
//! for all of them: a command says no more than its own, and no fault is named that can't come.
//!
//! A command that tells its answer part by part, while it works, writes each part as it has it, and
//! ends with [`write`]; what such a run promises (`IsSerialRun`), and how far it has come
//! (`AreSoFar`), stands here too, with the lemmas that lead from one part to the next. A command
//! that reads nothing is one call of [`write`], and ends as [`Written`] says (`IsStatedRun`).
#![tactic(auto)]

mod command;
mod ended;
mod input;
mod running;
mod written;

pub use command::{Command, Unanswered};
pub use ended::{Ended, Fault};
pub use input::Input;
pub use running::{read, tell};
pub use written::{Written, write};
