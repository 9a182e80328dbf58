//! The program `tsume` as a library: [`run`] takes the words of the command line, read once
//! ([`WordsRead`]), a source, a sink, a gate, stops and the handle for threads, and hands them on
//! to the command that the words ask for.
//!
//! Its contract is the commands' own: whatever command ended the run is the one that the words
//! asked for, and kept all that it promises. How a run ended is an [`Ended`], a sum of the
//! commands' endings, with the status and what the user is told as each command has them. So a
//! further command is a variant of it with its row, an arm of the run, and two rows of definitions.
#![tactic(auto)]

mod ended;
mod exit;
mod front;
mod pipe;
mod program;
mod progress;
mod telling;

pub use cmd_check::MOST_CERTIFICATE_BYTES;
pub use cmd_collection::MOST_COLLECTION_BYTES;
pub use ended::{Ended, Refusal};
pub use exit::Exit;
pub use one_run::Input;
pub use pipe::{OpenPipe, Pipe};
pub use program::{named_file, run, told_limit};
pub use program_words::WordsRead;
pub use telling::{Streams, Told, run_and_tell, start, tell};
