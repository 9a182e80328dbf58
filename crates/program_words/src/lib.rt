//! What the words of the command line mean.
//!
//! The line of the program is made of its commands' own, and what its words ask for ([`Asked`]) is
//! what the words of one of its [`Command`]s do: each has its words in its own crate, which is
//! [`CommandWords`](tsume_words::CommandWords). So a further command is a variant here, and a row
//! in the table of the commands' words. [`read_words`] reads words, and [`WordsRead`] keeps them
//! beside what they came to, so that a program reads them once.
#![tactic(auto)]

mod command;
mod commands;
mod line;
mod reading;
mod words;

pub use command::{Asked, Command};
pub use reading::read_words;
pub use words::WordsRead;
