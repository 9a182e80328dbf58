//! How the words of a command line are read, whatever the commands are.
//!
//! A command's words are its own: what they ask for is a type of its crate, which is
//! [`CommandWords`]. Here stand the kinds of options that its line is made of ([`number_option`],
//! [`flag_option`] and so on), those that several commands have, and what reads them of clap's
//! answer ([`number`], [`settings`] and so on). Which words clap takes, and what it gives for them,
//! is clap's own meaning of the line; a command may have tests behind it, as that the rows and the
//! shards of a search are powers of two and that there are no more shards than rows. Words that are
//! refused are a [`WordFault`] with the text for the user; a request for help or for the version
//! ends with clap's text ([`WordsEnd`]). What a whole program promises of its words follows from
//! what each command's words mean.
#![tactic(auto)]

mod command;
mod faults;
mod form;
mod given;
mod options;
mod reading;
mod watch;

pub use command::CommandWords;
pub use faults::{Clash, WordFault, WordsEnd};
pub use form::{Format, ProblemForm};
pub use given::{
    expansions, file, is_flagged, number, number_if_given, problem_form, search_watch, settings,
    text,
};
pub use options::{
    deadline_option, expansions_option, file_word, flag_option, kif_flag, number_if_any_option,
    number_option, progress_flag, rest_flag, room_option, rows_option, shards_option, text_option,
};
pub use reading::{end_of, with_program};
pub use watch::{MOST_DEADLINE, Watch};
