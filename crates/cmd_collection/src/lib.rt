//! The command `collection`: it reads a text with a problem in each line, and tells of each line,
//! in order, that its problem is a mate, with a main line, that it is none, that it was given up,
//! or what is wrong with it; and how many ended in which way behind the last.
//!
//! What its words ask for is a [`Collection`], which has its line of the command line and reads
//! them; what is told of one line is a [`Report`] ([`append_report`]), and behind the last the
//! [`Counts`] ([`counts_text`]). [`Reports`] goes over the lines: a search of its own decides each,
//! many at a time over threads, and the reports come in the order of the lines. An [`Onlooker`] is
//! told which lines are decided, and has the clock by which many lines are written at a time, and a
//! search is stopped whose deadline has passed.
//! [`collection`] is one run of the command, whose clauses are what it promises, in plain words
//! first.
#![tactic(auto)]

mod asked;
mod counts;
mod deciding;
mod form;
mod line_jobs;
mod looker_clock;
mod onlooker;
mod report;
mod report_text;
mod reports;
mod rounds;
mod running;
mod words;

pub use asked::{Collection, MOST_COLLECTION_BYTES, NoFault};
pub use counts::Counts;
pub use form::{CollectionForm, MOST_FIRST, MOST_THREADS};
pub use onlooker::Onlooker;
pub use report::{LineFault, Report};
pub use report_text::{append_report, counts_text};
pub use reports::{Reported, Reports};
pub use running::collection;
