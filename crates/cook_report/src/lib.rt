//! A cook report of a tsume problem: for each first check, whether it mates, and what shows it.
//!
//! A [`Report`] has a line for each check of its problem: that it mates, with what mates after each
//! evasion; that an evasion to it leads to no mate, with the certificate of the escape; or that
//! neither was found. Its [`Word`] is what a composer asks: whether the solution's first move is
//! the only one. When a report is valid is defined in `specs/Valid.antt`, and what it shows in
//! `specs/Shown.antt`: [`report_laws`]. [`check_report`] tells exactly whether it is valid, whoever
//! wrote it. [`join_mates`] makes one list of the certificates of several mates, as of those after
//! the evasions to a check. Nothing here searches or writes a text.
#![tactic(auto)]

mod checking;
mod copying;
mod ends;
mod join;
mod laws;
mod line;
mod listing;
mod report;
mod word;

pub use checking::check_report;
pub use ends::JoinEnd;
pub use join::join_mates;
pub use laws::report_laws;
pub use report::{Line, Report};
pub use word::Word;
