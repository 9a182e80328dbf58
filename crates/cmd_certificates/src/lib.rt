//! What `check --collection` does: it reads what `collection --certificates` printed, also parts of
//! it one behind the other, and tells of each line that tells a verdict whether the certificate
//! behind it is valid for its own problem, or the first reason why it isn't, or what is wrong with
//! its text; and how many of them came to what.
//!
//! Which lines these are, and what stands behind them, is `collection_text`'s question; what it
//! means that a certificate is accepted or refused is `cmd_check`'s. What the words ask for is
//! `cmd_check`'s [`Check`](cmd_check::Check). [`check_collection`] is one run, whose clauses are
//! what it promises, in plain words first.
#![tactic(auto)]

mod asked;
mod judged;
mod judging;
mod running;
mod text;

pub use asked::NoFault;
pub use judged::{CollectionJudgement, JudgedLine, LineJudgement};
pub use running::check_collection;
pub use text::collection_text;
