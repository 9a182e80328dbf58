//! Searches for a cook report: whether each first check of a problem mates.
//!
//! [`cook`] goes over the checks of a problem in their order. Behind each evasion to a check stands
//! a position that is searched, till one is found that is no mate: so the check doesn't mate. Where
//! all are mates, their certificates are joined into the check's. Where neither comes out, the
//! check is unknown. What a report says is `cook_report`'s; on which searches it stands, and why a
//! check is unknown, is defined in `specs/Found.antt`.
#![tactic(auto)]

mod deciding;
mod ground;
mod lines;
mod onlooker;
mod reporting;

pub use ground::Ground;
pub use lines::behind;
pub use onlooker::CheckOnlooker;
pub use reporting::cook;
