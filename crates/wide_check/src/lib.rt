//! Certificates checked over several threads.
//!
//! [`check_wide`] gives the verdict of `cert_check::check`: the entries are heard in stretches,
//! each by a thread that has none, over the one [`Hearing`](cert_check::Hearing), and the first
//! objection among all gives the verdict. A certificate has one verdict for a problem, so it
//! doesn't depend on how many threads there are. It stands on `side_by_side`, and so on `rayon`.
#![tactic(auto)]

mod stretches;
mod wide;

pub use wide::check_wide;
