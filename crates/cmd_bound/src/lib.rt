//! What `check --bound` does: it reads a mate's certificate with a bound behind it, or a bound
//! alone, and tells whether they are valid for the problem that the words give, or for their own
//! where they give none: that the shortest mate takes so many moves, that there is none within so
//! many, or the first reason against it.
//!
//! What the words ask for is `cmd_check`'s [`Check`](cmd_check::Check). [`check_with_bound`] is one
//! run, whose clauses are what it promises, in plain words first.
#![tactic(auto)]

mod asked;
mod judgement;
mod judging;
mod running;
mod text;

pub use judgement::{BoundJudgement, BoundWhy};
pub use running::check_with_bound;
pub use text::bound_text;
