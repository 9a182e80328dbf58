//! The checker of bounds: whether a bound shows that a problem is no mate within so many moves.
//!
//! [`check_bound`] accepts exactly the valid bounds, whoever wrote them, and names the first reason
//! against any other. That it accepts one implies that there is no mate within that many of the
//! attacker's moves. What valid means is defined in `specs/Valid.antt`, and the reasons in
//! `specs/Reasons.antt`.
#![tactic(auto)]

mod evading;
mod verdict;

pub use verdict::{BoundVerdict, check_bound, valid_bound_is_accepted};
