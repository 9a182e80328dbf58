//! What of a list a position covers, and whether one of it covers a position: in version 2, where
//! covering is dominating, found among the positions of its board alone.
//!
//! [`least_dominated`] finds the entry of least rank, of a mate's, that a position dominates;
//! [`is_dominated`] tells whether one of an escape's positions dominates it. So what is known of
//! one hand is used for others without going over the list. [`CoverPlaces`] finds in both versions.
//! What covering is worth is a law of `hand_dominance`.
#![tactic(auto)]

mod covering;
mod found;
mod hands;

pub use covering::CoverPlaces;
pub use found::{is_dominated, least_dominated};
pub use hands::has_better_hands;
