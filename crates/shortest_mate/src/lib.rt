//! The shortest mate of a problem, and what shows that none is shorter.
//!
//! [`shortest`] searches as `search_pool` does first, with half of the expansions, and then by
//! lengths (`shortest_search`) from what that found. What it finds is true, and shown: by a valid
//! certificate of a mate and a valid bound below its length, or by a valid bound alone. What that
//! means is defined in `specs/Finding.antt`.
#![tactic(auto)]

mod escape;
mod finding;
mod first;
mod learning;
mod search;

pub use finding::Finding;
pub use search::{MOST_LIMIT, shortest};
pub use shortest_search::LengthOnlooker;
