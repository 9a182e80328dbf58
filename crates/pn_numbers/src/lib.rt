//! Proof numbers and disproof numbers, as a depth-first proof-number search reckons with them
//! (df-pn: Nagai 2002): the numbers of a node from those of its children, which child is visited
//! next, and the thresholds of its visit.
//!
//! Several workers share the numbers. A worker below a child makes it look larger to the others
//! (virtual numbers: Kaneko 2010), and workers that see the same numbers part. Everything here is
//! total and takes no memory; what is done at an attacker's node is done at a defender's with proof
//! and disproof numbers in each other's place.
#![tactic(auto)]

mod combining;
mod limiting;
mod node;
mod numbers;
mod selecting;

pub use combining::{and_numbers, or_numbers};
pub use limiting::{SLACK, child_thresholds};
pub use node::Node;
pub use numbers::{CAP, INFINITE, Numbers};
pub use selecting::{Child, WEIGHT, select};
