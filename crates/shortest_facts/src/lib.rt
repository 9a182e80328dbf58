//! What is known of how many moves mates take: facts about positions, which only get better.
//!
//! Of a position a [`Fact`] says how many of the attacker's moves a mate takes at least and at
//! most, and names a move on which that rests. [`Facts`] are all of them, for an attacker. Each
//! rests on others in a way that both a mate's certificate and a bound can be read from: what that
//! is, is defined in `specs/Facts.antt`, and kept by the type.
#![tactic(auto)]

mod fact;
mod facts;

pub use fact::{Fact, NEVER};
pub use facts::Facts;
