//! Lemmas about lists that several crates need, each stated once: where a list's elements stand,
//! what holds of each, and how lists of moves are made a stretch of their order at a time. They
//! stand in `proofs/`. There is nothing to call here.
#![tactic(auto)]
