//! Lemmas alone, about sums over the views of several threads, one of which is told by its place.
//! They stand in `proofs/`. There is nothing to call here.
#![tactic(auto)]
