//! Lemmas alone, about what a move changes of who attacks what: which squares lie between others,
//! what stands where after a move, and which pieces attack a square then that didn't before. They
//! stand in `proofs/`. There is nothing to call here.
#![tactic(auto)]
