//! Lemmas alone, about sides, kinds, cells, squares and keys, which several crates need, each
//! stated once; what `bit_boards` and `board_core` have proved for themselves is passed on from
//! here. They stand in `proofs/`. There is nothing to call here.
#![tactic(auto)]
