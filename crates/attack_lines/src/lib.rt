//! Who attacks a square, and along which lines: sets of squares, each exactly a definition.
//!
//! Nothing here takes memory. The lists of legal moves are made from these sets.
#![tactic(auto)]

mod attacking;
mod reach;
mod sight;

pub use attacking::{
    attacked_without, attackers, attackers_without, blocks, candidates_for, count_attackers,
    shields,
};
pub use reach::reached;
pub use sight::Sight;
