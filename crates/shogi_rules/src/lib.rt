//! The rules of shogi, proved: how pieces move, check, legal moves, and what a move does.
//!
//! The rules themselves are definitions, in `specs/Rules.antt`, to be read from top to bottom;
//! `specs/Tsume.antt` says what a check and an evasion of a tsume problem are. Each call here says
//! in its contract that it is exactly a definition. Only [`trial`] takes memory: it tries every
//! move, and is what faster lists of moves are compared with.
#![tactic(auto)]

mod checking;
mod illegal;
mod keys;
mod laws;
mod legality;
mod movement;
mod moving;
mod problem;
pub mod trial;
mod tsume;

pub use checking::{attacked, candidates, in_check};
pub use illegal::Illegal;
pub use keys::key_after;
pub use laws::legal_laws;
pub use legality::legal;
pub use moving::{apply, drop_piece};
pub use problem::{DefenderInCheck, Problem, accept_problem};
pub use tsume::{is_check, is_evasion};
