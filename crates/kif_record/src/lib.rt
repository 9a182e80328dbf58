//! KIF records of tsume problems: the diagram of a problem and moves from it, checks and evasions
//! in turn, as board programs read them.
//!
//! [`write_kif`] writes the one text that a problem and moves have here: the diagram with its hands
//! and whose turn it is, the moves with their numbers, and at last whether the defender is mated.
//! `specs/` has the text in full. (KIF format, in UTF-8.)
#![tactic(auto)]

mod characters;
mod diagram;
mod moves;
mod record;

pub use record::write_kif;
