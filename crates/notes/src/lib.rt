//! Notes: facts about positions, each a derivation that only ten rules can make, and so true for
//! every reader.
//!
//! A search shares what it has found among paths. A disproof that depends on a repetition holds
//! only where the repeated position stands on the path (the graph-history interaction problem:
//! Kishimoto and Müller 2004). A note carries the *tag* of the positions on whose repetition it
//! depends (a form of this project's own); with it, what it says is an absolute statement: from its
//! position the defender escapes, or gets to one of the tag's positions. Contracts see a note as a
//! tree (`specs/Derivation.antt`); its type keeps that every step of it meets its rule
//! (`specs/Valid.antt`); [`Note::laws`] says what is then true (`specs/Truth.antt`). A note that
//! depends on no repetition may be carried to other hands ([`carry`]), and lent by keys alone
//! ([`may_be_lent`], `specs/Lending.antt`). What was found before, and listed with all that
//! bears it out, is told by leaves ([`mate_leaves`], [`escape_leaves`], `specs/Sets.antt`).
#![tactic(auto)]

mod carried;
mod escapes;
mod leaves;
mod lending;
mod lists;
mod mates;
mod note;
mod rule;
mod set;
mod words;

pub use carried::carry;
pub use escapes::{escape_all, escape_by, escape_end, escape_repeat};
pub use leaves::{escape_leaves, mate_leaves};
pub use lending::{lending_laws, may_be_lent};
pub use mates::{mate_all, mate_by, mate_end};
pub use note::{HEIGHT_LIMIT, Note, NoteEnd, note_laws};
pub use rule::{Conclusion, Rule};
pub use words::{Draw, Kept, RoomAnswer, Seen, Update};
