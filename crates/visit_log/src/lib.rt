//! What a search by proof numbers asks and is told, as a grammar: a *visit log* (df-pn: Nagai
//! 2002).
//!
//! A visit of a position is drawn at the desk, enters the position in the table, lists its
//! successors, looks at them, and visits one after the other, until the position is solved, its
//! numbers have come to the thresholds of the visit, or there is a reason to wind up.
//! `specs/Visit.antt` says this as a tree of visits, each with what is done in it, and as the log
//! that such a tree writes. `specs/Machine.antt` says it once more, one answer at a time, for a
//! worker that has to stop and wait for each; [`visit_laws`] says that whatever is answered to it,
//! its log is the beginning of a visit log, and a whole one where it has ended. The crate has these
//! definitions, their laws, and the words of requests and answers; it does nothing.
#![tactic(auto)]

mod counted;
mod parts;
mod sound;
mod visits;
mod words;

pub use counted::count_laws;
pub use parts::{Child, Entry, Left, Look, Stage};
pub use sound::sound_laws;
pub use visits::visit_laws;
pub use words::{Reply, Request, WorkEnd};
