//! Bounds: what says of a problem that no mate is shorter than so many moves, and its text.
//!
//! A bound lists positions, each with a number of moves within which it says that there is no mate.
//! Whether what it says is so is another crate's question. Here it keeps what its form promises, as
//! a certificate does ([`cert_text::CertificateOf`]): its positions rise by the bytes of their SFEN
//! texts, so that none stands twice, each is a problem of the same side to move, and the numbers
//! are from 1 to [`mate_facts::MOST_RANK`].
//!
//! [`read_bound`] and [`write_bound`] are its text both ways, and [`bound_laws`] are facts about
//! all of them.
#![tactic(auto)]

mod entry;
mod fault;
mod laws;
mod read;
mod write;

pub use entry::{Bound, BoundEntry};
pub use fault::{BadBound, BoundEnd};
pub use laws::bound_laws;
pub use read::read_bound;
pub use write::{append_bound, write_bound};
