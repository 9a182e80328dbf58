//! Certificates of a mate and of an escape: what they are, and their text.
//!
//! A certificate says of a problem that it is a mate, by positions with falling ranks and a check
//! at each, or that it is none, by positions each check from which has an evasion back to one of
//! them. Whether what it says is so is another crate's question. Here it keeps what its form
//! promises: its positions rise by the bytes of their SFEN texts, so that none stands twice, each
//! is a problem of the same side to move, ranks are from 1 to [`mate_facts::MOST_RANK`], and moves
//! have a text. For which positions its entries stand, its version says, 1 or 2
//! ([`hand_dominance::Version`]).
//!
//! [`CertificateOf`] is a certificate with entries of one kind ([`Entry`]); [`Certificate`] is one
//! of either kind. [`read_cert`] and [`write_cert`] are its text both ways, and [`cert_laws`] are
//! facts about all of them. Who wants to read lines in several threads opens a text ([`OpenText`]),
//! and reads stretches of its lines by themselves ([`read_lines`]). Who
//! reads more texts than one cuts a certificate's off at its line `end` ([`up_to_end`]).
#![tactic(auto)]

mod certificate;
mod entry;
mod fault;
mod head;
mod laws;
mod limits;
mod lines;
mod parts;
mod read;
mod write;

pub use certificate::{Certificate, CertificateOf, EscapeCertificate, MateCertificate};
pub use entry::Entry;
pub use fault::{CertEnd, CertFault};
pub use head::{Claim, Title};
pub use laws::cert_laws;
pub use limits::MOST_ENTRIES;
pub use lines::{LinesStop, ReadLines, read_lines, up_to_end};
pub use parts::{behind, cut, is_before, number_of_text, position_of_text, rank_of_text};
pub use read::{OpenText, read_cert};
pub use write::{append_cert, append_escape_cert, append_mate_cert, append_number, write_cert};
