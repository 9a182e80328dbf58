//! Libraries: certificates one behind the other, and their text.
//!
//! A library is any certificates, of either kind and version, about any problems: what was decided
//! once and may serve again. Whether what they say is so is another crate's question. Here each
//! keeps what a certificate's form promises ([`cert_text::Certificate`]).
//!
//! [`read_library`] reads one from its text, and [`library_laws`] are facts about all such texts.
#![tactic(auto)]

mod certificate;
mod fault;
mod first_line;
mod laws;
mod limits;
mod read;

pub use fault::{LibraryEnd, LibraryFault};
pub use laws::library_laws;
pub use limits::MOST_CERTIFICATES;
pub use read::read_library;
