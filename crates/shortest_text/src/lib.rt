//! The text that says how short the shortest mate of a problem is: what it is, and how it is read.
//!
//! It says that a problem's shortest mate takes so many moves of the attacker, by a certificate of
//! a mate and a bound behind it; or that no mate is as short as a limit, by a bound alone. Whether
//! what it says is so is another crate's question. Here it keeps what its form promises: what
//! [`cert_text::read_cert`] and [`bound_text::read_bound`] do of its parts, and that the bound is
//! one for the certificate's problem.
//!
//! [`read_shortest`] reads it, and [`shortest_laws`] are facts about all such texts.
#![tactic(auto)]

mod certificate;
mod fault;
mod laws;
mod lines;
mod problem;
mod read;
mod text;

pub use fault::{ShortestEnd, ShortestFault};
pub use laws::shortest_laws;
pub use read::read_shortest;
pub use text::ShortestText;
