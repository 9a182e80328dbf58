//! The text that a run of `collection --certificates` printed: which of its lines tell a verdict,
//! and the certificate behind each.
//!
//! [`ToldLines`] goes over a text, and gives each [`ToldLine`]: a line whose first word is a number
//! and whose second is `mate` or `nomate`, with the lines behind it up to the line `end`, or to
//! where the next ending is told, if no such line comes before. Whether these are a certificate's
//! text is another crate's question. Texts of several runs may stand one behind the other. Nothing
//! here takes memory, and no byte is read more than a few times.
#![tactic(auto)]

mod lines;
mod told;
mod words;

pub use told::{ToldLine, ToldLines};
