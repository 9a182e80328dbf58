//! What stands behind the first line of a fault: the line at fault with the place marked, and what
//! was expected and what to do.
//!
//! [`explain`] makes that text of a [`Trouble`] and the bytes of the input. No clause promises its
//! words, which the tests show. Proved is that it takes every input and ends, and that whatever the
//! input holds it shows printable ASCII and line feeds alone, and of a diagram the characters of
//! Japanese texts too.
#![tactic(auto)]

mod advice;
mod diagram;
mod explanation;
mod line;
mod look;
mod trouble;
mod words;

pub use explanation::explain;
pub use trouble::Trouble;
