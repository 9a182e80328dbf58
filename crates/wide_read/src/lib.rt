//! Certificates read over several threads.
//!
//! [`read_wide`] reads what `cert_text::read_cert` does: the lines behind the head are read in
//! stretches, each by a thread that has none, and what was read of them is put together in their
//! order, up to the first fault. A text is that of one certificate, or has one first fault, so the
//! outcome doesn't depend on how many threads there are. It stands on `side_by_side`, and so on
//! `rayon`.
#![tactic(auto)]

mod cutting;
mod join;
mod stretches;
mod wide;

pub use wide::read_wide;
