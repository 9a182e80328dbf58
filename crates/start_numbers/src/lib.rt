//! The numbers with which a position begins of which the search knows none: from the position
//! before it and the move that leads to it, with no list and no memory. Its speed decides the
//! search's, since most children of visited positions are such. [`Starts`] keeps the last of them.
#![tactic(auto)]

mod kept_starts;
mod starting;

pub use kept_starts::Starts;
pub use starting::start;
