//! Counts of workers that threads share: a word for each slot of a table of positions, which counts
//! the workers that are below the slot.
//!
//! Each thread steps on the words with a seat of its own. A seat's view is what it has added and
//! not subtracted since; each word is, at any time, how often it stands in all views together. A
//! step is one instruction on the word. What is shared here is kept by proof alone: a seat has no
//! bytes, and nothing locks, waits or fails.
//!
//! There are six kinds of step: [`load`](WorkerCounts::load), [`add`](WorkerCounts::add),
//! [`subtract`](WorkerCounts::subtract), [`make_seat`](WorkerCounts::make_seat),
//! [`join_seat`](WorkerCounts::join_seat) and [`close`](WorkerCounts::close), after which the
//! [`ClosedCounts`] tell the words. What each does to a view, and what is kept of all words and
//! views, stands in `specs/Counts.antt`.
#![tactic(auto)]

mod closed;
mod counts;
mod laws;
mod rule;
mod seat;
mod view;

pub use closed::ClosedCounts;
pub use counts::WorkerCounts;
pub use laws::view_laws;
pub use seat::CountSeat;
pub use view::{KEPT_LOADS, MOST_ADDED, MOST_SEATS, View};
