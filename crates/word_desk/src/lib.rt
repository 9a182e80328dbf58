//! The desk of a search by several threads: it hands out the visits and the room for notes,
//! and keeps the note that answers the problem.
//!
//! Two words count the visits and the claims, and say whether a note is posted. Each thread steps
//! on them with a seat of its own, which keeps what it drew, claimed and posted; what is shared is
//! kept by proof alone. The visits that all seats drew are different numbers from 1, and so are the
//! claims: each is handed out once, whatever the threads do.
//!
//! There are six kinds of step: [`draw`](WordDesk::draw), [`claim`](WordDesk::claim),
//! [`post`](WordDesk::post), [`make_seat`](WordDesk::make_seat), [`join_seat`](WordDesk::join_seat)
//! and [`close`](WordDesk::close), which says what the desk came to. What each does to a seat
//! stands in `specs/WordDesk.antt`, and what is kept of both words and all seats in
//! `specs/Rule.antt`.
#![tactic(auto)]

mod desk;
mod rule;
mod seat;
mod view;

pub use desk::{DeskEnd, WordDesk};
pub use seat::DeskSeat;
pub use view::{MOST_SEATS, POSTED, View};
