//! The desk of a search: it hands out the visits and the room for notes, and keeps the note
//! that answers the problem.
//!
//! A worker draws each visit of a position here before it makes it, and claims room for each note
//! that it makes. Both are counted against the [`Settings`](search_limits::Settings) of the search.
//! What is posted first stays, and it is an answer: it holds on every path, and it is about the
//! problem.
//!
//! Notes may be known before a search begins: [`known_answer`] tells what they say of its problem.
//!
//! Contracts see a desk as its counts, its limits, the problem's position and what is posted
//! (`specs/Desk.antt`), and notes that are known by `specs/Known.antt`.
#![tactic(auto)]

mod desk;
mod known;

pub use desk::Desk;
pub use known::known_answer;
