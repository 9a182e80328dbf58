// How a search ended.
use notes::Note;
use search_limits::Cause;
use worker_core::Crew;

/// How a search ended: with a note that answers the problem; or with the cause why it gave up, and
/// its workers as they ended.
#[derive(Drop)]
pub enum SearchEnd {
    /// The note is about the problem, and holds on every path.
    Solved(Note),
    /// What was used up, or that it was stopped.
    Unknown(Cause, Crew),
}
