// What the search of a problem came to.
use search_limits::Cause;

/// What the search of a problem came to.
#[derive(Clone, Copy, PartialEq, Eq, Debug)]
pub enum Tally {
    /// The problem is a mate.
    Mate,
    /// The problem is no mate.
    NoMate,
    /// The search gave up for this cause.
    Unknown(Cause),
}
