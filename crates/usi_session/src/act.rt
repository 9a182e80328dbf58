// What a session does at a line.
use search_limits::Settings;
use shogi_rules::Problem;

/// A problem that a session was asked to have solved.
#[derive(Clone, Copy)]
pub struct Solve {
    /// The problem.
    pub problem: Problem,
    /// The settings of the search: the session's options.
    pub settings: Settings,
    /// After how many milliseconds it gives up, 1 to [`MOST_MILLIS`](crate::MOST_MILLIS); none
    /// where it has no limit.
    pub millis: Option<u64>,
}

/// What a session does at a line.
#[derive(Drop)]
pub enum Act {
    /// It says these lines, each with its line feed.
    Say(Vec<u8>),
    /// It has the problem solved, and says the answer.
    Solve(Solve),
    /// It ends.
    Quit,
    /// It does nothing.
    Nothing,
}
