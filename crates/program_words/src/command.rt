// What words ask for.

/// What one of the commands is asked.
#[derive(Debug, Drop)]
pub enum Command {
    /// Solve the problem that is read, perhaps with a library behind it.
    Solve(cmd_solve::SolveWords),
    /// Tell of each first check of the problem that is read whether it mates, or of those along a
    /// line from it.
    Cook(cmd_cook::Cook),
    /// Look for the shortest mate of the problem that is read.
    Shortest(cmd_shortest::Shortest),
    /// Check the certificate that is read.
    Check(cmd_check::Check),
    /// Solve the problems of this range, as the generator makes them, and count how they end;
    /// nothing is read.
    Survey(cmd_survey::SurveyRange),
    /// Decide each problem of the text that is read.
    Collection(cmd_collection::Collection),
    /// Judge the moves of the KIF text that is read.
    Solution(cmd_solution::JudgeSolution),
    /// Write the KIF record of the mate whose certificate is read.
    Record(cmd_record::Record),
    /// Write the certificate that is read in version 2.
    Upgrade(cmd_upgrade::Upgrade),
    /// Serve a USI mate session, whose lines are read one after the other.
    Usi(cmd_usi::Usi),
}

/// All that the words ask for.
#[derive(Debug, Drop)]
pub struct Asked {
    /// The command.
    pub command: Command,
    /// The file that it reads, as the words have its path; none for the standard input, and for a
    /// command that reads nothing.
    pub file: Option<String>,
}
