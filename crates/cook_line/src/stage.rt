// What is told at a turn of the attacker.
use board_core::Move;
use cook_report::Report;

/// What is told at one of the attacker's turns along a line.
#[derive(Drop)]
pub struct Stage {
    /// The line's check there.
    pub check: Move,
    /// Whether there is an evasion to it. Only to the last check of a line there may be none.
    pub evaded: bool,
    /// The report of the position.
    pub report: Report,
}
