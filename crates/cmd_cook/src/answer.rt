// What is answered to a problem whose checks are asked about.
ghost use Rattle.std.specs.Prelude.{◌≡◌};
ghost use Rattle.cook_report.specs.Report.{says_unknown};
ghost use Rattle.cmd_cook.specs.Text.{report_status, line_status};

use board_core::Move;
use cook_line::{Stage, has_unknown};
use cook_report::{Line, Report};
use run_telling::Status;
use worker_core::Crew;

/// What is told of the first checks of a problem.
#[derive(Drop)]
pub struct ToldReport {
    /// A line for each.
    pub report: Report,
    /// The workers of the searches that gave up, as they ended, one search after the other.
    pub crews: Vec<Crew>,
}

/// What is told of the checks along a line of moves.
#[derive(Drop)]
pub struct ToldLine {
    /// The moves, checks and evasions in turn.
    pub moves: Vec<Move>,
    /// What is told at each turn of the attacker, in order.
    pub stages: Vec<Stage>,
    /// The workers of the searches that gave up, as they ended, one search after the other.
    pub crews: Vec<Crew>,
}

/// What is answered: a report of the problem, or reports along a line.
#[derive(Drop)]
pub enum CookAnswer {
    /// What is told of the problem's first checks.
    Report(ToldReport),
    /// What is told of the checks along the line that the words give.
    Lines(ToldLine),
}

fn is_unknown(line: &Line) -> bool
    ensures { result ≡ says_unknown line.now }
{
    match line {
        Line::Unknown(_, _, _) => true,
        Line::Mate(_, _) | Line::Escape(_, _, _) => false,
    }
}

fn status_of_report(told: &ToldReport) -> u8
    ensures { result ≡ report_status told.now }
{
    let lines = told.report.lines();
    let unknown = lines.iter().filter(|line| is_unknown(line)).count();
    if unknown > 0 { 1 } else { 0 }
}

fn status_of_line(told: &ToldLine) -> u8
    ensures { result ≡ line_status told.now }
{
    if has_unknown(&told.stages) { 1 } else { 0 }
}

impl Status for CookAnswer {
    ghost use Rattle.cmd_cook.specs.Text.{answer_status};

    ghost status_of = { answer_status };

    /// 0 where it is known of each check that is told of whether it mates, else 1.
    fn status(&self) -> u8 {
        match self {
            CookAnswer::Report(told) => status_of_report(told),
            CookAnswer::Lines(told) => status_of_line(told),
        }
    }
}
