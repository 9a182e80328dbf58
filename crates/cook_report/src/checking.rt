// The checker of reports.
ghost use Rattle.std.specs.Prelude.{◌≡◌, ◌↔◌, IfOk, IsTrue, map};
ghost use Rattle.board_core.specs.Order.{Lists};
ghost use Rattle.shogi_rules.specs.Tsume.{IsCheck};
ghost use Rattle.cook_report.specs.Report.{check_of};
ghost use Rattle.cook_report.specs.Valid.{ValidReport};
ghost use Rattle.cook_report.specs.Shown.{Shows};

use crate::line::is_line_of;
use crate::{Line, Report};
use board_core::{Move, order_laws};
use check_moves::checks;
use shogi_rules::Problem;
use std::alloc::{AllocError, Global};

// Whether these are the checks of the lines, in their order.
fn are_checks_of(lines: &[Line], moves: &[Move]) -> bool
    ensures { IsTrue result ↔ (map check_of lines.now ≡ moves.now) }
{
    if lines.len() != moves.len() {
        return false;
    }
    for place in 0..lines.len() {
        if !lines[place].check().is_same(moves[place]) {
            return false;
        }
    }
    true
}

// Whether the lines are of the checks of the problem, one of each, in the order of moves.
fn are_all_checks(alloc: Global, problem: &Problem, lines: &[Line]) -> Result<bool, AllocError>
    ensures { IfOk result (λ found. IsTrue found
        ↔ Lists (IsCheck problem.now.position.side problem.now.position) (map check_of lines.now)) }
{
    // No two moves have one place in their order, so there is one such list.
    order_laws();
    let checks = checks(alloc, problem, &problem.position)?;
    Ok(are_checks_of(lines, checks.as_slice()))
}

/// Whether a report is valid for the problem. Errors: want of memory alone.
///
/// Where it is, it shows what its word says, whoever wrote it.
pub fn check_report(alloc: Global, problem: &Problem, report: &Report) -> Result<bool, AllocError>
    ensures valid { IfOk result (λ found. IsTrue found
        ↔ ValidReport problem.now.position report.now) }
    // What is valid shows what its lines and its word say.
    ensures shows { IfOk result (λ found. IsTrue found
        → Shows problem.now.position report.now) }
{
    let lines = report.lines();
    if !are_all_checks(alloc, problem, lines)? {
        return Ok(false);
    }
    for line in lines {
        if !is_line_of(alloc, problem, line)? {
            return Ok(false);
        }
    }
    Ok(true)
}
