// The moves of the lines behind a header.
ghost use Rattle.std.specs.Prelude.{◌+◌, drop, None, Ok, IfOk, IfErr};
ghost use Rattle.std.specs.Str.Lines.{lines};
ghost use Rattle.kif_moves.specs.Lines.{counted, numbered};
ghost use Rattle.kif_moves.specs.Steps.{IsPlayed, IsPlayEnd};

use crate::KifMovesEnd;
use crate::judge::{Place, Step, goal, judge};
use board_core::{Move, Position, Square};
use shogi_rules::{Problem, apply};
use std::alloc::Global;

// The moves that the lines behind so many lines of the text say, from the problem on.
pub fn played(
    alloc: Global,
    problem: &Problem,
    text: &str,
    head: usize,
) -> Result<Vec<Move>, KifMovesEnd>
    ensures moves { IfOk result (λ moves. IsPlayed problem.now.position.side
        problem.now.position None (counted (numbered (head + 1) (drop head (lines text.now))))
        (Ok moves.items)) }
    ensures none { IfErr result (λ end. IsPlayEnd problem.now.position
        (counted (numbered (head + 1) (drop head (lines text.now)))) end) }
{
    let attacker = problem.attacker();
    let mut position = problem.position;
    let mut last: Option<Square> = None;
    let mut moves = Vec::new(alloc);
    let mut number = head;
    for line in text.lines().skip(head) {
        number += 1;
        match judge(
            Place {
                attacker,
                last,
                number,
            },
            &position,
            line,
        )? {
            Step::Skipped => {}
            Step::Ended => return Ok(moves),
            Step::Played(by) => {
                moves.push(by)?;
                position = apply(&position, by);
                last = Some(goal(by));
            }
        }
    }
    Ok(moves)
}
