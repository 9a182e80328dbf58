// The record of a problem and of moves from it.
ghost use Rattle.std.specs.Prelude.{◌≡◌, ◌↔◌, ◌++◌, IfOk, OnOk, IsTrue, List, None};
ghost use Rattle.shogi_rules.specs.Rules.{IsQuiet};
ghost use Rattle.kif_moves.specs.Playing.{AreInTurn, after_all};
ghost use Rattle.kif_record.specs.Mated.{IsMated};
ghost use Rattle.kif_record.specs.Moves.{moves_text};
ghost use Rattle.kif_record.specs.Record.{IsRecord, ending_text};

use crate::diagram::{put_diagram, put_line};
use crate::moves::{goes_to, put_move, put_number};
use board_core::{Move, Position};
use evasions::answers;
use shogi_rules::{Problem, apply};
use std::alloc::{AllocError, Global};

// Puts the moves, and gives the position after them.
fn put_moves(out: &mut Vec<u8>, problem: &Problem, moves: &[Move]) -> Result<Position, AllocError>
    requires { AreInTurn problem.now.position.side problem.now.position moves.now }
    ensures text { OnOk result (out.new.items
        ≡ out.old.items ++ moves_text 1 None problem.now.position moves.now) }
    ensures position { IfOk result (λ last. last ≡ after_all problem.now.position moves.now) }
    ensures quiet { IfOk result (λ position. IsQuiet position) }
{
    let mut position = problem.position;
    let mut last = None;
    let mut number = 1;
    for by in moves {
        put_move(out, number, last, &position, *by)?;
        position = apply(&position, *by);
        last = Some(goes_to(*by));
        number += 1;
    }
    Ok(position)
}

// Whether the defender is to move and has no evasion.
fn is_mated(alloc: Global, problem: &Problem, position: &Position) -> Result<bool, AllocError>
    requires { IsQuiet position.now }
    ensures { IfOk result (λ mated. IsTrue mated
        ↔ IsMated problem.now.position.side position.now) }
{
    if position.side() == problem.attacker() {
        return Ok(false);
    }
    let evasions = answers(alloc, problem, position)?;
    Ok(evasions.as_slice().is_empty())
}

fn ending(mated: bool) -> &'static str
    ensures { result.now ≡ ending_text mated }
{
    if mated { "詰み" } else { "中断" }
}

/// The KIF record of a problem and of moves from it, checks and evasions in turn (KIF format, in
/// UTF-8): the diagram; then a line a move, its number right in four places, where it goes (`同`
/// where the move before went there), the piece, and where it comes from, or that it is dropped; at
/// last a line of the next number, `詰み` where the defender is to move and has no evasion, else
/// `中断`. Each line ends with a line feed. Errors: want of memory alone.
pub fn write_kif(alloc: Global, problem: &Problem, moves: &[Move]) -> Result<Vec<u8>, AllocError>
    requires { AreInTurn problem.now.position.side problem.now.position moves.now }
    ensures { IfOk result (λ text. IsRecord problem.now.position moves.now text.items) }
{
    let mut text = Vec::new(alloc);
    put_diagram(alloc, &mut text, &problem.position)?;
    put_line(&mut text, "手数----指手---------消費時間--")?;
    let position = put_moves(&mut text, problem, moves)?;
    let mated = is_mated(alloc, problem, &position)?;
    put_number(&mut text, moves.len() as u64 + 1)?;
    put_line(&mut text, ending(mated))?;
    Ok(text)
}
