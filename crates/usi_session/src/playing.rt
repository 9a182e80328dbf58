// The problem that a position line makes.
ghost use Rattle.std.specs.Prelude.{◌≡◌, ◌↔◌, IsTrue, false, IfOk, IfSome, IfNone};
ghost use Rattle.board_core.specs.declared.moves.Move.{Move};
ghost use Rattle.board_core.specs.Board.{HasDefender};
ghost use Rattle.shogi_rules.specs.Rules.{IsQuiet};
ghost use Rattle.usi_session.specs.Fields.{fields_of};
ghost use Rattle.usi_session.specs.Positions.{IsMoveOn};
ghost use Rattle.usi_session.specs.Reading.{ArePlayed, IsLast, IsSfenOutcome, IsMovesOutcome};

use crate::fields::first_field;
use crate::position::{MovesFault, SfenFault};
use board_core::{Move, Position};
use sfen_text::read_sfen;
use shogi_rules::{Problem, accept_problem, apply, legal};
use usi_text::{move_laws, read_move};

/// The problem that an SFEN spells; or what is wrong with it. Takes no memory.
pub fn first_problem(sfen: &[u8]) -> Result<Problem, SfenFault>
    ensures { IsSfenOutcome sfen.now result }
{
    let position = match read_sfen(sfen) {
        Ok(position) => position,
        Err(fault) => return Err(SfenFault::BadSfen(fault)),
    };
    match accept_problem(position) {
        Ok(problem) => Ok(problem),
        Err(_) => Err(SfenFault::DefenderInCheck),
    }
}

// The legal move whose text a field is.
fn move_on(position: &Position, field: &[u8]) -> Option<Move>
    requires { IsQuiet position.now }
    ensures found { IfSome result (λ by. IsMoveOn position.now field.now by) }
    ensures none { IfNone result ((by : Move) → ¬ IsMoveOn position.now field.now by) }
{
    // No other move has this text.
    move_laws();
    let by = read_move(field)?;
    if legal(position, by).is_err() {
        return None;
    }
    Some(by)
}

// The position after the moves of a text, each legal where it is made.
fn played<'a>(first: &Problem, moves: &'a [u8]) -> Result<Position, MovesFault<'a>>
    ensures played { ArePlayed first.now.position (fields_of moves.now) result }
    ensures quiet { IfOk result IsQuiet }
{
    let mut position = first.position;
    let mut rest = moves;
    let mut number = 1;
    while let Some((field, behind)) = first_field(rest) {
        let Some(by) = move_on(&position, field) else {
            return Err(MovesFault::IllegalMove(number, field));
        };
        position = apply(&position, by);
        rest = behind;
        number += 1;
    }
    Ok(position)
}

fn has_defender(position: &Position) -> bool
    ensures yes { IsTrue result → HasDefender position.now }
    ensures no { result ≡ false → ¬ HasDefender position.now }
{
    position.king_square(position.side().other()).is_some()
}

// The problem that a position is which legal moves led to.
fn last_problem<'a>(position: Position) -> Result<Problem, MovesFault<'a>>
    requires { IsQuiet position }
    ensures { IsLast position result }
{
    if !has_defender(&position) {
        return Err(MovesFault::NoDefenderKing);
    }
    match accept_problem(position) {
        Ok(problem) => Ok(problem),
        // The side that isn't to move is in no check after a legal move.
        Err(_) => unreachable!(),
    }
}

/// The problem after the moves of a text; or the first of what is wrong with them. Takes no memory.
pub fn problem_after<'a>(first: &Problem, moves: &'a [u8]) -> Result<Problem, MovesFault<'a>>
    ensures { IsMovesOutcome first.now.position (fields_of moves.now) result }
{
    last_problem(played(first, moves)?)
}
