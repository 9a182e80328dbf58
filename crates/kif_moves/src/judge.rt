// What a line says on a position.
ghost use Rattle.std.specs.Prelude.{◌≡◌, ◌↔◌, ℕ, List, IsTrue, IsSomeAnd};
ghost use Rattle.std.specs.Str.{chars};
ghost use Rattle.bit_boards.specs.Kind.{other};
ghost use Rattle.board_core.specs.Board.{piece_at};
ghost use Rattle.shogi_rules.specs.Rules.{IsQuiet, IsLegal, IsInCheck, after};
ghost use Rattle.kif_moves.specs.Words.{behind_number};
ghost use Rattle.kif_moves.specs.Lines.{is_skipped, has_ending, is_end};
ghost use Rattle.kif_moves.specs.Playing.{HasName, Names, goal, named_in};
ghost use Rattle.kif_moves.specs.Steps.{last_number, IsJudged, IsMoveJudged, IsWordRead};

use crate::KifMovesFault;
use crate::word::{behind_number, is_ending, spoken_of};
use board_core::{Move, Piece, Position, Side, Square};
use kif_text::begins;
use shogi_rules::{apply, in_check, legal};

// What a line is, where it has no fault.
#[derive(Clone, Copy)]
pub enum Step {
    // It says nothing of the moves.
    Skipped,
    // The moves end before it.
    Ended,
    // It says a check or an evasion.
    Played(Move),
}

// Where a line's move is made.
#[derive(Clone, Copy)]
pub struct Place {
    pub attacker: Side,
    pub last: Option<Square>,
    pub number: usize,
}

fn is_skipped(line: &str) -> bool
    ensures { result ≡ is_skipped line.now }
{
    line.is_empty() || begins(line, "#") || begins(line, "*") || begins(line, "&")
}

fn has_ending(line: &str) -> bool
    ensures { result ≡ has_ending (behind_number (chars line.now)) }
{
    match behind_number(line) {
        Some(word) => is_ending(word),
        None => false,
    }
}

fn is_end(line: &str) -> bool
    ensures { result ≡ is_end line.now }
{
    if begins(line, "まで") {
        return true;
    }
    if begins(line, "変化：") {
        return true;
    }
    has_ending(line)
}

/// The square that a move goes to.
pub fn goal(by: Move) -> Square
    ensures { result.number ≡ goal by }
{
    match by {
        Move::Board { to, .. } => to,
        Move::Drop { to, .. } => to,
    }
}

fn has_name(position: &Position, by: Move, name: Piece) -> bool
    ensures { IsTrue result ↔ HasName position.now by name }
{
    match by {
        Move::Board { from, .. } => is_named(position, from, name),
        Move::Drop { .. } => true,
    }
}

fn is_named(position: &Position, from: Square, name: Piece) -> bool
    ensures { IsTrue result ↔ IsSomeAnd (piece_at position.now.cells from.number) (λ piece.
        (piece.kind ≡ name.kind) × (piece.promoted ≡ name.promoted)) }
{
    match position.piece_at(from) {
        Some(piece) => piece.kind == name.kind && piece.promoted == name.promoted,
        None => false,
    }
}

fn is_legal(position: &Position, by: Move) -> bool
    requires { IsQuiet position.now }
    ensures { IsTrue result ↔ IsLegal position.now by }
{
    legal(position, by).is_ok()
}

fn moves_attacker(attacker: Side, position: &Position) -> bool
    ensures { IsTrue result ↔ (position.now.side ≡ attacker) }
{
    position.side() == attacker
}

fn gives_check(attacker: Side, position: &Position, by: Move) -> bool
    requires quiet { IsQuiet position.now }
    requires legal { IsLegal position.now by }
    ensures { IsTrue result ↔ IsInCheck (after position.now by).cells (other attacker) }
{
    in_check(&apply(position, by), attacker.other())
}

// What the move of a line is where it names this piece.
fn judge_move(
    place: Place,
    position: &Position,
    by: Move,
    name: Piece,
) -> Result<Step, KifMovesFault>
    requires { IsQuiet position.now }
    ensures { (line : List ℕ) → Names (last_number place.last) line name by
        → IsMoveJudged place.attacker position.now (last_number place.last)
        (record { number = place.number; text = line }) result }
{
    if !is_legal(position, by) {
        return Err(KifMovesFault::IllegalMove(place.number));
    }
    if !has_name(position, by, name) {
        return Err(KifMovesFault::WrongPiece(place.number));
    }
    if !moves_attacker(place.attacker, position) {
        return Ok(Step::Played(by));
    }
    if !gives_check(place.attacker, position, by) {
        return Err(KifMovesFault::NoCheck(place.number));
    }
    Ok(Step::Played(by))
}

// What a line is on a position.
pub fn judge(place: Place, position: &Position, line: &str) -> Result<Step, KifMovesFault>
    requires { IsQuiet position.now }
    ensures { IsJudged place.attacker position.now (last_number place.last)
        (record { number = place.number; text = line.now }) result }
{
    if is_skipped(line) {
        return Ok(Step::Skipped);
    }
    if is_end(line) {
        return Ok(Step::Ended);
    }
    match named_in(place.last, line) {
        Some((by, name)) => judge_move(place, position, by, name),
        None => Err(KifMovesFault::BadMove(place.number)),
    }
}

fn named_in(last: Option<Square>, line: &str) -> Option<(Move, Piece)>
    ensures { IsWordRead (named_in (last_number last) line.now) result }
{
    spoken_of(last, behind_number(line)?)
}
