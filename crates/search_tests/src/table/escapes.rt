// A king who is checked by a rook, and notes of his escapes.
ghost use Rattle.std.specs.Prelude.{◌≡◌, IfOk, IfSome, IsTrue};
ghost use Rattle.shogi_rules.specs.Rules.{IsQuiet};
ghost use Rattle.notes.specs.Valid.{IsInPlay, EndsInEscape};
ghost use Rattle.notes.specs.Derivation.{position_of};

use board_core::{Hand, Kind, Move, Piece, Position, Side, Square, key};
use notes::{Note, escape_by, escape_end, escape_repeat};
use path_tags::{Path, Tag};
use shogi_rules::trial::trial_checks;
use shogi_rules::{Problem, accept_problem, apply, in_check, is_evasion, legal};
use std::alloc::{AllocError, Global};

// The king's moves out of check; by the first he takes the rook.
pub(super) fn evasions() -> [Move; 5] {
    [
        king_to(Square::on(5, 4)),
        king_to(Square::on(4, 5)),
        king_to(Square::on(6, 5)),
        king_to(Square::on(4, 6)),
        king_to(Square::on(6, 6)),
    ]
}

fn king_to(to: Square) -> Move {
    Move::Board {
        from: Square::on(5, 5),
        to,
        promote: false,
    }
}

// White's king on 5e alone against a rook, which Black has just moved to 5d.
pub(super) fn checked() -> Option<(Problem, Position)> {
    let mut cells = [None; 81];
    cells[40] = Some(Piece::plain(Kind::King, Side::White));
    cells[3] = Some(Piece::plain(Kind::Rook, Side::Black));
    let position = Position::build(&cells, Hand::empty(), Hand::empty(), Side::Black).ok()?;
    let problem = accept_problem(position).ok()?;
    let check = Move::Board {
        from: Square::on(1, 4),
        to: Square::on(5, 4),
        promote: false,
    };
    if legal(&problem.position, check).is_err() {
        return None;
    }
    let checked = apply(&problem.position, check);
    Some((problem, checked))
}

fn is_in_play(problem: &Problem, position: &Position) -> bool
    ensures play { IsTrue result → IsInPlay problem.now.position.side position.now }
    ensures quiet { IsTrue result → IsQuiet position.now }
{
    if position.king_square(problem.attacker().other()).is_none() {
        return false;
    }
    !in_check(position, position.side().other())
}

// The note that the evasion leads to a repetition.
fn repeated(alloc: Global, problem: &Problem, position: &Position, evasion: Move) -> Option<Note>
    ensures { IfSome result (λ note. position_of note ≡ position.now) }
{
    if !is_in_play(problem, position) {
        return None;
    }
    if !is_evasion(problem, position, evasion) {
        return None;
    }
    let repeat = key(&apply(position, evasion));
    escape_repeat(alloc, problem, position, evasion, repeat).ok()
}

// Whether the attacker is to move and has no check.
fn ends_in_escape(alloc: Global, problem: &Problem, position: &Position) -> Result<bool, AllocError>
    requires { IsQuiet position.now }
    ensures { IfOk result (λ ends. IsTrue ends
        → EndsInEscape problem.now.position.side position.now) }
{
    if position.side() != problem.attacker() {
        return Ok(false);
    }
    let checks = trial_checks(alloc, problem, position)?;
    if checks.len() > 0 {
        return Ok(false);
    }
    Ok(true)
}

// The note that the attacker has no check after the evasion.
fn escaped(alloc: Global, problem: &Problem, position: &Position, evasion: Move) -> Option<Note>
    ensures { IfSome result (λ note. position_of note ≡ position.now) }
{
    if !is_in_play(problem, position) {
        return None;
    }
    if !is_evasion(problem, position, evasion) {
        return None;
    }
    let next = apply(position, evasion);
    if !is_in_play(problem, &next) {
        return None;
    }
    let Ok(true) = ends_in_escape(alloc, problem, &next) else {
        return None;
    };
    let end = escape_end(alloc, problem, &next).ok()?;
    escape_by(alloc, problem, position, evasion, &end).ok()
}

// A note that is left.
#[derive(Clone, Copy, Debug)]
pub(super) enum Leaving {
    // That the evasion leads to a repetition.
    Repeat(Move),
    // That the attacker has no check after the evasion.
    Escape(Move),
}

pub(super) fn note_of(
    alloc: Global,
    problem: &Problem,
    position: &Position,
    leaving: Leaving,
) -> Option<Note>
    ensures { IfSome result (λ note. position_of note ≡ position.now) }
{
    match leaving {
        Leaving::Repeat(evasion) => repeated(alloc, problem, position, evasion),
        Leaving::Escape(evasion) => escaped(alloc, problem, position, evasion),
    }
}

// The path through the positions after the evasions.
pub(super) fn path_through(
    alloc: Global,
    problem: &Problem,
    position: &Position,
    evasions: &[Move],
) -> Result<Path, AllocError> {
    let mut path = Path::make(alloc);
    for evasion in evasions {
        if let Some(note) = repeated(alloc, problem, position, *evasion) {
            add_keys(&mut path, note.tag())?;
        }
    }
    Ok(path)
}

fn add_keys(path: &mut Path, tag: &Tag) -> Result<(), AllocError> {
    for key in tag.keys() {
        path.push(*key)?;
    }
    Ok(())
}
