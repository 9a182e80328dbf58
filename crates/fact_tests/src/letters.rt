// Problems and moves by their letters. A text that makes no sense ends the test.
ghost use Rattle.shogi_rules.specs.Rules.{IsQuiet};

use board_core::{Move, Position};
use sfen_text::read_sfen;
use shogi_rules::{Problem, accept_problem, apply, in_check, legal};
use std::process::Abort;
use usi_text::read_move;

/// The problem of an SFEN.
pub fn problem(rt: &impl Abort, text: &str) -> Problem {
    match read_sfen(text.as_bytes()) {
        Ok(position) => match accept_problem(position) {
            Ok(problem) => problem,
            Err(_) => panic!(rt; "in check: {text}"),
        },
        Err(fault) => panic!(rt; "{fault:?}: {text}"),
    }
}

/// The move of a text as USI writes it.
pub fn by(rt: &impl Abort, text: &str) -> Move {
    read_move(text.as_bytes()).expect(rt, text)
}

/// The position after a legal move.
pub fn moved(rt: &impl Abort, position: &Position, by: Move) -> Position
    ensures { IsQuiet result }
{
    if in_check(position, position.side().other()) {
        panic!(rt; "not quiet before {by:?}");
    }
    match legal(position, by) {
        Ok(()) => apply(position, by),
        Err(why) => panic!(rt; "{why:?}: {by:?}"),
    }
}
