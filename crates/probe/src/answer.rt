// Answers, and how the rules find them.
use crate::question::{Question, read_question};
use board_core::{Move, Position};
use check_moves::checks;
use evasions::answers;
use move_lists::Moves;
use sfen_text::{TextFault, read_sfen};
use shogi_rules::{Illegal, Problem, apply, in_check, legal};
use std::alloc::{AllocError, Global};

/// What a line is answered.
#[derive(Drop)]
pub enum Answer {
    /// The position that a text stands for.
    Stands(Position),
    /// The first fault of a text.
    Fault(TextFault),
    /// The move is legal, and leads here.
    After(Position),
    /// The move isn't legal.
    Refused(Illegal),
    /// The checks, or the answers to a check.
    Moves(Moves),
    /// The line is no question.
    NotAQuestion,
}

fn about_text(text: &[u8]) -> Answer {
    match read_sfen(text) {
        Ok(position) => Answer::Stands(position),
        Err(fault) => Answer::Fault(fault),
    }
}

fn about_move(problem: &Problem, by: Move) -> Answer {
    match legal(&problem.position, by) {
        Ok(()) => Answer::After(apply(&problem.position, by)),
        Err(reason) => Answer::Refused(reason),
    }
}

// The answers to a move that is a check; any other move is no question.
fn about_check(alloc: Global, problem: &Problem, by: Move) -> Result<Answer, AllocError> {
    if legal(&problem.position, by).is_err() {
        return Ok(Answer::NotAQuestion);
    }
    let after = apply(&problem.position, by);
    if !in_check(&after, after.side()) {
        return Ok(Answer::NotAQuestion);
    }
    Ok(Answer::Moves(answers(alloc, problem, &after)?))
}

/// The answer to a line, which comes without its line feed. Errors: want of memory alone.
pub fn answer_to(alloc: Global, line: &[u8]) -> Result<Answer, AllocError> {
    match read_question(line) {
        Some(Question::Text(text)) => Ok(about_text(text)),
        Some(Question::Legal { by, problem }) => Ok(about_move(&problem, by)),
        Some(Question::Checks(problem)) => {
            Ok(Answer::Moves(checks(alloc, &problem, &problem.position)?))
        }
        Some(Question::Answers { by, problem }) => about_check(alloc, &problem, by),
        None => Ok(Answer::NotAQuestion),
    }
}
