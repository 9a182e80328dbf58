// Questions, and the lines that ask them.
use board_core::Move;
use sfen_text::read_sfen;
use shogi_rules::{Problem, accept_problem};
use usi_text::read_move;

/// What a line asks.
pub enum Question<'a> {
    /// What position does the text stand for?
    Text(&'a [u8]),
    /// May the move be made?
    Legal {
        /// The move.
        by: Move,
        /// Where it is made.
        problem: Problem,
    },
    /// Which moves are checks?
    Checks(Problem),
    /// Which moves answer the check?
    Answers {
        /// The check.
        by: Move,
        /// Where it is given.
        problem: Problem,
    },
}

// The bytes before the first space, and those behind it; none where there is no space.
fn split_at_space(text: &[u8]) -> Option<(&[u8], &[u8])> {
    let at = text.iter().position(|byte| *byte == b' ')?;
    Some((&text[..at], &text[at + 1..]))
}

// The position of an SFEN text as a problem of the side to move; none where the text stands for no
// position, or the side not to move is in check.
fn read_problem(text: &[u8]) -> Option<Problem> {
    let position = read_sfen(text).ok()?;
    accept_problem(position).ok()
}

// A move, a space, and the SFEN text of where it is made.
fn read_move_and_problem(text: &[u8]) -> Option<(Move, Problem)> {
    let (first, rest) = split_at_space(text)?;
    let by = read_move(first)?;
    let problem = read_problem(rest)?;
    Some((by, problem))
}

/// The question that a line, without its line feed, asks; none where it asks none.
pub fn read_question(line: &[u8]) -> Option<Question<'_>> {
    let (word, rest) = split_at_space(line)?;
    match word {
        b"sfen" => Some(Question::Text(rest)),
        b"legal" => {
            let (by, problem) = read_move_and_problem(rest)?;
            Some(Question::Legal { by, problem })
        }
        b"checks" => Some(Question::Checks(read_problem(rest)?)),
        b"answers" => {
            let (by, problem) = read_move_and_problem(rest)?;
            Some(Question::Answers { by, problem })
        }
        _ => None,
    }
}
