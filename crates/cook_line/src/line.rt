// Texts as lines of moves.
ghost use Rattle.std.specs.Prelude.{◌≡◌, ◌<◌, ◌∷◌, IfOk, IfErr, IfSome, IfNone, length, position};
ghost use Rattle.board_core.specs.declared.moves.Move.{Move};
ghost use Rattle.sfen_text.specs.Bytes.{is_space};
ghost use Rattle.shogi_rules.specs.Rules.{IsQuiet};
ghost use Rattle.cook_line.specs.Moves.{IsMoveOn, SaysLine, IsLineEnd, parts_of};
ghost use Rattle.cook_line.specs.Inside.{parts_in};

use crate::LineEnd;
use board_core::{Move, Position};
use shogi_rules::{Problem, apply, is_check, is_evasion};
use std::alloc::Global;
use usi_text::{move_laws, read_move};

// The check or evasion whose text a part is.
fn move_on(problem: &Problem, position: &Position, part: &[u8]) -> Option<Move>
    requires { IsQuiet position.now }
    ensures found { IfSome result
        (IsMoveOn problem.now.position.side position.now part.now) }
    ensures none { IfNone result ((by : Move)
        → ¬ IsMoveOn problem.now.position.side position.now part.now by) }
{
    // No other move has this text.
    move_laws();
    let by = read_move(part)?;
    if is_check(problem, position, by) {
        return Some(by);
    }
    if is_evasion(problem, position, by) {
        return Some(by);
    }
    None
}

fn first_space(text: &[u8]) -> Option<usize>
    ensures { result ≡ position is_space text.now }
{
    text.iter().position(|byte| *byte == b' ')
}

// The first part of a text, and what stands behind the space that ends it, where one does.
fn cut(text: &[u8]) -> (&[u8], Option<&[u8]>)
    ensures parts { parts_of text.now ≡ result.0.now ∷ parts_in result.1 }
    ensures shorter { IfSome result.1 (λ behind. length behind.now < length text.now) }
{
    match first_space(text) {
        Some(at) => (&text[..at], Some(&text[at + 1..])),
        None => (text, None),
    }
}

/// The line of moves from the problem that a text says: the attacker's checks and the defender's
/// evasions in turn, by their texts (USI protocol: moves), with a single space between two. Errors:
/// the first part that is none, or want of memory. The text without a byte has one part, which is
/// none.
pub fn read_line(alloc: Global, problem: &Problem, text: &[u8]) -> Result<Vec<Move>, LineEnd>
    ensures line { IfOk result (λ moves. SaysLine problem.now.position text.now moves.items) }
    ensures end { IfErr result (IsLineEnd problem.now.position text.now) }
{
    let mut position = problem.position;
    let mut moves = Vec::new(alloc);
    let mut rest = Some(text);
    while let Some(left) = rest {
        let (part, behind) = cut(left);
        let Some(by) = move_on(problem, &position, part) else {
            return Err(LineEnd::BadMove(moves.len() + 1));
        };
        moves.push(by)?;
        position = apply(&position, by);
        rest = behind;
    }
    Ok(moves)
}
