// Problems by their lines.
ghost use Rattle.std.specs.Prelude.{◌≡◌, ◌++◌, IfOk, IfSome, IfNone, codes};
ghost use Rattle.board_core.specs.Board.{Board};
ghost use Rattle.board_core.specs.Kept.{IsKept};
ghost use Rattle.shogi_rules.specs.Tsume.{IsProblem};
ghost use Rattle.sfen_text.specs.Spelling.{sfen_of};

use cert_text::behind;
use sfen_text::{read_sfen, write_sfen};
use shogi_rules::{Problem, accept_problem};
use std::alloc::{AllocError, Global};

// The problem whose text it is, spelled as it is written.
fn problem_of_text(alloc: Global, text: &[u8]) -> Result<Option<Problem>, AllocError>
    ensures found { IfOk result (λ found. IfSome found (λ problem. text.now
        ≡ sfen_of problem.position)) }
    ensures kept { IfOk result (λ found. IfSome found (λ problem. IsKept problem.position)) }
    ensures none { IfOk result (λ found. IfNone found ((p : Board) → IsKept p → IsProblem p
        → text.now ≡ sfen_of p → ⊥)) }
{
    let Ok(position) = read_sfen(text) else {
        return Ok(None);
    };
    // What the position keeps, so that it is the only one with this text.
    position.laws();
    let spelled = write_sfen(alloc, &position)?;
    if spelled.as_slice() != text {
        return Ok(None);
    }
    match accept_problem(position) {
        Ok(problem) => Ok(Some(problem)),
        Err(_) => Ok(None),
    }
}

// The problem in a line.
pub(crate) fn problem_of_line(alloc: Global, text: &[u8]) -> Result<Option<Problem>, AllocError>
    ensures found { IfOk result (λ found. IfSome found (λ problem. text.now
        ≡ codes "problem " ++ sfen_of problem.position)) }
    ensures kept { IfOk result (λ found. IfSome found (λ problem. IsKept problem.position)) }
    ensures none { IfOk result (λ found. IfNone found ((p : Board) → IsKept p → IsProblem p
        → text.now ≡ codes "problem " ++ sfen_of p → ⊥)) }
{
    let Some(sfen) = behind(text, b"problem ") else {
        return Ok(None);
    };
    problem_of_text(alloc, sfen)
}
