// Texts as problems with moves.
ghost use Rattle.std.specs.Prelude.{ℕ, List, IfOk};
ghost use Rattle.board_core.specs.declared.moves.Move.{Move};
ghost use Rattle.board_core.specs.Board.{Board};
ghost use Rattle.kif_moves.specs.declared.fault.KifMovesFault.{KifMovesFault};
ghost use Rattle.kif_moves.specs.Reading.{StandsFor, HasFirstFault, IsMovesOutcome, IsReadAs, IsFaultAs};

use crate::laws::kif_moves_laws;
use crate::played::played;
use crate::{KifMovesEnd, KifMovesFault};
use board_core::Move;
use kif_text::{header_length, read_kif, without_mark};
use shogi_rules::{Problem, accept_problem};
use std::alloc::Global;

/// A problem, and moves from it: the attacker's checks and the defender's evasions in turn.
#[derive(Drop)]
pub struct KifSolution {
    /// The problem of the diagram.
    pub problem: Problem,
    /// The moves, the attacker's first; there may be none.
    pub moves: Vec<Move>,
}

fn solution_of(alloc: Global, input: &[u8]) -> Result<KifSolution, KifMovesEnd>
    ensures { IsMovesOutcome input.now result }
{
    let position = read_kif(input)?;
    // What the position keeps.
    position.laws();
    let problem = match accept_problem(position) {
        Ok(problem) => problem,
        Err(_) => return Err(KifMovesEnd::Fault(KifMovesFault::DefenderInCheck)),
    };
    let text = match str::from_utf8(input) {
        Ok(text) => without_mark(text),
        Err(_) => unreachable!(),
    };
    let moves = played(alloc, &problem, text, header_length(text) + 1)?;
    Ok(KifSolution { problem, moves })
}

/// The problem and the moves that a KIF text stands for; else its first fault ([`KifMovesFault`]):
/// those of the header first, then by line; in a line that it names no move, that the move isn't
/// legal, that another piece is named, that an attacker's move is no check. Errors: that fault, or
/// want of memory. Takes memory for the moves, and time by the length of the text.
///
/// The header is read as [`read_kif`] does. Behind the first line that begins with `手数----`,
/// lines that are empty or begin with `#`, `*` or `&` are skipped; one that begins with `まで` or
/// `変化：` ends the moves. Any other has perhaps spaces, digits, spaces, and a word, which ends
/// with the line or at a space; what follows isn't read, and which number it is doesn't count. The
/// words `詰み`, `投了` and `中断` end the moves. Else the word is a move: a full-width file and a
/// numeral, or `同` and perhaps a wide space for where the last move went; a piece, as in a diagram
/// or one of `成香`, `成桂` and `成銀`; then `打` for a drop, or perhaps `成` or `不成`, and the
/// origin as its file and row in ASCII digits in brackets.
pub fn read_kif_moves(alloc: Global, input: &[u8]) -> Result<KifSolution, KifMovesEnd>
    // The problem and the moves that the input stands for; else its first fault.
    ensures exact { IsMovesOutcome input.now result }
    // Where the input stands for a problem and moves, these are read, or memory is wanted.
    ensures read { (problem : Board) (moves : List Move) → StandsFor input.now problem moves
        → IsReadAs problem moves result }
    // Where it has a first fault, that is told, or memory is wanted.
    ensures told { (fault : KifMovesFault) → HasFirstFault input.now fault
        → IsFaultAs fault result }
{
    kif_moves_laws();
    solution_of(alloc, input)
}
