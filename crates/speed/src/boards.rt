// The positions and moves that are measured.
ghost use Rattle.std.specs.Prelude.{◌≡◌};
ghost use Rattle.board_core.specs.Key.{key_of};
ghost use Rattle.shogi_rules.specs.Rules.{IsQuiet, IsLegal};

use crate::problems::problem_of;
use board_core::{Key, Move, Position, Square, key};
use shogi_rules::{Problem, legal};
use std::alloc::{AllocError, Global};

/// A legal move, and the position before it with its key.
#[derive(Drop)]
pub struct Turn {
    pub position: Position,
    pub key: Key,
    pub by: Move,
    pub ghost keyed: { key.0 ≡ key_of position },
    pub ghost quiet: { IsQuiet position },
    pub ghost legal: { IsLegal position by },
}

/// What the parts work on.
#[derive(Drop)]
pub struct Boards {
    /// The position as a game begins, with Black to move.
    pub opening: Problem,
    /// White's king, Black's pawn two squares in front of it, and a gold in Black's hand.
    pub gold_in_hand: Problem,
    /// The 30 legal moves as a game begins.
    pub turns: Vec<Turn>,
}

impl Boards {
    /// The positions and moves; none where a text is no problem's, which can't be. Errors: want of
    /// memory.
    pub fn set_up(alloc: Global) -> Result<Option<Boards>, AllocError> {
        let opening = problem_of(b"lnsgkgsnl/1r5b1/ppppppppp/9/9/9/PPPPPPPPP/1B5R1/LNSGKGSNL b -");
        let gold_in_hand = problem_of(b"4k4/9/4P4/9/9/9/9/9/9 b G");
        let (Some(opening), Some(gold_in_hand)) = (opening, gold_in_hand) else {
            return Ok(None);
        };
        let turns = turns(alloc, &opening)?;
        Ok(Some(Boards {
            opening,
            gold_in_hand,
            turns,
        }))
    }
}

// The legal moves on the board that don't promote, in the order of moves.
fn turns(alloc: Global, problem: &Problem) -> Result<Vec<Turn>, AllocError> {
    let position = &problem.position;
    let key = key(position);
    let mut turns = Vec::new(alloc);
    for from in 0..81 {
        for to in 0..81 {
            let by = Move::Board {
                from: Square { number: from },
                to: Square { number: to },
                promote: false,
            };
            if legal(position, by).is_ok() {
                turns.push(Turn {
                    position: *position,
                    key,
                    by,
                })?;
            }
        }
    }
    Ok(turns)
}
