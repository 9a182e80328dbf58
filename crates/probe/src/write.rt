// Answers as lines.
ghost use Rattle.std.specs.Prelude.{◌≡◌, IfSome, IsSome};
ghost use Rattle.board_core.specs.Text.{HasText};
ghost use Rattle.usi_text.specs.MoveText.{move_text};

use crate::answer::Answer;
use board_core::{Kind, Move, Position};
use sfen_text::write_sfen;
use std::alloc::Global;
use std::io::{self, Write};
use usi_text::{MoveText, write_move};

/// The error that says that memory was wanted and not there.
pub fn no_memory() -> io::Error {
    io::Error::from(io::ErrorKind::OutOfMemory)
}

// The text of a move; none for a move that has no text, as no legal move is.
fn text_of(by: Move) -> Option<MoveText>
    ensures text { IfSome result (λ text. text ≡ move_text by) }
    ensures some { HasText by → IsSome result }
{
    match by {
        Move::Board { from, to, .. } if from.number == to.number => None,
        Move::Drop {
            kind: Kind::King,
            ..
        } => None,
        _ => Some(write_move(by)),
    }
}

fn write_position<W: Write>(alloc: Global, output: &mut W, position: &Position) -> io::Result<()> {
    match write_sfen(alloc, position) {
        Ok(text) => output.write_all(text.as_slice()),
        Err(_) => Err(no_memory()),
    }
}

fn write_moves<W: Write>(output: &mut W, moves: &[Move]) -> io::Result<()> {
    if moves.is_empty() {
        return output.write_all(b"none");
    }
    let mut space: &[u8] = b"";
    for by in moves {
        let Some(text) = text_of(*by) else {
            return Err(io::Error::from(io::ErrorKind::InvalidData));
        };
        output.write_all(space)?;
        output.write_all(text.as_bytes())?;
        space = b" ";
    }
    Ok(())
}

/// Writes an answer, without a line feed. Errors: want of memory, or the writer's own.
pub fn write_answer<W: Write>(alloc: Global, output: &mut W, answer: &Answer) -> io::Result<()> {
    match answer {
        Answer::Stands(position) => write_position(alloc, output, position),
        Answer::Fault(fault) => write!(output, "{fault}"),
        Answer::After(position) => {
            output.write_all(b"ok ")?;
            write_position(alloc, output, position)
        }
        Answer::Refused(reason) => write!(output, "{reason:?}"),
        Answer::Moves(moves) => write_moves(output, moves.as_slice()),
        Answer::NotAQuestion => output.write_all(b"not a question"),
    }
}
