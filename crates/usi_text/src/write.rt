// Moves as texts.
ghost use Rattle.std.specs.Prelude.{◌≡◌, ◌≢◌, ◌≤◌, ◌+◌, List, ℕ, [], ◌∷◌, length};
ghost use Rattle.bit_boards.specs.Square.{file_of, row_of};
ghost use Rattle.board_core.specs.declared.moves.Move.{Move};
ghost use Rattle.usi_text.specs.MoveText.{move_text};

use board_core::{Move, Square, value_laws};
use std::fmt::{self, Write};
use std::marker::Model;

/// The text of a move, four or five bytes of ASCII (USI protocol: moves). A plain value of fixed
/// size; contracts see the list of the bytes.
#[derive(Clone, Copy)]
pub struct MoveText {
    bytes: [u8; 5],
    long: bool,
}

impl Model for MoveText {
    ghost use Rattle.std.specs.Prelude.{ℕ, List, length, nat_lt};
    ghost use Rattle.usi_text.specs.Padded.{IsPadded, in_use, padded_bytes, padded_again, long_again};

    ghost Value = { List ℕ };

    ghost view = { λ t. in_use t.bytes t.long };

    ghost invariant = { λ t. IsPadded t.bytes t.long };

    ghost inverse = { λ xs. record { bytes = padded_bytes xs; long = nat_lt 4 (length xs) } };

    ghost inverse_ok = { λ t h i. record {
      bytes = padded_again t.bytes t.long h i;
      long = long_again t.bytes t.long h i;
    } };
}

impl MoveText {
    /// The four or five bytes.
    pub fn as_bytes(&self) -> &[u8]
        ensures bytes { result.now ≡ self.now }
        ensures short { length self.now ≤ 5 }
    {
        if self.long {
            &self.bytes
        } else {
            &self.bytes[..4]
        }
    }
}

impl fmt::Display for MoveText {
    fn fmt<W: Write>(&self, f: &mut fmt::Formatter<W>) -> fmt::Result {
        for byte in self.as_bytes() {
            f.write_char(char::from(*byte))?;
        }
        Ok(())
    }
}

fn file_digit(square: Square) -> u8
    ensures { result ≡ 48 + file_of square.number }
{
    b'0' + square.file()
}

fn row_letter(square: Square) -> u8
    ensures { result ≡ 96 + row_of square.number }
{
    b'a' - 1 + square.row()
}

fn text_of(m: Move) -> MoveText
    ensures { result ≡ move_text m }
{
    match m {
        Move::Board { from, to, promote } => MoveText {
            bytes: [
                file_digit(from),
                row_letter(from),
                file_digit(to),
                row_letter(to),
                if promote { b'+' } else { 0 },
            ],
            long: promote,
        },
        Move::Drop { kind, to } => MoveText {
            bytes: [kind.letter(), b'*', file_digit(to), row_letter(to), 0],
            long: false,
        },
    }
}

/// The text of a move: origin and destination, each as the digit of its file and the letter of its
/// row, and a plus where it promotes, as `8h2b+`; or the letter of the dropped kind, a star and the
/// square, as `G*5b` (USI protocol: moves).
///
/// No other move has the same text. A board move to where it began and a drop of a king have no
/// text in the protocol: what is written for one is read as no move. Takes no memory.
pub fn write_move(m: Move) -> MoveText
    ensures text { result ≡ move_text m }
    ensures apart { (other : Move) → move_text other ≡ result → other ≡ m }
{
    // No two squares have one number, and no two kinds one letter.
    value_laws();
    text_of(m)
}
