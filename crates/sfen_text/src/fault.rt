// What is wrong with a text.
ghost use Rattle.std.specs.Prelude.{◌≡◌, ◌+◌, Some};
ghost use Rattle.bit_boards.specs.Square.{row_of};
ghost use Rattle.sfen_text.specs.FaultText.{fault_text};

use board_core::{BadPosition, Square};
use std::fmt::{self, Write};

/// Why a text is no position with a king of the side that isn't to move: its first fault. Places
/// are byte offsets in the whole input, from 0.
#[derive(Clone, Copy, PartialEq, Eq, Debug)]
pub enum TextFault {
    /// A piece or a run that would pass nine squares in its row, a slash before the row is full or
    /// behind the ninth row, or the end of the board before the ninth row is full.
    BadRow(usize),
    /// A byte of the board that begins no piece, run or slash; a plus without a letter that
    /// promotes.
    BadPiece(usize),
    /// The field of the side to move is neither `b` nor `w`; at the end of the text, if there is no
    /// such field.
    BadSide(usize),
    /// The start of an item of the hands that is none; the end of the text, if there is no such
    /// field.
    BadHand(usize),
    /// A letter that already came in the same hand.
    HandTwice(usize),
    /// A fourth field that is no move number of one to nine digits, or a fifth one.
    Trailing(usize),
    /// The text is well formed, and makes no position.
    BadPosition(BadPosition),
}

impl fmt::Display for TextFault {
    ghost output = { λ fault. Some (fault_text fault) };

    /// Prints the fault's kind in words, and its place, kind, square or file: `bad row at 7`, `too
    /// many P`, `dead piece at 9i`, `two pawns on file 5`.
    fn fmt<W: Write>(&self, f: &mut fmt::Formatter<W>) -> fmt::Result {
        match self {
            TextFault::BadRow(at) => write!(f, "bad row at {at}"),
            TextFault::BadPiece(at) => write!(f, "bad piece at {at}"),
            TextFault::BadSide(at) => write!(f, "bad side at {at}"),
            TextFault::BadHand(at) => write!(f, "bad hand at {at}"),
            TextFault::HandTwice(at) => write!(f, "hand twice at {at}"),
            TextFault::Trailing(at) => write!(f, "trailing at {at}"),
            TextFault::BadPosition(BadPosition::TooMany(kind)) => {
                write!(f, "too many {}", char::from(kind.letter()))
            }
            TextFault::BadPosition(BadPosition::NoDefenderKing) => write!(f, "no defender king"),
            TextFault::BadPosition(BadPosition::TwoKings) => write!(f, "two kings"),
            TextFault::BadPosition(BadPosition::DeadPiece(square)) => write!(
                f,
                "dead piece at {}{}",
                square.file(),
                row_letter(*square)
            ),
            TextFault::BadPosition(BadPosition::TwoPawns(file)) => {
                write!(f, "two pawns on file {file}")
            }
        }
    }
}

fn row_letter(square: Square) -> char
    ensures { result ≡ 96 + row_of square.number }
{
    char::from(b'a' - 1 + square.row())
}
