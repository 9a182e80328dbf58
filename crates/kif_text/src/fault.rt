// What is wrong with a text.
ghost use Rattle.std.specs.Prelude.{Some};
ghost use Rattle.kif_text.specs.FaultText.{fault_text};

use board_core::BadPosition;
use sfen_text::TextFault;
use std::fmt::{self, Write};

/// Why a KIF text is no position with a king of the side that isn't to move: its first fault.
/// Lines, rows and columns count from 1.
#[derive(Clone, Copy, PartialEq, Eq, Debug)]
pub enum KifFault {
    /// The input isn't UTF-8: the place, from 0, of the first byte that belongs to no whole
    /// character.
    NotUtf8(usize),
    /// A line that begins with `上手` or `下手`: the game is a handicap game, which isn't read.
    HandicapName(usize),
    /// The row, a first, and the column, from file 9, of the first pair of characters that is no
    /// cell; column 10 where the bar behind the ninth cell is missing; row 10 and column 1 for a
    /// tenth row.
    BadCell(u8, u8),
    /// The line of a hand with an item that begins with no character of a piece.
    BadHand(usize),
    /// The line of a hand with an item whose count isn't one to eighteen.
    BadCount(usize),
    /// The line of a hand with two items of one kind.
    HandTwice(usize),
    /// Fewer than nine rows of a diagram come before the moves.
    NoDiagram,
    /// The text is well formed, and makes no position.
    BadPosition(BadPosition),
}

impl fmt::Display for KifFault {
    ghost output = { λ fault. Some (fault_text fault) };

    /// Prints the fault's kind in words, and its place: `not UTF-8 at 7`, `bad cell 3 5`, `bad
    /// count in line 15`, `no diagram`; a position's fault as `sfen_text` prints it.
    fn fmt<W: Write>(&self, f: &mut fmt::Formatter<W>) -> fmt::Result {
        match self {
            KifFault::NotUtf8(at) => write!(f, "not UTF-8 at {at}"),
            KifFault::HandicapName(line) => write!(f, "handicap name in line {line}"),
            KifFault::BadCell(row, column) => write!(f, "bad cell {row} {column}"),
            KifFault::BadHand(line) => write!(f, "bad hand at {line}"),
            KifFault::BadCount(line) => write!(f, "bad count in line {line}"),
            KifFault::HandTwice(line) => write!(f, "hand twice at {line}"),
            KifFault::NoDiagram => write!(f, "no diagram"),
            KifFault::BadPosition(bad) => write!(f, "{}", TextFault::BadPosition(*bad)),
        }
    }
}
