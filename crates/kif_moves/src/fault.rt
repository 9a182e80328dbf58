// What is wrong with a text, and why nothing was read.
ghost use Rattle.std.specs.Prelude.{◌≡◌};
ghost use Rattle.kif_moves.specs.declared.fault.KifMovesEnd.TheVariants as ends;
ghost use Rattle.kif_moves.specs.declared.fault.KifMovesFault.TheVariants as faults;

use kif_text::KifFault;
use std::alloc::{AllocError, AllocFailed};
use std::fmt::{self, Write};

/// Why a KIF text is no problem with moves: its first fault. Lines count from 1.
#[derive(Clone, Copy, PartialEq, Eq, Debug)]
pub enum KifMovesFault {
    /// The header spells no position: see [`KifFault`].
    Diagram(KifFault),
    /// The side that isn't to move is in check.
    DefenderInCheck,
    /// The line names no move; or it names the last move's goal by `同`, and none was made.
    BadMove(usize),
    /// The line's move isn't legal where it is made.
    IllegalMove(usize),
    /// The piece that the line's move moves is another one than the line says.
    WrongPiece(usize),
    /// The line's move is the attacker's, and gives no check.
    NoCheck(usize),
}

impl fmt::Display for KifMovesFault {
    ghost use Rattle.std.specs.Prelude.{Some};
    ghost use Rattle.kif_moves.specs.FaultText.{moves_fault_text};

    ghost output = { λ fault. Some (moves_fault_text fault) };

    /// Prints the fault's kind in words, and its line: `bad move in line 17`; a fault of the header
    /// as [`KifFault`] prints.
    fn fmt<W: Write>(&self, f: &mut fmt::Formatter<W>) -> fmt::Result {
        match self {
            KifMovesFault::Diagram(fault) => write!(f, "{fault}"),
            KifMovesFault::DefenderInCheck => write!(f, "defender in check"),
            KifMovesFault::BadMove(line) => write!(f, "bad move in line {line}"),
            KifMovesFault::IllegalMove(line) => write!(f, "illegal move in line {line}"),
            KifMovesFault::WrongPiece(line) => write!(f, "wrong piece in line {line}"),
            KifMovesFault::NoCheck(line) => write!(f, "no check in line {line}"),
        }
    }
}

/// Why nothing was read.
#[derive(Clone, Copy, PartialEq, Eq, Debug)]
pub enum KifMovesEnd {
    /// The text has a fault.
    Fault(KifMovesFault),
    /// Memory was wanted and not there.
    NoMemory,
}

impl From<KifMovesFault> for KifMovesEnd {
    ghost from_gives = { λ fault e. e ≡ ends.Fault fault };

    fn from(fault: KifMovesFault) -> Self {
        KifMovesEnd::Fault(fault)
    }
}

impl From<KifFault> for KifMovesEnd {
    ghost from_gives = { λ fault e. e ≡ ends.Fault (faults.Diagram fault) };

    fn from(fault: KifFault) -> Self {
        KifMovesEnd::Fault(KifMovesFault::Diagram(fault))
    }
}

impl From<AllocError> for KifMovesEnd {
    ghost from_gives = { λ _ e. e ≡ ends.NoMemory };

    fn from(_: AllocError) -> Self {
        KifMovesEnd::NoMemory
    }
}

impl<T: Drop> From<AllocFailed<T>> for KifMovesEnd {
    ghost from_gives = { λ _ e. e ≡ ends.NoMemory };

    fn from(_: AllocFailed<T>) -> Self {
        KifMovesEnd::NoMemory
    }
}
