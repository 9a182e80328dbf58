// Why a text says no line.
ghost use Rattle.std.specs.Prelude.{◌≡◌};
ghost use Rattle.cook_line.specs.declared.ends.LineEnd.TheVariants.{NoMemory};

use std::alloc::{AllocError, AllocFailed};

/// Why a text says no line of moves from a problem.
#[derive(Clone, Copy, PartialEq, Eq, Debug)]
pub enum LineEnd {
    /// The part with this number, from 1, is the first that is no text of a check or an evasion on
    /// the position where it stands.
    BadMove(usize),
    /// Memory was wanted and not there.
    NoMemory,
}

impl From<AllocError> for LineEnd {
    ghost from_gives = { λ _ end. end ≡ NoMemory };

    fn from(_error: AllocError) -> LineEnd {
        LineEnd::NoMemory
    }
}

impl<T: Drop> From<AllocFailed<T>> for LineEnd {
    ghost from_gives = { λ _ end. end ≡ NoMemory };

    fn from(_error: AllocFailed<T>) -> LineEnd {
        LineEnd::NoMemory
    }
}
