// What is wrong with a bound's text.
ghost use Rattle.std.specs.Prelude.{◌≡◌};
ghost use Rattle.bound_text.specs.declared.fault.BoundEnd.{BoundEnd};
ghost use Rattle.bound_text.specs.declared.fault.BoundEnd.TheVariants as ends;

use std::alloc::{AllocError, AllocFailed};
use std::fmt::{self, Write};

/// Why a text is no bound: its first line that is wrong, or isn't there. Only what ends with a line
/// feed is a line.
#[derive(Clone, Copy, PartialEq, Eq, Debug)]
pub struct BadBound {
    /// The line's number: 0 for the first line, from 1 on for the entries that it tells the number
    /// of, the next one for the line `end`, and one more for what stands behind it.
    pub line: u64,
}

impl fmt::Display for BadBound {
    ghost use Rattle.std.specs.Prelude.{Some};
    ghost use Rattle.bound_text.specs.FaultText.{bad_bound_text};

    ghost output = { λ fault. Some (bad_bound_text fault) };

    /// Prints the fault in words, with the number of the line: `bad bound 3`.
    fn fmt<W: Write>(&self, f: &mut fmt::Formatter<W>) -> fmt::Result {
        write!(f, "bad bound {}", self.line)
    }
}

/// Why no bound was read.
#[derive(Clone, Copy, PartialEq, Eq, Debug)]
pub enum BoundEnd {
    /// The text is none.
    Fault(BadBound),
    /// Memory was wanted and not there.
    NoMemory,
}

impl From<BadBound> for BoundEnd {
    ghost from_gives = { λ fault e. e ≡ ends.Fault fault };

    fn from(fault: BadBound) -> Self {
        BoundEnd::Fault(fault)
    }
}

impl From<AllocError> for BoundEnd {
    ghost from_gives = { λ _ e. e ≡ ends.NoMemory };

    fn from(_: AllocError) -> Self {
        BoundEnd::NoMemory
    }
}

impl<T: Drop> From<AllocFailed<T>> for BoundEnd {
    ghost from_gives = { λ _ e. e ≡ ends.NoMemory };

    fn from(_: AllocFailed<T>) -> Self {
        BoundEnd::NoMemory
    }
}
