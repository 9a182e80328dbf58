// Why nothing is joined.
ghost use Rattle.std.specs.Prelude.{◌≡◌};
ghost use Rattle.cook_report.specs.declared.ends.JoinEnd.TheVariants.{NoMemory};

use std::alloc::{AllocError, AllocFailed};

/// Why certificates aren't joined.
#[derive(Clone, Copy, PartialEq, Eq, Debug)]
pub enum JoinEnd {
    /// They list more different positions than asked for at most.
    TooMany,
    /// Memory was wanted and not there.
    NoMemory,
}

impl From<AllocError> for JoinEnd {
    ghost from_gives = { λ _ end. end ≡ NoMemory };

    fn from(_error: AllocError) -> JoinEnd {
        JoinEnd::NoMemory
    }
}

impl<T: Drop> From<AllocFailed<T>> for JoinEnd {
    ghost from_gives = { λ _ end. end ≡ NoMemory };

    fn from(_error: AllocFailed<T>) -> JoinEnd {
        JoinEnd::NoMemory
    }
}
