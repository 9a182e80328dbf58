// Why nothing is extracted.
ghost use Rattle.std.specs.Prelude.{◌≡◌};
ghost use Rattle.cert_extract.specs.declared.ends.ExtractEnd.TheVariants.{NoMemory};

use std::alloc::{AllocError, AllocFailed};

/// Why no certificate is extracted.
#[derive(Clone, Copy, PartialEq, Eq, Debug)]
pub enum ExtractEnd {
    /// The walk of the note's tree meets more positions to list than asked for at most.
    TooMany,
    /// Memory was wanted and not there.
    NoMemory,
}

impl From<AllocError> for ExtractEnd {
    ghost from_gives = { λ _ end. end ≡ NoMemory };

    fn from(_error: AllocError) -> ExtractEnd {
        ExtractEnd::NoMemory
    }
}

impl<T: Drop> From<AllocFailed<T>> for ExtractEnd {
    ghost from_gives = { λ _ end. end ≡ NoMemory };

    fn from(_error: AllocFailed<T>) -> ExtractEnd {
        ExtractEnd::NoMemory
    }
}
