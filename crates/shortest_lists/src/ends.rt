// Why nothing is listed.
ghost use Rattle.std.specs.Prelude.{◌≡◌};
ghost use Rattle.shortest_lists.specs.declared.ends.ListEnd.TheVariants.{NoMemory};

use std::alloc::{AllocError, AllocFailed};

/// Why nothing is listed.
#[derive(Clone, Copy, PartialEq, Eq, Debug)]
pub enum ListEnd {
    /// The facts lead to more positions than asked for at most.
    TooMany,
    /// Memory was wanted and not there.
    NoMemory,
}

impl From<AllocError> for ListEnd {
    ghost from_gives = { λ _ end. end ≡ NoMemory };

    fn from(_error: AllocError) -> ListEnd {
        ListEnd::NoMemory
    }
}

impl<T: Drop> From<AllocFailed<T>> for ListEnd {
    ghost from_gives = { λ _ end. end ≡ NoMemory };

    fn from(_error: AllocFailed<T>) -> ListEnd {
        ListEnd::NoMemory
    }
}
