// What is wrong with a library's text.
ghost use Rattle.std.specs.Prelude.{◌≡◌};
ghost use Rattle.library_text.specs.declared.fault.LibraryEnd.{LibraryEnd};
ghost use Rattle.library_text.specs.declared.fault.LibraryEnd.TheVariants as ends;

use cert_text::CertFault;
use std::alloc::{AllocError, AllocFailed};
use std::fmt::{self, Write};

/// Why a text is no library: its first fault in reading order.
#[derive(Clone, Copy, PartialEq, Eq, Debug)]
pub struct LibraryFault {
    /// 0 for the first line, which tells the number of certificates; from 1 on for the certificate
    /// of this number; one more than there are certificates for the line `end library`.
    pub number: u64,
    /// What is wrong there. The first line has a bad head alone. A certificate has the faults of
    /// its own text, up to its line `end`: whatever comes behind is none of them, and a front line
    /// is a bad head. Where the line `end library` doesn't come, or something comes behind it,
    /// there is no end.
    pub fault: CertFault,
}

impl fmt::Display for LibraryFault {
    ghost use Rattle.std.specs.Prelude.{Some};
    ghost use Rattle.library_text.specs.FaultText.{library_fault_text};

    ghost output = { λ fault. Some (library_fault_text fault) };

    /// Prints the fault in words: `library 0: bad head`, `library 2: bad line 1`.
    fn fmt<W: Write>(&self, f: &mut fmt::Formatter<W>) -> fmt::Result {
        write!(f, "library {}: {}", self.number, self.fault)
    }
}

/// Why no library was read.
#[derive(Clone, Copy, PartialEq, Eq, Debug)]
pub enum LibraryEnd {
    /// The text is none.
    Fault(LibraryFault),
    /// Memory was wanted and not there.
    NoMemory,
}

impl From<AllocError> for LibraryEnd {
    ghost from_gives = { λ _ e. e ≡ ends.NoMemory };

    fn from(_: AllocError) -> Self {
        LibraryEnd::NoMemory
    }
}

impl<T: Drop> From<AllocFailed<T>> for LibraryEnd {
    ghost from_gives = { λ _ e. e ≡ ends.NoMemory };

    fn from(_: AllocFailed<T>) -> Self {
        LibraryEnd::NoMemory
    }
}
