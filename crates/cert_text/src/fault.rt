// What is wrong with a certificate's text.
ghost use Rattle.std.specs.Prelude.{◌≡◌};
ghost use Rattle.cert_text.specs.declared.fault.CertEnd.{CertEnd};
ghost use Rattle.cert_text.specs.declared.fault.CertEnd.TheVariants as ends;

use std::alloc::{AllocError, AllocFailed};
use std::fmt::{self, Write};

/// Why a text is no certificate: its first fault in reading order. Only what ends with a line feed
/// is a line; the lines behind the problem's line are numbered from 1.
#[derive(Clone, Copy, PartialEq, Eq, Debug)]
pub enum CertFault {
    /// The lines up to the problem's line are no head of a certificate.
    BadHead,
    /// The line with this number is neither `end` nor an entry of this certificate's kind.
    BadLine(u64),
    /// The line with this number is an entry whose SFEN text doesn't come behind that of the line
    /// before.
    NotRising(u64),
    /// The line `end` is the last, and the number of entries isn't the one in the first line.
    WrongCount,
    /// No line `end` comes, or bytes come behind it.
    NoEnd,
}

impl fmt::Display for CertFault {
    ghost use Rattle.std.specs.Prelude.{Some};
    ghost use Rattle.cert_text.specs.FaultText.{certificate_fault_text};

    ghost output = { λ fault. Some (certificate_fault_text fault) };

    /// Prints the fault in words, with the number of the line: `bad head`, `bad line 3`, `not
    /// rising 3`, `wrong count`, `no end`.
    fn fmt<W: Write>(&self, f: &mut fmt::Formatter<W>) -> fmt::Result {
        match self {
            CertFault::BadHead => write!(f, "bad head"),
            CertFault::BadLine(line) => write!(f, "bad line {line}"),
            CertFault::NotRising(line) => write!(f, "not rising {line}"),
            CertFault::WrongCount => write!(f, "wrong count"),
            CertFault::NoEnd => write!(f, "no end"),
        }
    }
}

/// Why no certificate was read.
#[derive(Clone, Copy, PartialEq, Eq, Debug)]
pub enum CertEnd {
    /// The text is none.
    Fault(CertFault),
    /// Memory was wanted and not there.
    NoMemory,
}

impl From<CertFault> for CertEnd {
    ghost from_gives = { λ fault e. e ≡ ends.Fault fault };

    fn from(fault: CertFault) -> Self {
        CertEnd::Fault(fault)
    }
}

impl From<AllocError> for CertEnd {
    ghost from_gives = { λ _ e. e ≡ ends.NoMemory };

    fn from(_: AllocError) -> Self {
        CertEnd::NoMemory
    }
}

impl<T: Drop> From<AllocFailed<T>> for CertEnd {
    ghost from_gives = { λ _ e. e ≡ ends.NoMemory };

    fn from(_: AllocFailed<T>) -> Self {
        CertEnd::NoMemory
    }
}
