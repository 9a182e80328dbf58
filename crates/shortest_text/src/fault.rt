// What is wrong with a text about the shortest mate.
ghost use Rattle.std.specs.Prelude.{◌≡◌};
ghost use Rattle.cert_text.specs.declared.fault.CertEnd.{CertEnd};
ghost use Rattle.bound_text.specs.declared.fault.BoundEnd.{BoundEnd};
ghost use Rattle.shortest_text.specs.declared.fault.ShortestEnd.{ShortestEnd};
ghost use Rattle.shortest_text.specs.declared.fault.ShortestEnd.TheVariants as ends;
ghost use Rattle.shortest_text.specs.Ends.{end_of_certificate, end_of_bound};

use bound_text::{BadBound, BoundEnd};
use cert_text::{CertEnd, CertFault};
use std::alloc::AllocError;
use std::fmt::{self, Write};

/// Why a text says nothing of the shortest mate of a problem: its first fault. A fault of the
/// certificate, or of the lines before it, comes before one of the bound.
#[derive(Clone, Copy, PartialEq, Eq, Debug)]
pub enum ShortestFault {
    /// The certificate's fault: see [`CertFault`]. That something comes behind its line `end` is
    /// none. `BadHead` is also the fault of a certificate of version 2, and of the lines that
    /// aren't the certificate's: `checkmate`, `shortest`, `none within` and the problem's line
    /// behind that one.
    Certificate(CertFault),
    /// The bound's first line that is wrong, where all before the bound is right.
    Bound(BadBound),
}

impl fmt::Display for ShortestFault {
    ghost use Rattle.std.specs.Prelude.{Some};
    ghost use Rattle.shortest_text.specs.FaultText.{shortest_fault_text};

    ghost output = { λ fault. Some (shortest_fault_text fault) };

    /// Prints the fault as the certificate's or the bound's prints: `bad head`, `bad bound 3`.
    fn fmt<W: Write>(&self, f: &mut fmt::Formatter<W>) -> fmt::Result {
        match self {
            ShortestFault::Certificate(fault) => write!(f, "{fault}"),
            ShortestFault::Bound(fault) => write!(f, "{fault}"),
        }
    }
}

/// Why nothing was read.
#[derive(Clone, Copy, PartialEq, Eq, Debug)]
pub enum ShortestEnd {
    /// The text has a fault.
    Fault(ShortestFault),
    /// Memory was wanted and not there.
    NoMemory,
}

impl From<CertEnd> for ShortestEnd {
    ghost from_gives = { λ end e. e ≡ end_of_certificate end };

    fn from(end: CertEnd) -> Self {
        match end {
            CertEnd::Fault(fault) => ShortestEnd::Fault(ShortestFault::Certificate(fault)),
            CertEnd::NoMemory => ShortestEnd::NoMemory,
        }
    }
}

impl From<BoundEnd> for ShortestEnd {
    ghost from_gives = { λ end e. e ≡ end_of_bound end };

    fn from(end: BoundEnd) -> Self {
        match end {
            BoundEnd::Fault(fault) => ShortestEnd::Fault(ShortestFault::Bound(fault)),
            BoundEnd::NoMemory => ShortestEnd::NoMemory,
        }
    }
}

impl From<AllocError> for ShortestEnd {
    ghost from_gives = { λ _ e. e ≡ ends.NoMemory };

    fn from(_: AllocError) -> Self {
        ShortestEnd::NoMemory
    }
}
