// What is told of one line of a collection.
ghost use Rattle.std.specs.Prelude.{◌≡◌, Some};

use app_texts::{ProblemFault, Solution};
use std::fmt::{self, Write};

/// What is wrong with a line of a collection.
#[derive(Clone, Copy, PartialEq, Eq, Debug)]
pub enum LineFault {
    /// It has more bytes than a problem may have (65,536).
    TooLong,
    /// It is no problem: its first fault.
    Problem(ProblemFault),
}

impl From<ProblemFault> for LineFault {
    ghost use Rattle.cmd_collection.specs.declared.report.LineFault.TheVariants.{Problem};

    ghost from_gives = { λ problem fault. fault ≡ Problem problem };

    fn from(fault: ProblemFault) -> LineFault {
        LineFault::Problem(fault)
    }
}

impl fmt::Display for LineFault {
    ghost use Rattle.cmd_collection.specs.FaultText.{line_fault_text};

    ghost output = { λ fault. Some (line_fault_text fault) };

    fn fmt<W: Write>(&self, f: &mut fmt::Formatter<W>) -> fmt::Result {
        match self {
            LineFault::TooLong => write!(f, "too long"),
            LineFault::Problem(fault) => write!(f, "{fault}"),
        }
    }
}

/// What is told of one line of a collection.
#[derive(Drop)]
pub enum Report {
    /// It is a problem: what was found out about it.
    Solved(Solution),
    /// It is none: why.
    Fault(LineFault),
}
