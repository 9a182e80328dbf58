// What is wrong with a problem's text, or with the line from it.
use app_texts::ProblemFault;
use explanations::Trouble;
use run_telling::Explained;
use std::alloc::{AllocError, Global};
use std::fmt::{self, Write};

/// Why a problem isn't reported on.
#[derive(Clone, Copy, PartialEq, Eq, Debug)]
pub enum CookFault {
    /// The input is no problem: its first fault.
    Problem(ProblemFault),
    /// The move with this number, from 1, of the line that the words give is the first that is none
    /// of a line from the problem.
    Line(usize),
}

impl From<ProblemFault> for CookFault {
    ghost use Rattle.std.specs.Prelude.{◌≡◌};
    ghost use Rattle.cmd_cook.specs.declared.fault.CookFault.TheVariants.{Problem};

    ghost from_gives = { λ problem fault. fault ≡ Problem problem };

    fn from(fault: ProblemFault) -> CookFault {
        CookFault::Problem(fault)
    }
}

impl fmt::Display for CookFault {
    ghost use Rattle.std.specs.Prelude.{Some};
    ghost use Rattle.cmd_cook.specs.FaultText.{cook_fault_text};

    ghost output = { λ fault. Some (cook_fault_text fault) };

    /// Prints a problem's fault as `solve` does, or the move's number.
    fn fmt<W: Write>(&self, f: &mut fmt::Formatter<W>) -> fmt::Result {
        match self {
            CookFault::Problem(fault) => write!(f, "{fault}"),
            CookFault::Line(number) => write!(f, "bad move {number} in line"),
        }
    }
}

impl Explained for CookFault {
    ghost use Rattle.cmd_cook.specs.FaultText.{MayFollowCook, cook_fault_text};

    ghost text_of = { cook_fault_text };

    ghost MayFollow = { MayFollowCook };

    fn line(&self, alloc: Global) -> Result<String, AllocError> {
        format!(in alloc; "{self}")
    }

    fn trouble(&self) -> Option<Trouble> {
        match self {
            CookFault::Problem(fault) => fault.trouble(),
            CookFault::Line(_) => None,
        }
    }
}
