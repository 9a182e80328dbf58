// What is wrong with a problem's text.
ghost use Rattle.std.specs.Prelude.{◌≡◌, Some};

use kif_text::KifFault;
use sfen_text::TextFault;
use std::fmt::{self, Write};

/// Why an input is no problem.
#[derive(Clone, Copy, PartialEq, Eq, Debug)]
pub enum ProblemFault {
    /// It is no position: its first fault as an SFEN.
    Text(TextFault),
    /// It is no position: its first fault as a KIF diagram.
    Diagram(KifFault),
    /// The side that isn't to move is in check.
    DefenderInCheck,
}

impl From<TextFault> for ProblemFault {
    ghost use Rattle.app_texts.specs.declared.fault.ProblemFault.TheVariants.{Text};

    ghost from_gives = { λ text fault. fault ≡ Text text };

    fn from(fault: TextFault) -> ProblemFault {
        ProblemFault::Text(fault)
    }
}

impl From<KifFault> for ProblemFault {
    ghost use Rattle.app_texts.specs.declared.fault.ProblemFault.TheVariants.{Diagram};

    ghost from_gives = { λ diagram fault. fault ≡ Diagram diagram };

    fn from(fault: KifFault) -> ProblemFault {
        ProblemFault::Diagram(fault)
    }
}

impl fmt::Display for ProblemFault {
    ghost use Rattle.app_texts.specs.FaultText.{problem_fault_text};

    ghost output = { λ fault. Some (problem_fault_text fault) };

    fn fmt<W: Write>(&self, f: &mut fmt::Formatter<W>) -> fmt::Result {
        match self {
            ProblemFault::Text(fault) => write!(f, "{fault}"),
            ProblemFault::Diagram(fault) => write!(f, "{fault}"),
            ProblemFault::DefenderInCheck => write!(f, "defender in check"),
        }
    }
}
