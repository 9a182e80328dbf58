// What is wrong with the text of a problem with a library behind it.

use app_texts::ProblemFault;
use explanations::Trouble;
use library_text::LibraryFault;
use run_telling::Explained;
use std::alloc::{AllocError, Global};
use std::fmt::{self, Write};

/// Why an input is no problem with a library behind it: its first fault.
#[derive(Clone, Copy, PartialEq, Eq, Debug)]
pub enum LibraryTextFault {
    /// The first line stands for no problem.
    Problem(ProblemFault),
    /// What stands behind it is no library.
    Library(LibraryFault),
}

impl fmt::Display for LibraryTextFault {
    ghost use Rattle.std.specs.Prelude.{Some};
    ghost use Rattle.cmd_library.specs.FaultText.{library_fault_text};

    ghost output = { λ fault. Some (library_fault_text fault) };

    /// Prints the problem's fault as it prints by itself, or the library's.
    fn fmt<W: Write>(&self, f: &mut fmt::Formatter<W>) -> fmt::Result {
        match self {
            LibraryTextFault::Problem(fault) => write!(f, "{fault}"),
            LibraryTextFault::Library(fault) => write!(f, "{fault}"),
        }
    }
}

impl Explained for LibraryTextFault {
    ghost use Rattle.cmd_library.specs.FaultText.{MayFollowLibrary, library_fault_text};

    ghost text_of = { library_fault_text };

    ghost MayFollow = { MayFollowLibrary };

    fn line(&self, alloc: Global) -> Result<String, AllocError> {
        format!(in alloc; "{self}")
    }

    // Explanations look at a text as a whole, of which the problem is one line.
    fn trouble(&self) -> Option<Trouble> {
        None
    }
}
