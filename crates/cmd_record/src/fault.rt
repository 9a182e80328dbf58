// What is wrong with a text whose record is asked for.
use cert_text::CertFault;
use explanations::Trouble;
use run_telling::Explained;
use std::alloc::{AllocError, Global};
use std::fmt::{self, Write};

/// Why a text has no record.
#[derive(Clone, Copy, PartialEq, Eq, Debug)]
pub enum RecordFault {
    /// It is no certificate's text: its first fault as one.
    Certificate(CertFault),
    /// It is the text of an escape's certificate, which has no line of moves.
    NotAMate,
}

impl fmt::Display for RecordFault {
    ghost use Rattle.std.specs.Prelude.{Some};
    ghost use Rattle.cmd_record.specs.Text.{fault_text};

    ghost output = { λ fault. Some (fault_text fault) };

    /// Prints a certificate's fault as `check` does, or `not a mate`.
    fn fmt<W: Write>(&self, f: &mut fmt::Formatter<W>) -> fmt::Result {
        match self {
            RecordFault::Certificate(fault) => write!(f, "{fault}"),
            RecordFault::NotAMate => write!(f, "not a mate"),
        }
    }
}

impl Explained for RecordFault {
    ghost use Rattle.explanations.specs.Shown.{IsPlain};
    ghost use Rattle.cmd_record.specs.Text.{fault_text};

    ghost text_of = { fault_text };

    ghost MayFollow = { λ fault explanation. IsPlain explanation };

    fn line(&self, alloc: Global) -> Result<String, AllocError> {
        format!(in alloc; "{self}")
    }

    fn trouble(&self) -> Option<Trouble> {
        match self {
            RecordFault::Certificate(fault) => Some(Trouble::Certificate(*fault)),
            RecordFault::NotAMate => None,
        }
    }
}
