// What explains a fault of a text.
use app_texts::ProblemFault;
use cert_text::CertFault;
use explanations::Trouble;
use kif_moves::KifMovesFault;
use shortest_text::ShortestFault;
use std::alloc::{AllocError, Global};

/// What may be wrong with a command's text: its line for the user, and what explains it.
pub trait Explained {
    ghost use Rattle.std.specs.Prelude.{◌≡◌, ℕ, List, [], IfOk, MatchOption, string_bytes};
    ghost use Rattle.explanations.specs.Shown.{IsHarmless};

    /// It in words.
    ghost text_of: { Self → List ℕ };

    /// What may stand behind its line, for a reader.
    ghost MayFollow: { Self → List ℕ → Type 0 };

    /// It in words, with no line feed at the end. Errors: want of memory alone.
    fn line(&self, alloc: Global) -> Result<String, AllocError>
        ensures { IfOk result (λ line. string_bytes line ≡ text_of self.now) };

    /// What explains it, if anything does.
    fn trouble(&self) -> Option<Trouble>
        ensures harmless { MatchOption result (MayFollow self.now [])
            (λ trouble. (explanation : List ℕ) → IsHarmless trouble explanation
            → MayFollow self.now explanation) }
        // Nothing may always follow.
        ensures nothing { MayFollow self.now [] };
}

impl Explained for ProblemFault {
    ghost use Rattle.app_texts.specs.FaultText.{problem_fault_text};
    ghost use Rattle.run_telling.specs.Telling.{MayFollowProblem};

    ghost text_of = { problem_fault_text };

    ghost MayFollow = { MayFollowProblem };

    fn line(&self, alloc: Global) -> Result<String, AllocError> {
        format!(in alloc; "{self}")
    }

    fn trouble(&self) -> Option<Trouble> {
        match self {
            ProblemFault::Text(fault) => Some(Trouble::Problem(*fault)),
            ProblemFault::Diagram(fault) => Some(Trouble::Diagram(*fault)),
            ProblemFault::DefenderInCheck => Some(Trouble::DefenderInCheck),
        }
    }
}

impl Explained for CertFault {
    ghost use Rattle.cert_text.specs.FaultText.{certificate_fault_text};
    ghost use Rattle.explanations.specs.Shown.{IsPlain};

    ghost text_of = { certificate_fault_text };

    ghost MayFollow = { λ fault explanation. IsPlain explanation };

    fn line(&self, alloc: Global) -> Result<String, AllocError> {
        format!(in alloc; "{self}")
    }

    fn trouble(&self) -> Option<Trouble> {
        Some(Trouble::Certificate(*self))
    }
}

impl Explained for ShortestFault {
    ghost use Rattle.explanations.specs.Shown.{IsPlain};
    ghost use Rattle.shortest_text.specs.FaultText.{shortest_fault_text};

    ghost text_of = { shortest_fault_text };

    ghost MayFollow = { λ fault explanation. IsPlain explanation };

    fn line(&self, alloc: Global) -> Result<String, AllocError> {
        format!(in alloc; "{self}")
    }

    // The lines before the certificate aren't those that its explanations count.
    fn trouble(&self) -> Option<Trouble> {
        None
    }
}

impl Explained for KifMovesFault {
    ghost use Rattle.kif_moves.specs.FaultText.{moves_fault_text};
    ghost use Rattle.run_telling.specs.Telling.{MayFollowMoves};

    ghost text_of = { moves_fault_text };

    ghost MayFollow = { MayFollowMoves };

    fn line(&self, alloc: Global) -> Result<String, AllocError> {
        format!(in alloc; "{self}")
    }

    // A line's fault names the line, and says what is wrong with its move.
    fn trouble(&self) -> Option<Trouble> {
        match self {
            KifMovesFault::Diagram(fault) => Some(Trouble::Diagram(*fault)),
            KifMovesFault::DefenderInCheck => Some(Trouble::DefenderInCheck),
            KifMovesFault::BadMove(_)
            | KifMovesFault::IllegalMove(_)
            | KifMovesFault::WrongPiece(_)
            | KifMovesFault::NoCheck(_) => None,
        }
    }
}
