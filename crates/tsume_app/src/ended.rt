// How a run ended.
ghost use Rattle.std.specs.Prelude.{◌≡◌, IfOk};
ghost use Rattle.run_telling.specs.Telling.{BeginsAsTold};
ghost use Rattle.tsume_app.specs.Told.{refusal_status, refusal_telling, status_of, telling_of};

use app_texts::ProblemFault;
use explanations::Trouble;
use one_run::Written;
use run_telling::{Explained, Status, told_line, told_of, told_of_written};
use std::alloc::{AllocError, Global};
use tsume_words::WordFault;

// An ending of which the user may be told.
trait Tells {
    ghost use Rattle.std.specs.Prelude.{IfOk};
    ghost use Rattle.run_telling.specs.Telling.{BeginsAsTold, Telling};

    // What is told.
    ghost telling_of: { Self → Telling };

    // Its text. Errors: want of memory for the line.
    fn told(&self, alloc: Global) -> Result<Vec<u8>, AllocError>
        ensures { IfOk result (λ text. BeginsAsTold (telling_of self.now) text.items) };
}

impl<A, F: Explained> Tells for one_run::Ended<A, F> {
    ghost use Rattle.run_telling.specs.Telling.{ended_telling};

    ghost telling_of = { ended_telling F.text_of F.MayFollow };

    fn told(&self, alloc: Global) -> Result<Vec<u8>, AllocError> {
        told_of(alloc, self)
    }
}

impl<A> Tells for Written<A> {
    ghost use Rattle.run_telling.specs.Telling.{written_telling};

    ghost telling_of = { written_telling };

    fn told(&self, alloc: Global) -> Result<Vec<u8>, AllocError> {
        told_of_written(alloc, self)
    }
}

/// Why no command was begun. Nothing was read or written.
#[derive(Drop)]
pub enum Refusal {
    /// A word of the command line is no UTF-8. The program's run takes text alone: whoever makes
    /// the words tells this.
    NotUtf8,
    /// The words of the command line are refused.
    Words(WordFault),
    /// The text that the words give for a certificate's problem is none: its first fault.
    Asked(ProblemFault),
    /// Memory was wanted and not there.
    NoMemory,
}

/// How a run ended: as the command did that the words asked for, or before one was begun.
#[derive(Drop)]
pub enum Ended {
    /// As `solve`.
    Solve(one_run::Ended<app_texts::Solution, ProblemFault>),
    /// As `solve` where it is asked with a library.
    Library(one_run::Ended<cmd_library::LibraryAnswer, cmd_library::LibraryTextFault>),
    /// As `shortest`.
    Shortest(one_run::Ended<cmd_shortest::ShortestAnswer, ProblemFault>),
    /// As `cook`.
    Cook(one_run::Ended<cmd_cook::CookAnswer, cmd_cook::CookFault>),
    /// As `check`.
    Check(one_run::Ended<app_texts::Judgement, cert_text::CertFault>),
    /// As `check` where it is asked for a bound.
    Bound(one_run::Ended<cmd_bound::BoundJudgement, shortest_text::ShortestFault>),
    /// As `check` where it is asked of what a collection printed.
    Certificates(one_run::Ended<cmd_certificates::CollectionJudgement, cmd_certificates::NoFault>),
    /// As `survey`.
    Survey(Written<cmd_survey::Summary>),
    /// As `collection`.
    Collection(one_run::Ended<cmd_collection::Counts, cmd_collection::NoFault>),
    /// As `solution`.
    Solution(one_run::Ended<cmd_solution::SolutionVerdict, kif_moves::KifMovesFault>),
    /// As `record`.
    Record(one_run::Ended<cmd_record::RecordAnswer, cmd_record::RecordFault>),
    /// As `upgrade`.
    Upgrade(one_run::Ended<cmd_upgrade::UpgradeAnswer, cert_text::CertFault>),
    /// As `usi`.
    Usi(cmd_usi::Talked),
    /// With help, or with the version, as clap made it.
    Help(Written<String>),
    /// No command was begun.
    Refused(Refusal),
}

// Does the same with the ending, whatever command it is of, and with a refusal.
macro_rules! with_ending {
    ($ended:expr, $ending:ident => $then:expr) => {
        match $ended {
            Ended::Solve($ending) => $then,
            Ended::Library($ending) => $then,
            Ended::Shortest($ending) => $then,
            Ended::Cook($ending) => $then,
            Ended::Check($ending) => $then,
            Ended::Bound($ending) => $then,
            Ended::Certificates($ending) => $then,
            Ended::Survey($ending) => $then,
            Ended::Collection($ending) => $then,
            Ended::Solution($ending) => $then,
            Ended::Record($ending) => $then,
            Ended::Upgrade($ending) => $then,
            Ended::Usi($ending) => $then,
            Ended::Help($ending) => $then,
            Ended::Refused($ending) => $then,
        }
    };
}

impl Refusal {
    /// The exit status: 2 where the words are refused, 6 for want of memory.
    pub fn status(&self) -> u8
        ensures { result ≡ refusal_status self.now }
    {
        match self {
            Refusal::NotUtf8 | Refusal::Words(_) | Refusal::Asked(_) => 2,
            Refusal::NoMemory => 6,
        }
    }

    /// What the user is told of it. Errors: want of memory for the line.
    pub fn told(&self, alloc: Global) -> Result<Vec<u8>, AllocError>
        ensures { IfOk result (λ text. BeginsAsTold (refusal_telling self.now) text.items) }
    {
        match self {
            Refusal::NotUtf8 => told_line(alloc, "a word is not UTF-8", None, &[]),
            Refusal::Words(fault) => {
                let words = format!(in alloc; "{fault}")?;
                let told = words.as_str();
                told_line(alloc, told, Some(Trouble::Words), told.as_bytes())
            }
            Refusal::Asked(fault) => {
                let words = format!(in alloc; "{fault}")?;
                match fault {
                    ProblemFault::Text(fault) => {
                        told_line(alloc, words.as_str(), Some(Trouble::Asked(*fault)), &[])
                    }
                    ProblemFault::Diagram(_) => told_line(alloc, words.as_str(), None, &[]),
                    ProblemFault::DefenderInCheck => {
                        told_line(alloc, words.as_str(), Some(Trouble::DefenderInCheck), &[])
                    }
                }
            }
            Refusal::NoMemory => told_line(alloc, "out of memory", Some(Trouble::NoMemory), &[]),
        }
    }
}

impl Ended {
    /// The exit status: 0 for a verdict, an accepted certificate or bound, a survey, a solution, a
    /// record, an upgrade, a report, a session that was over, or help, 1 where a search gave up, 7
    /// where a certificate, one of a library or of a collection, or a bound is refused; of a
    /// collection 3 where a line is no problem, else 1 where a search gave up, else 0; of its
    /// certificates 7, else 3 where one is none or another verdict's, else 0; 2 where the words are
    /// refused, 3 where the input is, 4 and 5 where source or sink failed, 6 for want of memory.
    pub fn status(&self) -> u8
        ensures { result ≡ status_of self.now }
    {
        with_ending!(self, ending => ending.status())
    }

    /// What the user is told of the run beside its answer: nothing where it was answered; else a
    /// line, and behind it what is at fault, what was expected, and what to do. Errors: want of
    /// memory for the line.
    pub fn told(&self, alloc: Global) -> Result<Vec<u8>, AllocError>
        ensures { IfOk result (λ text. BeginsAsTold (telling_of self.now) text.items) }
    {
        with_ending!(self, ending => ending.told(alloc))
    }
}
