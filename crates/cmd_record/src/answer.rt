// What is found out about a certificate whose record is asked for.
use app_texts::MainLine;
use cert_check::Why;
use run_telling::Status;
use shogi_rules::Problem;

/// What was found out about a mate's certificate.
#[derive(Drop)]
pub enum RecordAnswer {
    /// It is valid for its problem: the problem, and the moves of the certificate's main line.
    Recorded(Problem, MainLine),
    /// It isn't.
    Refused {
        /// The first entry that something speaks against, counted from 1; 0 for the certificate as
        /// a whole.
        entry: u64,
        /// The first reason against it.
        why: Why,
    },
}

impl Status for RecordAnswer {
    ghost use Rattle.cmd_record.specs.Text.{answer_status};

    ghost status_of = { answer_status };

    /// 0 with a record, 7 where the certificate is refused.
    fn status(&self) -> u8 {
        match self {
            RecordAnswer::Recorded(..) => 0,
            RecordAnswer::Refused { .. } => 7,
        }
    }
}
