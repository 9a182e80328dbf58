// What is found of a certificate.
ghost use Rattle.std.specs.Prelude.{◌≡◌, IfOk};
ghost use Rattle.cert_text.specs.declared.certificate.Certificate.TheVariants.{Mate};
ghost use Rattle.one_run.specs.Command.{IsAnswer};
ghost use Rattle.one_run.specs.Stops.{Signals, AreUnused};
ghost use Rattle.cmd_record.specs.Answer.{IsTrueOfMate};
ghost use Rattle.cmd_record.specs.Meaning.{record_meaning};
ghost use Rattle.cmd_record.specs.Text.{HasText};

use crate::{RecordAnswer, RecordFault};
use app_texts::MainLine;
use cert_check::{Verdict, check};
use cert_text::{CertEnd, Certificate, MateCertificate, cert_laws, read_cert};
use one_run::Unanswered;
use play_line::main_line;
use std::alloc::{AllocError, Global};

// The record of a mate's certificate, or the first reason against it.
fn recorded(
    alloc: Global,
    certificate: &Certificate,
    mate: &MateCertificate,
) -> Result<RecordAnswer, AllocError>
    requires { certificate.now ≡ Mate mate.now }
    ensures truth { IfOk result (IsTrueOfMate mate.now) }
    ensures text { IfOk result HasText }
{
    let problem = mate.problem();
    match check(alloc, problem, certificate)? {
        Verdict::Accepted => {
            let moves = main_line(alloc, problem, mate)?;
            Ok(RecordAnswer::Recorded(*problem, MainLine::new(moves)))
        }
        Verdict::Refused { entry, why } => Ok(RecordAnswer::Refused { entry, why }),
    }
}

/// What is answered to the bytes of a certificate's text: its record, or the first reason against
/// it; or the text's first fault; or that it is an escape's, which isn't checked.
pub(crate) fn answer(alloc: Global, input: &[u8]) -> Result<RecordAnswer, Unanswered<RecordFault>>
    ensures truth { (stops : Signals) → AreUnused stops
        → IsAnswer record_meaning stops input.now result }
    ensures text { IfOk result HasText }
{
    // No text has two first faults.
    cert_laws();
    let certificate = match read_cert(alloc, input) {
        Ok(certificate) => certificate,
        Err(CertEnd::Fault(fault)) => {
            return Err(Unanswered::Text(RecordFault::Certificate(fault)));
        }
        Err(CertEnd::NoMemory) => return Err(Unanswered::NoMemory),
    };
    match &certificate {
        Certificate::Escape(_) => Err(Unanswered::Text(RecordFault::NotAMate)),
        Certificate::Mate(mate) => match recorded(alloc, &certificate, mate) {
            Ok(answer) => Ok(answer),
            Err(_) => Err(Unanswered::NoMemory),
        },
    }
}
