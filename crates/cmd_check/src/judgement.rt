// What is found of a certificate.
ghost use Rattle.std.specs.Prelude.{ℕ, List, Option, IfOk};
ghost use Rattle.one_run.specs.Command.{IsAnswer};
ghost use Rattle.one_run.specs.Stops.{Signals, AreUnused};
ghost use Rattle.cmd_check.specs.Answer.{IsTrueOfCertificate};
ghost use Rattle.cmd_check.specs.Asked.{IsProblemInWords, IsJudgedFor};
ghost use Rattle.cmd_check.specs.Meaning.{check_meaning};

use app_texts::Judgement;
use cert_check::Verdict;
use cert_text::{CertEnd, CertFault, Certificate, cert_laws};
use one_run::Unanswered;
use shogi_rules::Problem;
use side_by_side::MOST_MEMBERS;
use std::alloc::{AllocError, Global};
use std::thread::Threads;
use wide_check::check_wide;
use wide_read::read_wide;

// The problem for which a certificate is judged: the one that is asked about, else its own.
fn problem_for<'a>(asked: &'a Option<Problem>, certificate: &'a Certificate) -> &'a Problem
    ensures { (text : Option (List ℕ)) → IsProblemInWords text asked.entry.now
        → IsJudgedFor text certificate.entry.now result.now.position }
{
    match asked {
        Some(problem) => problem,
        None => certificate.problem(),
    }
}

// How many pieces the lines are read in at a time, and the entries checked: as many as the words
// say, or else as many as there can be.
fn pieces(workers: Option<u32>) -> usize {
    match workers {
        Some(workers) => workers as usize,
        None => MOST_MEMBERS,
    }
}

fn judgement_of<R: Threads + Sync>(
    rt: &R,
    alloc: Global,
    problem: &Problem,
    certificate: &Certificate,
    workers: Option<u32>,
) -> Result<Judgement, AllocError>
    ensures { IfOk result (IsTrueOfCertificate problem.now.position certificate.now) }
{
    match check_wide(rt, alloc, problem, certificate, pieces(workers))? {
        Verdict::Accepted => Ok(Judgement::Accepted {
            claim: certificate.claim(),
            entries: certificate.count() as u64,
        }),
        Verdict::Refused { entry, why } => Ok(Judgement::Refused { entry, why }),
    }
}

/// What is answered to the bytes of a certificate's text: the checker's judgement for the problem
/// that is asked about, or for its own; or their first fault. So many workers read and check.
pub(crate) fn answer<R: Threads + Sync>(
    rt: &R,
    alloc: Global,
    asked: &Option<Problem>,
    workers: Option<u32>,
    input: &[u8],
) -> Result<Judgement, Unanswered<CertFault>>
    ensures { (text : Option (List ℕ)) (stops : Signals) → IsProblemInWords text asked.now
        → AreUnused stops → IsAnswer (check_meaning text) stops input.now result }
{
    // No text has two first faults.
    cert_laws();
    let certificate = match read_wide(rt, alloc, input, pieces(workers)) {
        Ok(certificate) => certificate,
        Err(CertEnd::Fault(fault)) => return Err(Unanswered::Text(fault)),
        Err(CertEnd::NoMemory) => return Err(Unanswered::NoMemory),
    };
    let problem = problem_for(asked, &certificate);
    match judgement_of(rt, alloc, problem, &certificate, workers) {
        Ok(judgement) => Ok(judgement),
        Err(_) => Err(Unanswered::NoMemory),
    }
}
