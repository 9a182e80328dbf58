// What is found of the certificates behind the lines of a collection.
ghost use Rattle.std.specs.Prelude.{◌≡◌, ◌↔◌, IfOk, IsTrue};
ghost use Rattle.cert_text.specs.Kinds.{claim_of};
ghost use Rattle.collection_text.specs.Told.{seen as told_seen, told_lines};
ghost use Rattle.library_text.specs.Reading.{IsBare};
ghost use Rattle.one_run.specs.Command.{IsAnswer};
ghost use Rattle.one_run.specs.Stops.{Signals, AreUnused};
ghost use Rattle.cmd_certificates.specs.Answer.{AreJudged, IsLineJudged, IsTold};
ghost use Rattle.cmd_certificates.specs.Inside.{IsOwnJudgement};
ghost use Rattle.cmd_certificates.specs.Judged.{seen};
ghost use Rattle.cmd_certificates.specs.Meaning.{collection_meaning};

use crate::{CollectionJudgement, JudgedLine, LineJudgement, NoFault};
use cert_check::Verdict;
use cert_text::{CertEnd, CertFault, Certificate, Claim, behind, cert_laws};
use collection_text::{ToldLine, ToldLines};
use one_run::Unanswered;
use side_by_side::MOST_MEMBERS;
use std::alloc::{AllocError, Global};
use std::thread::Threads;
use wide_check::check_wide;
use wide_read::read_wide;

// The most bytes of a certificate that one thread reads and checks: to start others takes longer.
const MOST_ALONE: usize = 32_768;

// How many pieces a certificate of so many bytes is read and checked in: one where it is short;
// else as many as the words say, or else as many as there can be.
fn pieces(workers: Option<u32>, bytes: usize) -> usize {
    if bytes <= MOST_ALONE {
        return 1;
    }
    match workers {
        Some(workers) => workers as usize,
        None => MOST_MEMBERS,
    }
}

// What is found of a certificate, for its own problem.
fn own_judgement<R: Threads + Sync>(
    rt: &R,
    alloc: Global,
    certificate: &Certificate,
    pieces: usize,
) -> Result<LineJudgement, AllocError>
    ensures { IfOk result (IsOwnJudgement certificate.now) }
{
    let problem = certificate.problem();
    match check_wide(rt, alloc, problem, certificate, pieces)? {
        Verdict::Accepted => Ok(LineJudgement::Accepted {
            claim: certificate.claim(),
            entries: certificate.count() as u64,
        }),
        Verdict::Refused { entry, why } => Ok(LineJudgement::Refused { entry, why }),
    }
}

// Whether it begins as a certificate's first line does, so that no front line stands before it.
fn is_bare(text: &[u8]) -> bool
    ensures { IsTrue result ↔ IsBare text.now }
{
    behind(text, b"certificate ").is_some()
}

fn claims(certificate: &Certificate, claim: Claim) -> bool
    ensures { IsTrue result ↔ (claim_of certificate.now ≡ claim) }
{
    certificate.claim() == claim
}

// What is found of the certificate behind a line.
fn told_of<R: Threads + Sync>(
    rt: &R,
    alloc: Global,
    line: &ToldLine<'_>,
    pieces: usize,
) -> Result<LineJudgement, AllocError>
    ensures { IfOk result (IsTold (told_seen line.now)) }
{
    // No text has two first faults.
    cert_laws();
    if !is_bare(line.certificate) {
        return Ok(LineJudgement::Fault(CertFault::BadHead));
    }
    let certificate = match read_wide(rt, alloc, line.certificate, pieces) {
        Ok(certificate) => certificate,
        Err(CertEnd::Fault(fault)) => return Ok(LineJudgement::Fault(fault)),
        Err(CertEnd::NoMemory) => return Err(AllocError),
    };
    if !claims(&certificate, line.claim) {
        return Ok(LineJudgement::Fault(CertFault::BadHead));
    }
    own_judgement(rt, alloc, &certificate, pieces)
}

fn judged_line<R: Threads + Sync>(
    rt: &R,
    alloc: Global,
    line: &ToldLine<'_>,
    workers: Option<u32>,
) -> Result<JudgedLine, AllocError>
    ensures { IfOk result (λ judged. IsLineJudged (told_seen line.now) (seen judged)) }
{
    let told = told_of(rt, alloc, line, pieces(workers, line.certificate.len()))?;
    let mut number = Vec::new(alloc);
    number.extend_from_slice(line.number)?;
    Ok(JudgedLine { number, told })
}

// Goes over the lines of a text that tell a verdict. So many workers read and check each
// certificate.
fn judged<R: Threads + Sync>(
    rt: &R,
    alloc: Global,
    workers: Option<u32>,
    input: &[u8],
) -> Result<CollectionJudgement, AllocError>
    ensures { IfOk result (AreJudged (told_lines input.now)) }
{
    let mut lines = ToldLines::new(input);
    let mut judged = Vec::new(alloc);
    while let Some(line) = lines.next() {
        judged.push(judged_line(rt, alloc, &line, workers)?)?;
    }
    Ok(CollectionJudgement::new(judged))
}

/// What is answered to the bytes that collections printed: the judgement on each line that tells a
/// verdict.
pub(crate) fn answer<R: Threads + Sync>(
    rt: &R,
    alloc: Global,
    workers: Option<u32>,
    input: &[u8],
) -> Result<CollectionJudgement, Unanswered<NoFault>>
    ensures { (stops : Signals) → AreUnused stops
        → IsAnswer collection_meaning stops input.now result }
{
    match judged(rt, alloc, workers, input) {
        Ok(judged) => Ok(judged),
        Err(_) => Err(Unanswered::NoMemory),
    }
}
