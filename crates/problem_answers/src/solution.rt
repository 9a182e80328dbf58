// The verdict of a search.
ghost use Rattle.std.specs.Prelude.{IfOk};
ghost use Rattle.cert_text.specs.Reading.{IsReadable};
ghost use Rattle.cert_check.specs.Valid.{ValidMate, ValidEscape};
ghost use Rattle.visit_log.specs.Frame.{task_for};
ghost use Rattle.visit_log.specs.Sound.{IsAnswer};
ghost use Rattle.app_texts.specs.Texts.{HasLine};
ghost use Rattle.problem_answers.specs.Answer.{IsShown, IsVerdictOf};

use app_texts::{MainLine, Solution};
use cert_check::valid_is_accepted;
use cert_extract::{ExtractEnd, extract};
use cert_text::{Certificate, EscapeCertificate, MOST_ENTRIES, MateCertificate};
use notes::Note;
use play_line::main_line;
use search_limits::Cause;
use shogi_rules::Problem;
use std::alloc::{AllocError, Global};
use worker_core::Crew;

fn mate(
    alloc: Global,
    problem: &Problem,
    certificate: MateCertificate,
) -> Result<Solution, AllocError>
    requires valid { ValidMate certificate problem.now.position }
    requires readable { IsReadable (Certificate.Mate certificate) }
    ensures shown { IfOk result (IsShown problem.now.position (Certificate.Mate certificate)) }
    ensures line { IfOk result HasLine }
{
    // What a valid certificate shows.
    valid_is_accepted();
    let moves = main_line(alloc, problem, &certificate)?;
    Ok(Solution::Mate(certificate, MainLine::new(moves)))
}

fn no_mate(problem: &Problem, certificate: EscapeCertificate) -> Solution
    requires valid { ValidEscape certificate problem.now.position }
    requires readable { IsReadable (Certificate.Escape certificate) }
    ensures shown { IsShown problem.now.position (Certificate.Escape certificate) result }
    ensures line { HasLine result }
{
    // What a valid certificate shows.
    valid_is_accepted();
    Solution::NoMate(certificate)
}

/// The verdict of a note that answers the problem: a mate with a main line or that there is none,
/// each with the certificate that is extracted from the note, which the checker accepts and whose
/// text is read. Where it would list more than [`MOST_ENTRIES`], none is told, and the verdict is
/// unknown for that cause. Errors: want of memory alone.
pub fn verdict(alloc: Global, problem: &Problem, note: &Note) -> Result<Solution, AllocError>
    requires { IsAnswer (task_for problem.now.position 1) note.now }
    ensures verdict { IfOk result (IsVerdictOf problem.now.position note.now) }
    ensures line { IfOk result HasLine }
{
    match extract(alloc, problem, note, MOST_ENTRIES as usize) {
        Ok(Certificate::Mate(certificate)) => mate(alloc, problem, certificate),
        Ok(Certificate::Escape(certificate)) => Ok(no_mate(problem, certificate)),
        Err(ExtractEnd::TooMany) => {
            let nobody = Crew::new(Vec::new(alloc));
            Ok(Solution::Unknown(Cause::Entries(MOST_ENTRIES), nobody))
        }
        Err(ExtractEnd::NoMemory) => Err(AllocError),
    }
}
