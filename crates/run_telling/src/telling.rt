// What the user is told of a run.
ghost use Rattle.std.specs.Prelude.{◌≡◌, ◌⊎◌, List, ℕ, [], IfOk};
ghost use Rattle.run_telling.specs.Telling.{BeginsAsTold, IsToldLine, ended_telling, fault_telling, written_telling};

use crate::Explained;
use explanations::{Trouble, explain};
use one_run::{Ended, Fault, Written};
use std::alloc::{AllocError, Global};

/// The line for the user, `tsume: ` and these words, and behind it what explains the trouble with
/// the input, if there is one, and memory for it. Errors: want of memory for the line.
pub fn told_line(
    alloc: Global,
    words: &str,
    trouble: Option<Trouble>,
    input: &[u8],
) -> Result<Vec<u8>, AllocError>
    ensures { IfOk result (λ text. IsToldLine words.now trouble text.items) }
{
    let line = format!(in alloc; "tsume: {words}\n")?;
    let mut text = Vec::new(alloc);
    text.extend_from_slice(line.as_bytes())?;
    let Some(trouble) = trouble else {
        return Ok(text);
    };
    if let Ok(explanation) = explain(alloc, trouble, input) {
        text.extend_from_slice(&explanation).ok();
    }
    Ok(text)
}

// What the user is told of a fault, and of the input that has it.
fn told_of_fault<F: Explained>(
    alloc: Global,
    fault: &Fault<F>,
    input: &[u8],
) -> Result<Vec<u8>, AllocError>
    ensures { IfOk result
        (λ text. BeginsAsTold (fault_telling F.text_of F.MayFollow fault.now) text.items) }
{
    match fault {
        Fault::Text(fault) => {
            let words = fault.line(alloc)?;
            told_line(alloc, words.as_str(), fault.trouble(), input)
        }
        Fault::TooLong => told_line(alloc, "too long", Some(Trouble::TooLong), input),
        Fault::Read => told_line(alloc, "read fault", None, input),
        Fault::NoMemory => told_line(alloc, "out of memory", Some(Trouble::NoMemory), input),
    }
}

/// What the user is told of a run beside its answer: nothing where it was answered; else a line,
/// and behind it what is at fault, what was expected, and what to do. Errors: want of memory for
/// the line.
pub fn told_of<A, F: Explained>(alloc: Global, ended: &Ended<A, F>) -> Result<Vec<u8>, AllocError>
    ensures { IfOk result
        (λ text. BeginsAsTold (ended_telling F.text_of F.MayFollow ended.now) text.items) }
{
    match ended {
        Ended::Answered(_) => Ok(Vec::new(alloc)),
        Ended::CutShort(_) => told_line(alloc, "write fault", Some(Trouble::Write), &[]),
        Ended::Failed(fault, input) => told_of_fault(alloc, fault, input.bytes()),
    }
}

/// The same of a run that reads nothing. Errors: want of memory for the line.
pub fn told_of_written<A>(alloc: Global, written: &Written<A>) -> Result<Vec<u8>, AllocError>
    ensures { IfOk result (λ text. BeginsAsTold (written_telling written.now) text.items) }
{
    match written {
        Written::Whole(_) => Ok(Vec::new(alloc)),
        Written::InPart(_) => told_line(alloc, "write fault", Some(Trouble::Write), &[]),
        Written::NoMemory => told_line(alloc, "out of memory", Some(Trouble::NoMemory), &[]),
    }
}
