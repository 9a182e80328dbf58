// What `check` is as a command, and the problem that it is asked to check for.
ghost use Rattle.std.specs.Prelude.{◌≡◌, Err, MatchResult};
ghost use Rattle.cmd_check.specs.Asked.{IsFaultInWords, IsProblemInWords, check_in};

use crate::Check;
use app_texts::{Judgement, ProblemFault, judgement_text};
use cert_text::CertFault;
use one_run::Command;
use problem_answers::{problem_laws, read_problem};
use shogi_rules::Problem;
use std::alloc::{AllocError, Global};
use tsume_words::{Format, ProblemForm};

/// The most bytes that the text of a certificate may have.
pub const MOST_CERTIFICATE_BYTES: usize = 268_435_456;

impl Command for Check {
    ghost use Rattle.cmd_check.specs.Asked.{check_in};
    ghost use Rattle.cmd_check.specs.Meaning.{check_meaning};

    type Answer = Judgement;

    type Fault = CertFault;

    ghost meaning = { λ asked. check_meaning (check_in asked) };

    fn limit(&self) -> usize {
        MOST_CERTIFICATE_BYTES
    }

    fn text(&self, alloc: Global, answer: &Judgement) -> Result<Vec<u8>, AllocError> {
        judgement_text(alloc, answer)
    }
}

fn problem_in(asked: &Check) -> Result<Option<Problem>, ProblemFault>
    ensures { MatchResult result (IsProblemInWords (check_in asked.now))
        (IsFaultInWords (check_in asked.now)) }
{
    let Some(text) = &asked.problem else {
        return Ok(None);
    };
    let form = ProblemForm {
        format: Format::Sfen,
        rest: false,
    };
    Ok(Some(read_problem(text.as_bytes(), form)?))
}

/// The problem that the words give for a certificate, where they give one. Takes no memory. Errors:
/// the first fault of its text.
pub fn asked_problem(asked: &Check) -> Result<Option<Problem>, ProblemFault>
    ensures found { MatchResult result (IsProblemInWords (check_in asked.now))
        (IsFaultInWords (check_in asked.now)) }
    // No fault is passed over.
    ensures failed { (fault : ProblemFault) → IsFaultInWords (check_in asked.now) fault
        → result ≡ Err fault }
{
    // No text stands for two problems, or has two first faults.
    problem_laws();
    problem_in(asked)
}
