// What `record` is as a command.
ghost use Rattle.std.specs.Prelude.{IfOk, ◌≡◌};
ghost use Rattle.cmd_record.specs.Text.{HasText, answer_text};

use crate::{Record, RecordAnswer, RecordFault};
use app_texts::{Judgement, judgement_text};
use cmd_check::MOST_CERTIFICATE_BYTES;
use kif_record::write_kif;
use one_run::Command;
use std::alloc::{AllocError, Global};

fn answer_text(alloc: Global, answer: &RecordAnswer) -> Result<Vec<u8>, AllocError>
    requires { HasText answer.now }
    ensures { IfOk result (λ text. text.items ≡ answer_text answer.now) }
{
    match answer {
        RecordAnswer::Recorded(problem, line) => write_kif(alloc, problem, line.moves()),
        RecordAnswer::Refused { entry, why } => {
            let refused = Judgement::Refused {
                entry: *entry,
                why: *why,
            };
            judgement_text(alloc, &refused)
        }
    }
}

impl Command for Record {
    ghost use Rattle.cmd_record.specs.Meaning.{record_meaning};

    type Answer = RecordAnswer;

    type Fault = RecordFault;

    ghost meaning = { λ asked. record_meaning };

    fn limit(&self) -> usize {
        MOST_CERTIFICATE_BYTES
    }

    fn text(&self, alloc: Global, answer: &RecordAnswer) -> Result<Vec<u8>, AllocError> {
        answer_text(alloc, answer)
    }
}
