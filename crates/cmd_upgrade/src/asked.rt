// What `upgrade` is as a command.
ghost use Rattle.std.specs.Prelude.{IfOk, ◌≡◌};
ghost use Rattle.cmd_upgrade.specs.Text.{answer_text};

use crate::{Upgrade, UpgradeAnswer};
use app_texts::{Judgement, judgement_text};
use cert_text::{CertFault, write_cert};
use cmd_check::MOST_CERTIFICATE_BYTES;
use one_run::Command;
use std::alloc::{AllocError, Global};

fn answer_text(alloc: Global, answer: &UpgradeAnswer) -> Result<Vec<u8>, AllocError>
    ensures { IfOk result (λ text. text.items ≡ answer_text answer.now) }
{
    match answer {
        UpgradeAnswer::Upgraded(certificate) => write_cert(alloc, certificate),
        UpgradeAnswer::Refused { entry, why } => {
            let refused = Judgement::Refused {
                entry: *entry,
                why: *why,
            };
            judgement_text(alloc, &refused)
        }
    }
}

impl Command for Upgrade {
    ghost use Rattle.cmd_upgrade.specs.Meaning.{upgrade_meaning};

    type Answer = UpgradeAnswer;

    type Fault = CertFault;

    ghost meaning = { λ asked. upgrade_meaning };

    fn limit(&self) -> usize {
        MOST_CERTIFICATE_BYTES
    }

    fn text(&self, alloc: Global, answer: &UpgradeAnswer) -> Result<Vec<u8>, AllocError> {
        answer_text(alloc, answer)
    }
}
