// What `check --collection` is as a command.
ghost use Rattle.std.specs.Prelude.{◌≡◌};

use crate::{CollectionJudgement, collection_text};
use cmd_check::MOST_CERTIFICATE_BYTES;
use explanations::Trouble;
use one_run::Command;
use run_telling::Explained;
use std::alloc::{AllocError, Global};

/// What is wrong with the whole of what collections printed: nothing is, whatever its text, as its
/// meaning says, so that no run ends with it. What is wrong with a certificate is told of its line.
#[derive(Clone, Copy, Debug)]
pub struct NoFault;

impl Explained for NoFault {
    ghost use Rattle.std.specs.Prelude.{◌≡◌, []};

    ghost text_of = { λ fault. [] };

    ghost MayFollow = { λ fault explanation. explanation ≡ [] };

    fn line(&self, alloc: Global) -> Result<String, AllocError> {
        Ok(String::new(alloc))
    }

    fn trouble(&self) -> Option<Trouble> {
        None
    }
}

/// The command that reads what a collection printed. Its words change nothing of what it means.
#[derive(Clone, Copy)]
pub(crate) struct OfCollection;

impl Command for OfCollection {
    ghost use Rattle.cmd_certificates.specs.Meaning.{collection_meaning};

    type Answer = CollectionJudgement;

    type Fault = NoFault;

    ghost meaning = { λ asked. collection_meaning };

    fn limit(&self) -> usize {
        MOST_CERTIFICATE_BYTES
    }

    fn text(&self, alloc: Global, answer: &CollectionJudgement) -> Result<Vec<u8>, AllocError> {
        collection_text(alloc, answer)
    }
}
