// What `collection` is asked, and what it is as a command.
ghost use Rattle.std.specs.Prelude.{◌≡◌};

use crate::{CollectionForm, Counts, counts_text};
use explanations::Trouble;
use one_run::Command;
use run_telling::Explained;
use search_limits::Settings;
use std::alloc::{AllocError, Global};

/// The most bytes that the text of a collection may have.
pub const MOST_COLLECTION_BYTES: usize = 16_777_216;

/// What `collection` is asked.
#[derive(Clone, Copy, Debug, PartialEq, Eq)]
pub struct Collection {
    /// The numbers of each search, which has one worker.
    pub settings: Settings,
    /// How the problems are decided, and what is told of them.
    pub form: CollectionForm,
    pub ghost alone: { settings.workers ≡ 1 },
}

/// What is wrong with a whole collection: nothing is, whatever its text, as its meaning says, so
/// that no run ends with it. What is wrong with a line is told of that line.
#[derive(Clone, Copy, Debug)]
pub struct NoFault;

impl Explained for NoFault {
    ghost use Rattle.std.specs.Prelude.{◌≡◌, []};

    ghost text_of = { λ fault. [] };

    ghost MayFollow = { λ fault explanation. explanation ≡ [] };

    fn line(&self, alloc: Global) -> Result<String, AllocError> {
        Ok(String::new(alloc))
    }

    fn trouble(&self) -> Option<Trouble> {
        None
    }
}

impl Command for Collection {
    ghost use Rattle.one_run.specs.Serial.{meaning_of};
    ghost use Rattle.cmd_collection.specs.Asked.{collect_in};
    ghost use Rattle.cmd_collection.specs.Meaning.{collection_meaning};

    type Answer = Counts;

    type Fault = NoFault;

    ghost meaning = { λ asked. meaning_of (collection_meaning (collect_in asked)) };

    fn limit(&self) -> usize {
        MOST_COLLECTION_BYTES
    }

    fn text(&self, alloc: Global, answer: &Counts) -> Result<Vec<u8>, AllocError> {
        counts_text(alloc, answer)
    }
}
