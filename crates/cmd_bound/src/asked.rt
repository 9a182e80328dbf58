// What `check --bound` is as a command.
use crate::{BoundJudgement, bound_text};
use cmd_check::{Check, MOST_CERTIFICATE_BYTES};
use one_run::Command;
use shortest_text::ShortestFault;
use std::alloc::{AllocError, Global};

/// What `check` is asked, where it is asked for a bound.
#[derive(Clone, Copy)]
pub(crate) struct WithBound<'a> {
    pub(crate) asked: &'a Check,
}

impl<'a> Command for WithBound<'a> {
    ghost use Rattle.cmd_check.specs.Asked.{check_in};
    ghost use Rattle.cmd_bound.specs.Meaning.{bound_meaning};

    type Answer = BoundJudgement;

    type Fault = ShortestFault;

    ghost meaning = { λ with. bound_meaning (check_in with.asked.now) };

    fn limit(&self) -> usize {
        MOST_CERTIFICATE_BYTES
    }

    fn text(&self, alloc: Global, answer: &BoundJudgement) -> Result<Vec<u8>, AllocError> {
        bound_text(alloc, *answer)
    }
}
