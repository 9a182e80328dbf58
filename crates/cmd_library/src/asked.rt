// What `solve --library` is as a command.
use crate::{LibraryAnswer, LibraryTextFault, library_answer_text};
use cmd_solve::Solve;
use one_run::Command;
use std::alloc::{AllocError, Global};

/// The most bytes that a problem with a library behind it may have.
pub const MOST_LIBRARY_BYTES: usize = 268_435_456;

/// What `solve` is asked, where it is asked with a library.
#[derive(Clone, Copy)]
pub(crate) struct WithLibrary<'a> {
    pub(crate) asked: &'a Solve,
}

impl<'a> Command for WithLibrary<'a> {
    ghost use Rattle.cmd_solve.specs.Asked.{solve_in};
    ghost use Rattle.cmd_library.specs.Meaning.{library_meaning};

    type Answer = LibraryAnswer;

    type Fault = LibraryTextFault;

    ghost meaning = { λ with. library_meaning (solve_in with.asked.now) };

    fn limit(&self) -> usize {
        MOST_LIBRARY_BYTES
    }

    fn text(&self, alloc: Global, answer: &LibraryAnswer) -> Result<Vec<u8>, AllocError> {
        library_answer_text(alloc, answer)
    }
}
