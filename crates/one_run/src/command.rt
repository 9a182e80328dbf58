// What a command is of its own.
use std::alloc::{AllocError, Global};

/// Why a command doesn't answer a text.
#[derive(Debug, Drop)]
pub enum Unanswered<F> {
    /// The text is at fault: its first fault.
    Text(F),
    /// Memory was wanted and not there.
    NoMemory,
}

/// A command that reads one text whole and answers it, as its words ask for it.
pub trait Command {
    ghost use Rattle.std.specs.Prelude.{◌≡◌, IfOk};
    ghost use Rattle.one_run.specs.Command.{Meaning};

    /// What it answers.
    type Answer: Drop;

    /// What may be wrong with a text.
    type Fault: Drop;

    /// What it means.
    ghost meaning: { Self → Meaning Self.Answer Self.Fault };

    /// The most bytes that a text may have.
    fn limit(&self) -> usize
        ensures { result ≡ (meaning self.now).limit };

    /// The whole text of an answer. Errors: want of memory alone.
    fn text(&self, alloc: Global, answer: &Self::Answer) -> Result<Vec<u8>, AllocError>
        requires { (meaning self.now).HasText answer.now }
        ensures { IfOk result (λ made. made.items ≡ (meaning self.now).text_of answer.now) };
}
