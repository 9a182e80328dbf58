// Jobs by number.
ghost use Rattle.std.specs.Prelude.{◌≡◌, ◌<◌, ℕ, IfOk};

use std::alloc::{AllocError, Global};

/// Jobs of one kind, numbered from 0, which threads do side by side.
///
/// What an answer of a job means is `is_answer`; a job may be done more than once, and each of its
/// answers means that. A refusal of another kind than want of memory is an answer.
pub trait Jobs: Sync {
    /// What a thread works with, from one job to the next.
    type Tools: Send + Drop;

    /// What a job answers.
    type Answer: Send + Drop;

    /// What has to hold for a job to be done: nothing, unless the jobs stand on a function that
    /// asks for something.
    ghost is_ready: { Self → Type 0 };

    /// How many jobs there are.
    ghost size: { Self → ℕ };

    /// What is true of each answer of the job of a number.
    ghost is_answer: { Self → ℕ → Self.Answer → Type 0 };

    /// How many jobs there are.
    fn count(&self) -> usize
        ensures { result ≡ size self.now };

    /// What a thread works with at its first job. Takes no memory.
    fn tools(&self) -> Self::Tools;

    /// Does the job of a number. Errors: want of memory alone.
    fn answer(
        &self,
        alloc: Global,
        tools: &mut Self::Tools,
        number: usize,
    ) -> Result<Self::Answer, AllocError>
        requires ready { is_ready self.now }
        requires number { number < size self.now }
        ensures { IfOk result (is_answer self.now number) };
}

/// When no further job is to be taken.
pub trait Until: Sync {
    /// Whether no further job is to be taken from now on.
    fn is_over(&self) -> bool;
}

/// Never: each job is taken.
#[derive(Drop)]
pub(crate) struct Never;

impl Until for Never {
    fn is_over(&self) -> bool {
        false
    }
}
