// The stretches of a text, as jobs that are done side by side.
use cert_text::{Entry, ReadLines, read_lines};
use shogi_rules::Problem;
use side_by_side::Jobs;
use std::alloc::{AllocError, Global};
use std::marker::PhantomData;

/// The stretches of a text of entries of one kind, for the problem that the text's certificate is
/// about.
#[derive(Clone, Copy)]
pub(crate) struct Stretches<'s, 'a, E> {
    pub(crate) texts: &'s [&'a [u8]],
    pub(crate) problem: &'s Problem,
    pub(crate) of: PhantomData<E>,
}

// Each stretch is read by itself.
impl<'s, 'a, E: Entry + Send + Sync> Jobs for Stretches<'s, 'a, E> {
    ghost use Rattle.std.specs.Prelude.{length, ⊤};
    ghost use Rattle.wide_read.specs.Stretches.{IsReadAt};

    type Tools = ();

    type Answer = ReadLines<'a, E>;

    ghost is_ready = { λ jobs. ⊤ };

    ghost size = { λ stretches. length stretches.texts.now };

    ghost is_answer = { λ stretches number lines.
        IsReadAt (E.form stretches.problem.now.position) (λ text. text.now)
        stretches.texts.now number lines };

    fn count(&self) -> usize {
        self.texts.len()
    }

    fn tools(&self) {}

    fn answer(
        &self,
        alloc: Global,
        tools: &mut (),
        number: usize,
    ) -> Result<ReadLines<'a, E>, AllocError> {
        read_lines(alloc, self.texts[number], self.problem)
    }
}
