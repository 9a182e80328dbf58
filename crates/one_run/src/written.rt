// What writing the text of an answer came to.
ghost use Rattle.std.specs.Prelude.{◌≡◌, ℕ, List, IfOk};
ghost use Rattle.one_run.specs.Outside.{shown};
ghost use Rattle.one_run.specs.Written.{HasWritten, ended_by};

use crate::{Ended, Fault, Input};
use std::alloc::{AllocError, Global};
use tsume_io::{Sink, write_all};

/// What writing the text of an answer came to; and so how a run of a command ended that reads
/// nothing.
#[derive(Drop)]
pub enum Written<A> {
    /// It was written whole.
    Whole(A),
    /// The sink failed, and kept a part of it; the answer stands.
    InPart(A),
    /// Memory was wanted and not there; nothing was written.
    NoMemory,
}

/// Writes the whole text of an answer, which was made before, where memory wasn't wanted for it.
pub fn write<A: Drop, K: Sink>(
    answer: A,
    text: Result<Vec<u8>, AllocError>,
    sink: &mut K,
) -> Written<A>
    ensures { (told : List ℕ) → IfOk text (λ made. made.items ≡ told)
        → HasWritten told (shown K.kept K.faults sink.old sink.new) answer result }
{
    let Ok(text) = text else {
        return Written::NoMemory;
    };
    if write_all(sink, &text).is_err() {
        return Written::InPart(answer);
    }
    Written::Whole(answer)
}

impl<A: Drop> Written<A> {
    /// How a run ended that read its text whole, and then wrote its answer so; no bytes of the text
    /// are kept.
    pub fn ended<F: Drop>(self, alloc: Global) -> Ended<A, F>
        ensures { result ≡ ended_by self }
    {
        match self {
            Written::Whole(answer) => Ended::Answered(answer),
            Written::InPart(answer) => Ended::CutShort(answer),
            Written::NoMemory => Ended::Failed(Fault::NoMemory, Input::none(alloc)),
        }
    }
}
