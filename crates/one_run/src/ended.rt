// How a run ended.
use crate::Input;

/// Why a run ended without an answer.
#[derive(Debug, Drop)]
pub enum Fault<F> {
    /// The text is at fault: its first fault, as the command tells it.
    Text(F),
    /// The source has more bytes than the command's text may have.
    TooLong,
    /// The source failed.
    Read,
    /// Memory was wanted and not there.
    NoMemory,
}

/// How a run of a command ended.
#[derive(Drop)]
pub enum Ended<A, F> {
    /// With an answer, whose text was written whole.
    Answered(A),
    /// With an answer that stands, though the sink failed: it kept a part of the answer's text.
    CutShort(A),
    /// Without an answer: why, and the bytes of the input, all of them where its text is at fault.
    /// Where the input wasn't read whole there are none; for want of memory all or none. Nothing
    /// was written, but by what writes as it goes: a collection, a session.
    Failed(Fault<F>, Input),
}
