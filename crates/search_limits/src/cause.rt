// Why there is no answer.

/// Why there is no answer to a problem: what was used up, that the search was stopped, or that its
/// answer is too long to be told.
#[derive(Clone, Copy, PartialEq, Eq, Debug)]
pub enum Cause {
    /// All its visits were drawn: so many, the setting `expansions`.
    Expansions(u64),
    /// All its room for notes was taken: for so many, the setting `room`.
    Room(u32),
    /// A note would have been higher than this, the greatest height that a note can have.
    Height(u32),
    /// It was stopped from outside: this worker, by its number from 1, is the first that ended so.
    Stopped(u32),
    /// It was answered, but the certificate of the answer would list more entries than this, the
    /// most that a certificate is read with. No search ends so: it is said of what would be told of
    /// its answer.
    Entries(u32),
}
