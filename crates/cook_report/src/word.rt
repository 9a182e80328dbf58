// What is said of all first checks together.

/// What a report says of its problem: a problem is sound where exactly one first check mates.
#[derive(Clone, Copy, PartialEq, Eq, Debug)]
pub enum Word {
    /// Exactly one first check mates.
    Sound,
    /// Two first checks mate, or more.
    Cooked,
    /// Fewer than two are known to mate, and of one it isn't known whether it does.
    Open,
    /// No first check mates.
    NoMate,
}
