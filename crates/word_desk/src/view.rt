// What a seat knows of visits and claims.
use std::collections::LinkedList;

/// The parts into which a desk can be dealt out. A seat has at least one, so it is also the most
/// seats that there are at one time: one for each of 64 workers, and one for who makes them.
pub const MOST_SEATS: u64 = 65;

/// What the first word has above the tickets once a note is posted: its bit 40.
pub const POSTED: u64 = 1 << 40;

/// What a seat knows of visits and claims. Contracts alone speak of it: no value of it is made.
pub struct View {
    /// How many of all parts the seat has.
    pub parts: u64,
    /// The numbers that it drew where no note was posted.
    pub drawn: LinkedList<u64>,
    /// The numbers that it drew where a note was posted.
    pub missed: LinkedList<u64>,
    /// The numbers that it claimed.
    pub claimed: LinkedList<u64>,
    /// Whether it, or a seat that was joined to it, has met a posted note by a draw or a post.
    pub met: bool,
    /// Whether it, or a seat that was joined to it, has posted the first note.
    pub won: bool,
}
