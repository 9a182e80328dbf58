// What a seat knows.
use std::collections::LinkedList;

/// The parts into which the counts can be dealt out. A seat has at least one, so it is also the
/// most seats that there are at one time: one for each of 64 workers, and one for who makes them.
pub const MOST_SEATS: u64 = 65;

/// The most words that a seat may have added and not subtracted.
pub const MOST_ADDED: usize = 1_000_000_000;

/// How many of a seat's last loads its view keeps: as many as a row has slots.
pub const KEPT_LOADS: usize = 8;

/// What a seat knows. Contracts alone speak of it: no value of it is made.
pub struct View {
    /// How many of all parts the seat has.
    pub parts: u64,
    /// The words that the seat has added to and not subtracted from since, each as often as that.
    pub added: LinkedList<u64>,
    /// The seat's last loads, the last one first: the word, and what its count was.
    pub loads: LinkedList<(u64, u64)>,
    /// How many loads the seat has made.
    pub loaded: u64,
    /// What the word was before the seat's last add or subtract; 0 before the first.
    pub found: u64,
}
