// What a worker asks, and what it is told.
use board_core::Key;
use notes::{Draw, Kept, Note, RoomAnswer, Seen, Update};
use pn_numbers::Numbers;

/// How a worker ended.
#[derive(Clone, Copy, PartialEq, Eq, Debug)]
pub enum WorkEnd {
    /// A note about the problem is posted, by it or by another.
    Posted,
    /// All visits were drawn.
    Spent,
    /// All room for notes was claimed.
    NoRoom,
    /// A note would have been higher than notes can be.
    TooHigh,
    /// There was no memory.
    NoMemory,
    /// It was told to stop.
    Stopped,
}

/// What a worker asks.
#[derive(Drop)]
pub enum Request {
    /// Whether it is to stop.
    Poll,
    /// The next visit.
    Draw,
    /// Room for a note.
    Claim,
    /// What the table knows of the position of this key, on the worker's path.
    Look(Key),
    /// To enter a position in the table.
    Enter {
        /// Its key.
        key: Key,
        /// The numbers that it begins with, where the table has none; both from 1 to the cap.
        numbers: Numbers,
    },
    /// To leave a position that was entered.
    Leave {
        /// What entering it was answered.
        kept: Kept,
        /// Its key.
        key: Key,
        /// What was found out.
        update: Update,
    },
    /// To post a note about the problem, which holds on every path.
    Post(Note),
    /// Nothing more: it has ended, in this way.
    End(WorkEnd),
}

/// What a worker is told, by its request.
#[derive(Drop)]
pub enum Reply {
    /// Whether it is to stop.
    Poll(bool),
    /// The visit, or that there is none for it.
    Draw(Draw),
    /// The room, or that there is none.
    Claim(RoomAnswer),
    /// What the table shows.
    Look(Seen),
    /// Where the entry is.
    Enter(Kept),
    /// That it is done.
    Leave,
    /// That it is done.
    Post,
}
