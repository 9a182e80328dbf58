// The words that a search uses with the table of positions and with the desk.
use crate::Note;
use pn_numbers::Numbers;

/// What the desk answers to a worker that asks for its next visit.
#[derive(Clone, Copy, PartialEq, Eq, Debug)]
pub enum Draw {
    /// Go on: this is the visit of this number, from 1.
    Go(u64),
    /// A note about the problem was posted: nothing is left to do.
    Done,
    /// All visits were drawn.
    Spent,
}

/// What the desk answers to a worker that is about to make a note.
#[derive(Clone, Copy, PartialEq, Eq, Debug)]
pub enum RoomAnswer {
    /// There is room: the note is the one of this number, from 1.
    Room(u32),
    /// All room is taken.
    NoRoom,
}

/// What the table answers to a worker that looks for a position.
#[derive(Drop)]
pub enum Seen {
    /// It has no entry of the position.
    New,
    /// It has an entry of the position, and no note there holds on the worker's path.
    Open {
        /// Its numbers, both from 1 to the cap.
        numbers: Numbers,
        /// How many visits of it are going on, by all workers.
        below: u64,
    },
    /// It is solved on the worker's path, as this note says.
    Solved(Note),
    /// It has no note of the position that holds on the worker's path, but this one of another
    /// position, which may be carried to it: its conclusion holds on every path.
    Lent(Note),
}

/// What a worker tells the table when it leaves a position.
#[derive(Drop)]
pub enum Update {
    /// It isn't solved; these are its numbers, both from 1 to the cap.
    Numbers(Numbers),
    /// It is solved, as this note about it says.
    Note(Note),
    /// Nothing was found out.
    Nothing,
}

/// What the table answers to a worker that enters a position.
#[derive(Clone, Copy, PartialEq, Eq, Debug)]
pub enum Kept {
    /// Its entry is in this slot of its row, from 0 to 7, and stays there while a worker is below
    /// it.
    Slot(u8),
    /// Its row is full of entries that workers are below.
    Unkept,
}
