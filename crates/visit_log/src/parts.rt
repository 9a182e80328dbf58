// What a worker knows between two requests.
use crate::WorkEnd;
use board_core::{Key, Move};
use notes::Note;
use pn_numbers::Numbers;

/// How fresh is what is known of a child.
#[derive(Clone, Copy, PartialEq, Eq, Debug)]
pub enum Look {
    /// It is to be looked at in this round.
    Due,
    /// It was looked at in this round.
    Fresh,
    /// It isn't to be looked at in this round, unless it is selected.
    Stale,
}

/// A successor of a node, as far as it is known.
#[derive(Drop)]
pub struct Child {
    /// The move that leads to it.
    pub by: Move,
    /// Its key.
    pub key: Key,
    /// Whether it is an attacker's position that stands on the path.
    pub on_path: bool,
    /// How fresh is what follows.
    pub look: Look,
    /// Its numbers, both from 1 to the cap, as they were seen last.
    pub numbers: Numbers,
    /// How many visits of it were going on when it was looked at.
    pub below: u64,
    /// The note that solves it on the path.
    pub note: Option<Note>,
}

/// A visit that is about to begin.
#[derive(Clone, Copy, PartialEq, Eq, Debug)]
pub struct Entry {
    /// The move from the innermost position; none where it is the problem's own.
    pub by: Option<Move>,
    /// Its key.
    pub key: Key,
    /// The thresholds of the visit.
    pub limits: Numbers,
    /// The numbers with which the position is entered, as they were seen last.
    pub numbers: Numbers,
}

/// How a visit left its position.
#[derive(Drop)]
pub enum Left {
    /// Solved on the path, as the note says.
    Solved(Note),
    /// Not solved, with these numbers.
    Open(Numbers),
}

/// What a worker does next.
#[derive(Drop)]
pub enum Stage {
    /// It polls, before this visit.
    Polling(Entry),
    /// It draws this visit.
    Drawing(Entry),
    /// It enters the innermost position.
    Entering,
    /// It looks at the child at this place, from 0.
    Looking(usize),
    /// It claims room for a note: the innermost position is solved.
    Claiming,
    /// It leaves the innermost position so.
    Leaving(Left),
    /// It posts the note about the problem; none once it is given away.
    Posting(Option<Note>),
    /// It leaves all positions that it has entered, innermost first, and ends so.
    Winding(WorkEnd),
}
