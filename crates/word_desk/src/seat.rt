// A seat.
ghost use Rattle.word_desk.specs.WordDesk.{IsSeat};

use crate::view::View;
use atomic_table::Seat;
use board_core::Position;
use notes::Note;
use std::marker::Model;

/// A token with which one thread at a time draws visits, claims room and posts at a desk. Contracts
/// see of which desk it is, and what it drew, claimed and posted.
///
/// A seat that is let go takes its parts with it, so that the desk can't be closed any more, only
/// dropped.
#[derive(Drop)]
pub struct DeskSeat {
    pub(crate) seat: Seat<u8, View>,
    pub(crate) position: Position,
    pub(crate) expansions: u64,
    pub(crate) room: u32,
    pub(crate) drawn: u64,
    pub(crate) note: Option<Note>,
}

impl Model for DeskSeat {
    ghost use Rattle.std.specs.Prelude.{◌≡◌, ◌≤◌, [], length, is_some};
    ghost use Rattle.std.specs.Coded.{codes};
    ghost use Rattle.notes.specs.contracts.note.Note as facts;
    ghost use Rattle.word_desk.specs.WordDesk.{DeskSeatView, IsSeat, seat_of, numbers_to};

    ghost Value = { DeskSeatView };

    ghost coded = { Prim.hlevel (codes, facts.the_row.coded) };

    ghost view = { λ s. seat_of
        (record { words = s.seat.table_id; position = s.position; expansions = s.expansions; room = s.room })
        s.seat.me.0
        s.note };

    ghost invariant = { λ s.
        IsSeat (seat_of
        (record { words = s.seat.table_id; position = s.position; expansions = s.expansions; room = s.room })
        s.seat.me.0
        s.note)
        × (s.seat.me.1 ≡ [])
        × (s.drawn ≡ length (numbers_to s.expansions s.seat.me.0.drawn))
        × (s.seat.me.0.won ≡ is_some s.note) };
}

impl DeskSeat {
    /// What the type keeps: the limits of its desk are those of settings; a seat has a part, has
    /// drawn no more visits than there are and claimed no more than there is room, and its note
    /// answers the problem. Does nothing; whoever wants to know this of a seat calls it.
    pub fn laws(&self)
        ensures { IsSeat self.now }
    {
        let _kept = &self.seat;
    }
}
