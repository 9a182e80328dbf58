// A seat.
ghost use Rattle.std.specs.Prelude.{◌<◌, ◌≤◌, length};
ghost use Rattle.worker_counts.specs.declared.view.TheConstants.{MOST_ADDED};
ghost use Rattle.worker_counts.specs.Counts.{AreBelow};

use crate::view::View;
use atomic_table::Seat;
use std::marker::Model;

/// A token with which one thread at a time steps on the counts. It has no bytes. Contracts see of
/// which counts it is, and its [`View`].
///
/// A seat that is let go takes its parts with it, so that the counts can't be closed any more, only
/// dropped.
#[derive(Drop)]
pub struct CountSeat {
    pub(crate) seat: Seat<u8, View>,
}

impl Model for CountSeat {
    ghost use Rattle.std.specs.Prelude.{◌≡◌, ◌<◌, ◌≤◌, [], length};
    ghost use Rattle.worker_counts.specs.declared.view.TheConstants.{MOST_ADDED};
    ghost use Rattle.worker_counts.specs.Counts.{SeatView, AreBelow};

    ghost Value = { SeatView };

    ghost view = { λ s. record { counts = s.seat.table_id; view = s.seat.me.0 } };

    ghost invariant = { λ s.
        (0 < s.seat.me.0.parts)
        × (length s.seat.me.0.added ≤ MOST_ADDED)
        × (s.seat.me.1 ≡ [])
        × AreBelow s.seat.table_id.words s.seat.me.0.added };
}

impl CountSeat {
    /// What the type keeps: a seat has a part, and has added no more than it may, to words that
    /// there are. Does nothing; whoever wants to know this of a seat calls it.
    pub fn laws(&self)
        ensures part { 0 < self.now.view.parts }
        ensures few { length self.now.view.added ≤ MOST_ADDED }
        ensures below { AreBelow self.now.counts.words self.now.view.added }
    {
        let _kept = &self.seat;
    }
}
