// The stop that hears what is read ahead.
ghost use Rattle.std.specs.Prelude.{◌≡◌, ◌↔◌, IsTrue, None};
ghost use Rattle.search_gate.specs.Stop.{armed_with, one_more, polled};
ghost use Rattle.search_gate.specs.Deadline.{asked_for, end_after};
ghost use Rattle.reading_ahead.specs.Ends.{IsToStop, asked_at, clock_of, end_in_force, end_of, heard_signal, listener_of};
ghost use Rattle.reading_ahead.specs.Hearing.{asks_of, heard_by};

use crate::hearing::Listener;
use search_gate::{Clock, Stop};

// How long a search without a limit goes on once the input was left, in milliseconds.
const GRACE: u64 = 1_000;

/// A stop that signals at each poll at which its deadline has passed, as a `DeadlineStop`'s does;
/// or a line `stop` was read ahead that wasn't handed on; or, where it is armed for no time, a
/// second has passed since `quit` or the end of the input was read. Its clock and the reading
/// thread's have to show the same time.
#[derive(Drop)]
pub struct HeardStop<C> {
    clock: C,
    listener: Listener,
    end: Option<u64>,
    polls: u64,
    raised: u64,
    last: u64,
    armed: Option<u64>,
    arms: u64,
    early: u64,
}

impl<C: Clock + Drop> HeardStop<C> {
    /// It goes by this clock and this listener, and wasn't armed yet.
    pub fn new(clock: C, listener: Listener) -> HeardStop<C>
        ensures clock { clock_of result ≡ clock }
        ensures listener { listener_of result ≡ listener }
        ensures end { end_of result ≡ None }
        ensures signal { heard_signal result
            ≡ record { polls = 0; raised = 0; last = 0; armed = None; arms = 0; early = 0 } }
    {
        HeardStop {
            clock,
            listener,
            end: None,
            polls: 0,
            raised: 0,
            last: 0,
            armed: None,
            arms: 0,
            early: 0,
        }
    }
}

// The end that holds, of the one that a stop was armed for and what is heard.
fn holding(end: Option<u64>, left_at: Option<u64>) -> Option<u64>
    ensures { result ≡ end_in_force end left_at }
{
    match (end, left_at) {
        (Some(end), _) => Some(end),
        (None, Some(left_at)) => Some(left_at.saturating_add(GRACE)),
        (None, None) => None,
    }
}

impl<C: Clock + Drop> Stop for HeardStop<C> {
    ghost use Rattle.reading_ahead.specs.Ends.{heard_signal};

    ghost signal = { λ stop. heard_signal stop };

    fn arm(&mut self, after_ms: Option<u64>)
        // As each stop.
        ensures armed { heard_signal self.new ≡ armed_with (heard_signal self.old) after_ms }
        // As one with a deadline: its end is so many milliseconds from what the clock answers, at
        // most the greatest number; or none.
        ensures end { end_of self.new ≡ end_after after_ms (C.answered (clock_of self.new)) }
        // The clock is asked once for that, and not at all where it is armed for no time.
        ensures asked { C.asked (clock_of self.new)
            ≡ asked_for after_ms (C.asked (clock_of self.old)) }
        ensures listener { listener_of self.new ≡ listener_of self.old }
    {
        self.end = match after_ms {
            Some(milliseconds) => Some(self.clock.now().saturating_add(milliseconds)),
            None => None,
        };
        self.armed = after_ms;
        self.arms = self.arms.saturating_add(1);
        self.early = self.polls;
    }

    fn poll(&mut self) -> bool
        // As each stop.
        ensures polled { heard_signal self.new ≡ polled (heard_signal self.old) result }
        // As this one alone: it listens once, and signals exactly where what it hears then, or its
        // end, says so.
        ensures heard { asks_of (listener_of self.new)
            ≡ one_more (asks_of (listener_of self.old)) }
        ensures stops { IsTrue result ↔ IsToStop (heard_by (listener_of self.new))
            (end_of self.old) (C.answered (clock_of self.new)) }
        ensures end { end_of self.new ≡ end_of self.old }
        // The clock is asked once where an end holds and no line `stop` waits, else not at all.
        ensures asked { C.asked (clock_of self.new) ≡ asked_at (heard_by (listener_of self.new))
            (end_of self.old) (C.asked (clock_of self.old)) }
    {
        self.polls = self.polls.saturating_add(1);
        let heard = self.listener.listen();
        let stops = match holding(self.end, heard.left_at) {
            _ if heard.stop_waits => true,
            Some(end) => self.clock.now() >= end,
            None => false,
        };
        if stops {
            self.raised = self.raised.saturating_add(1);
            self.last = self.polls;
        }
        stops
    }
}
