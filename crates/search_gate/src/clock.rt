// A clock, and the stop that goes by it.
ghost use Rattle.std.specs.Prelude.{◌≡◌, ◌↔◌, IsTrue, None};
ghost use Rattle.search_gate.specs.Stop.{armed_with, one_more, polled};
ghost use Rattle.search_gate.specs.Deadline.{HasPassed, asked_for, end_after, clock_of, deadline_signal, end_of};

use crate::Stop;

/// A clock. It tells of itself what it last answered, and how often it was asked.
pub trait Clock: Send {
    ghost use Rattle.std.specs.Prelude.{◌≡◌, ℕ};
    ghost use Rattle.search_gate.specs.Stop.{one_more};

    /// What it last answered.
    ghost answered: { Self → ℕ };

    /// How often it was asked, up to 2^64 - 1.
    ghost asked: { Self → ℕ };

    /// What it shows now, in milliseconds since a start of its own.
    fn now(&mut self) -> u64
        ensures answered { result ≡ answered self.new }
        ensures asked { asked self.new ≡ one_more (asked self.old) };
}

/// A stop with a deadline: it signals at each poll at which its clock shows the end for which it
/// was last armed, or more, if it was armed for one. It reads its clock when it is armed for a
/// time, and at each poll from then on till it is armed for none.
#[derive(Debug, Drop)]
pub struct DeadlineStop<C> {
    clock: C,
    end: Option<u64>,
    polls: u64,
    raised: u64,
    last: u64,
    armed: Option<u64>,
    arms: u64,
    early: u64,
}

impl<C: Clock + Drop> DeadlineStop<C> {
    /// It goes by this clock, and wasn't armed yet.
    pub fn new(clock: C) -> DeadlineStop<C>
        ensures clock { clock_of result ≡ clock }
        ensures end { end_of result ≡ None }
        ensures signal { deadline_signal result
            ≡ record { polls = 0; raised = 0; last = 0; armed = None; arms = 0; early = 0 } }
    {
        DeadlineStop {
            clock,
            end: None,
            polls: 0,
            raised: 0,
            last: 0,
            armed: None,
            arms: 0,
            early: 0,
        }
    }
}

impl<C: Clock + Drop> Stop for DeadlineStop<C> {
    ghost use Rattle.search_gate.specs.Deadline.{deadline_signal};

    ghost signal = { λ stop. deadline_signal stop };

    fn arm(&mut self, after_ms: Option<u64>)
        // As each stop.
        ensures armed { deadline_signal self.new ≡ armed_with (deadline_signal self.old) after_ms }
        // As this one alone: its end is so many milliseconds from what the clock answers, at most
        // the greatest number; or none.
        ensures end { end_of self.new ≡ end_after after_ms (C.answered (clock_of self.new)) }
        // The clock is asked once for that, and not at all where it is armed for no time.
        ensures asked { C.asked (clock_of self.new)
            ≡ asked_for after_ms (C.asked (clock_of self.old)) }
    {
        self.end = match after_ms {
            Some(milliseconds) => Some(self.clock.now().saturating_add(milliseconds)),
            None => None,
        };
        self.armed = after_ms;
        self.arms = self.arms.saturating_add(1);
        self.early = self.polls;
    }

    fn poll(&mut self) -> bool
        // As each stop.
        ensures polled { deadline_signal self.new ≡ polled (deadline_signal self.old) result }
        // As this one alone: it signals exactly where an end is set and what the clock answers is
        // at least that.
        ensures passed { IsTrue result
            ↔ HasPassed (end_of self.old) (C.answered (clock_of self.new)) }
        ensures end { end_of self.new ≡ end_of self.old }
        // The clock is asked once for that, and not at all where no end is set.
        ensures asked { C.asked (clock_of self.new)
            ≡ asked_for (end_of self.old) (C.asked (clock_of self.old)) }
    {
        self.polls = self.polls.saturating_add(1);
        let Some(end) = self.end else {
            return false;
        };
        if self.clock.now() >= end {
            self.raised = self.raised.saturating_add(1);
            self.last = self.polls;
            return true;
        }
        false
    }
}
