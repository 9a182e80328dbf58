// Whether a search is to stop.
ghost use Rattle.std.specs.Prelude.{◌≡◌, ◌↔◌, IsTrue, Contains, None, false};
ghost use Rattle.search_gate.specs.Stop.{one_more, armed_with, polled};

/// What tells a worker that it is to stop, a deadline for one. A worker polls it before it draws a
/// visit, and nobody else does.
///
/// It tells of itself how often it was polled, how often it said so then, and at which poll last;
/// how often, and for what, it was armed; and how often it had been polled when it was armed last.
/// So its callers can say that it was armed before it was polled, and that it was polled no more
/// once it had signalled.
pub trait Stop: Send {
    ghost use Rattle.std.specs.Prelude.{◌≡◌};
    ghost use Rattle.search_gate.specs.Stop.{Signal, armed_with, polled};

    /// What it tells of itself.
    ghost signal: { Self → Signal };

    /// Arms it: it is to signal by itself so many milliseconds from now, or not by itself.
    fn arm(&mut self, after_ms: Option<u64>)
        ensures { signal self.new ≡ armed_with (signal self.old) after_ms };

    /// Whether the worker is to stop. It was polled once more, and where it says so, it signalled
    /// once more; nothing else changed that it tells.
    fn poll(&mut self) -> bool
        ensures { signal self.new ≡ polled (signal self.old) result };
}

/// A stop that never signals.
#[derive(Clone, Copy, Debug, PartialEq, Eq)]
pub struct QuietStop {
    polls: u64,
    armed: Option<u64>,
    arms: u64,
    early: u64,
}

impl QuietStop {
    /// It wasn't polled or armed yet.
    pub fn new() -> QuietStop
        ensures polls { result.polls ≡ 0 }
        ensures armed { result.armed ≡ None }
        ensures arms { result.arms ≡ 0 }
        ensures early { result.early ≡ 0 }
    {
        QuietStop {
            polls: 0,
            armed: None,
            arms: 0,
            early: 0,
        }
    }
}

impl Stop for QuietStop {
    ghost signal = { λ s. record { polls = s.polls; raised = 0; last = 0; armed = s.armed; arms = s.arms; early = s.early } };

    fn arm(&mut self, after_ms: Option<u64>) {
        self.armed = after_ms;
        self.arms = self.arms.saturating_add(1);
        self.early = self.polls;
    }

    fn poll(&mut self) -> bool {
        self.polls = self.polls.saturating_add(1);
        false
    }
}

/// A stop that signals at the polls whose numbers, from 1, are listed. Tests stand on it.
#[derive(Debug, Drop)]
pub struct MemStop {
    at: Vec<u64>,
    polls: u64,
    raised: u64,
    last: u64,
    armed: Option<u64>,
    arms: u64,
    early: u64,
}

impl MemStop {
    /// It wasn't polled or armed yet.
    pub fn new(at: Vec<u64>) -> MemStop
        ensures at { result.at ≡ at }
        ensures polls { result.polls ≡ 0 }
        ensures raised { result.raised ≡ 0 }
        ensures last { result.last ≡ 0 }
        ensures armed { result.armed ≡ None }
        ensures arms { result.arms ≡ 0 }
        ensures early { result.early ≡ 0 }
    {
        MemStop {
            at,
            polls: 0,
            raised: 0,
            last: 0,
            armed: None,
            arms: 0,
            early: 0,
        }
    }

    /// How often it was polled, up to 2^64 - 1.
    pub fn polls(&self) -> u64
        ensures { result ≡ self.now.polls }
    {
        self.polls
    }
}

impl Stop for MemStop {
    ghost use Rattle.search_gate.specs.Mem.{signal_of};

    ghost signal = { signal_of };

    fn arm(&mut self, after_ms: Option<u64>)
        // As each stop.
        ensures armed { signal_of self.new ≡ armed_with (signal_of self.old) after_ms }
        // As this one alone.
        ensures kept { self.new.at ≡ self.old.at }
    {
        self.armed = after_ms;
        self.arms = self.arms.saturating_add(1);
        self.early = self.polls;
    }

    fn poll(&mut self) -> bool
        // As each stop.
        ensures polled { signal_of self.new ≡ polled (signal_of self.old) result }
        // As this one alone.
        ensures listed { IsTrue result ↔ Contains self.old.at.items (one_more self.old.polls) }
        ensures kept { self.new.at ≡ self.old.at }
    {
        self.polls = self.polls.saturating_add(1);
        let stops = self.at.contains(&self.polls);
        if stops {
            self.raised = self.raised.saturating_add(1);
            self.last = self.polls;
        }
        stops
    }
}
