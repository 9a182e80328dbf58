// A stop that signals once for each time that it is raised.
use search_gate::Stop;

/// A stop that signals at the next poll once it is raised.
#[derive(Drop)]
pub struct FlagStop {
    /// Whether it signals at the next poll.
    pub is_raised: bool,
    polls: u64,
    raised: u64,
    last: u64,
    armed: Option<u64>,
    arms: u64,
    early: u64,
}

impl FlagStop {
    /// It isn't raised, and wasn't polled.
    pub fn new() -> FlagStop {
        FlagStop {
            is_raised: false,
            polls: 0,
            raised: 0,
            last: 0,
            armed: None,
            arms: 0,
            early: 0,
        }
    }
}

impl Stop for FlagStop {
    ghost signal = { λ s. record { polls = s.polls; raised = s.raised; last = s.last; armed = s.armed; arms = s.arms; early = s.early } };

    fn arm(&mut self, after_ms: Option<u64>) {
        self.armed = after_ms;
        self.arms = self.arms.saturating_add(1);
        self.early = self.polls;
    }

    fn poll(&mut self) -> bool {
        self.polls = self.polls.saturating_add(1);
        let is_raised = self.is_raised;
        if is_raised {
            self.raised = self.raised.saturating_add(1);
            self.last = self.polls;
            self.is_raised = false;
        }
        is_raised
    }
}
