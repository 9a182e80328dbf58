// The clock of who looks on, as a stop goes by it.
use crate::Onlooker;
use search_gate::Clock;

/// The clock of who looks on. It tells of itself what it last answered, and how often it was asked.
#[derive(Drop)]
pub(crate) struct LookerClock<'b, O> {
    onlooker: &'b O,
    shown: u64,
    asks: u64,
}

impl<'b, O: Onlooker> LookerClock<'b, O> {
    /// The clock of this one, which wasn't asked yet.
    pub(crate) fn new(onlooker: &'b O) -> LookerClock<'b, O> {
        LookerClock {
            onlooker,
            shown: 0,
            asks: 0,
        }
    }
}

impl<'b, O: Onlooker> Clock for LookerClock<'b, O> {
    ghost answered = { λ clock. clock.shown };

    ghost asked = { λ clock. clock.asks };

    fn now(&mut self) -> u64 {
        self.asks = self.asks.saturating_add(1);
        self.shown = self.onlooker.now();
        self.shown
    }
}
