// The system's clock: the edge that is trusted, since nothing is told of what a system shows.
ghost use Rattle.std.specs.Prelude.{◌≡◌};
ghost use Rattle.tsume_io.specs.Standard.{last_shown, times_asked};

use search_gate::Clock;
use std::time;

/// The clock of std that never goes back, in whole milliseconds, at most 2^64 - 1. Where the system
/// doesn't tell the time, it answers what it last answered; at first 0.
#[derive(Drop)]
pub struct StdClock<R> {
    system: R,
    shown: u64,
    asks: u64,
}

impl<R: time::Clock + Drop> StdClock<R> {
    /// The clock of this system, which wasn't asked yet.
    pub fn new(system: R) -> StdClock<R>
        ensures shown { last_shown result ≡ 0 }
        ensures asks { times_asked result ≡ 0 }
    {
        StdClock {
            system,
            shown: 0,
            asks: 0,
        }
    }
}

impl<R: time::Clock + Send + Drop> Clock for StdClock<R> {
    ghost use Rattle.tsume_io.specs.Standard.{last_shown, times_asked};

    ghost answered = { λ clock. last_shown clock };

    ghost asked = { λ clock. times_asked clock };

    fn now(&mut self) -> u64 {
        self.asks = self.asks.saturating_add(1);
        if let Ok(time) = self.system.monotonic() {
            self.shown = u64::try_from(time.as_millis()).unwrap_or(u64::MAX);
        }
        self.shown
    }
}
