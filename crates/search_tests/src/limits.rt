// Counts of expansions, gates and stops.
use crate::same::same;
use search_gate::{Clock, DeadlineStop, Gate, MemStop, OpenGate, QuietStop, Stop};
use search_limits::{Expansions, MOST_EXPANSIONS};
use std::test::Fail;

#[test]
fn expansions_are_counted_from_1_to_their_limit(rt: HostRuntime) {
    let table = [
        (0, None),
        (1, Some(1)),
        (MOST_EXPANSIONS, Some(MOST_EXPANSIONS)),
        (MOST_EXPANSIONS + 1, None),
    ];
    for (count, wanted) in table {
        let found = Expansions::of(count).map(|expansions| expansions.count);
        same(&rt, count, found, wanted);
    }
}

#[test]
fn an_open_gate_lets_everybody_pass() {
    OpenGate.pass(1, 1);
}

#[test]
fn a_stop_signals_at_the_listed_polls(rt: HostRuntime) -> Result<(), Fail> {
    let mut stop = MemStop::new(vec![in rt.alloc(); 2, 4]?);
    for wanted in [false, true, false, true, false] {
        let found = stop.poll();
        same(&rt, stop.polls(), found, wanted);
    }
    let mut quiet = QuietStop::new();
    quiet.arm(Some(1));
    same(&rt, 0, quiet.poll(), false);
    Ok(())
}

// A clock that shows one time after another, and then the last.
#[derive(Debug, Drop)]
struct ListedClock {
    times: Vec<u64>,
    next: usize,
    shown: u64,
    asks: u64,
}

impl Clock for ListedClock {
    ghost answered = { λ clock. clock.shown };

    ghost asked = { λ clock. clock.asks };

    fn now(&mut self) -> u64 {
        self.asks = self.asks.saturating_add(1);
        if let Some(time) = self.times.get(self.next) {
            self.shown = *time;
            self.next = self.next.saturating_add(1);
        }
        self.shown
    }
}

fn stop_at(times: Vec<u64>) -> DeadlineStop<ListedClock> {
    DeadlineStop::new(ListedClock {
        times,
        next: 0,
        shown: 0,
        asks: 0,
    })
}

#[test]
fn a_deadline_stops_from_its_end_on(rt: HostRuntime) -> Result<(), Fail> {
    let mut stop = stop_at(vec![in rt.alloc();
        1_000,
        1_000,
        1_499,
        1_500,
        1_400,
        1_501,
        u64::MAX,
    ]?);
    same(&rt, "it isn't armed yet", stop.poll(), false);
    stop.arm(Some(500));
    for wanted in [false, false, true, false, true] {
        same(&rt, "it is armed for 500", stop.poll(), wanted);
    }
    stop.arm(None);
    same(&rt, "it is armed for no time", stop.poll(), false);
    stop.arm(Some(2));
    same(
        &rt,
        "the end is the greatest number, which is shown",
        stop.poll(),
        true,
    );
    Ok(())
}
