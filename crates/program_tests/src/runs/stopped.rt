// Runs that pass a gate and poll stops.
ghost use Rattle.std.specs.Prelude.{◌≡◌, IfOk, vec_len};
ghost use Rattle.search_limits.specs.declared.settings.TheConstants.{MOST_WORKERS};

use super::examples::{GOLD, NO_CHECK_TEXT, TWO_ROOKS, TWO_ROOKS_TEXT};
use super::seen::{seen_by, stops_at};
use crate::same::same;
use cmd_collection::{Onlooker, Report};
use cmd_cook::CheckOnlooker;
use cmd_shortest::LengthOnlooker;
use search_gate::{Clock, DeadlineStop, Gate, OpenGate};
use search_limits::MOST_WORKERS;
use std::alloc::{AllocError, Global};
use std::sync::atomic::{AtomicU64, Ordering};
use std::test::Fail;

// A gate that counts how often it is passed, and how often not as the first worker with the next
// number.
#[derive(Drop)]
struct Counting {
    passed: AtomicU64,
    wrong: AtomicU64,
}

impl Gate for Counting {
    fn pass(&self, worker: u32, expansion: u64) {
        let before = self.passed.fetch_add(1, Ordering::SeqCst);
        if worker != 1 || expansion != before.wrapping_add(1) {
            self.wrong.fetch_add(1, Ordering::SeqCst);
        }
    }
}

impl CheckOnlooker for Counting {}

impl LengthOnlooker for Counting {}

impl Onlooker for Counting {
    fn now(&self) -> u64 {
        0
    }

    fn begin(&self, _lines: usize) {}

    fn begin_round(&self) {}

    fn see(&self, _report: &Report) {}
}

#[test]
fn the_gate_is_passed_for_each_visit(rt: HostRuntime) -> Result<(), Fail> {
    // Another program solves it with 85 visits, and not with 84.
    let problem = "9/9/3p5/2K6/k8/1L7/1+r3+R3/9/9 b 2GLsn 1\n";
    let gate = Counting {
        passed: AtomicU64::new(0),
        wrong: AtomicU64::new(0),
    };
    let mut stops = stops_at(rt.alloc(), 0)?;
    let seen = seen_by(&rt, "solve", problem, (7, 0), (11, 0), &gate, &mut stops)?;
    same(&rt, problem, seen.status, 0);
    same(&rt, problem, gate.passed.load(Ordering::SeqCst), 85);
    same(&rt, problem, gate.wrong.load(Ordering::SeqCst), 0);
    Ok(())
}

// A clock that shows a millisecond more each time it is read.
#[derive(Drop)]
struct TickingClock {
    shown: u64,
    asks: u64,
}

impl Clock for TickingClock {
    ghost answered = { λ clock. clock.shown };

    ghost asked = { λ clock. clock.asks };

    fn now(&mut self) -> u64 {
        self.asks = self.asks.saturating_add(1);
        self.shown = self.shown.saturating_add(1);
        self.shown
    }
}

// A stop for each worker that there may be, by a clock of its own.
fn deadlines(alloc: Global) -> Result<Vec<DeadlineStop<TickingClock>>, AllocError>
    ensures { IfOk result (λ stops. vec_len stops ≡ MOST_WORKERS) }
{
    let mut stops = Vec::new(alloc);
    for _ in 0..MOST_WORKERS {
        stops.push(DeadlineStop::new(TickingClock { shown: 0, asks: 0 }))?;
    }
    Ok(stops)
}

// Words, and the status and what is kept: the clock is read when the stop is armed and at each
// poll, once before each visit.
static UNTIL: [(&str, u8, &str); 5] = [
    (
        "solve --deadline 1",
        1,
        "checkmate timeout\nunknown stopped\n",
    ),
    (
        "solve --deadline 2 --expansions 1",
        1,
        "checkmate timeout\nunknown stopped\n",
    ),
    (
        "solve --deadline 3 --expansions 1",
        1,
        "checkmate timeout\nunknown expansions 1\n",
    ),
    ("solve --deadline 86400000", 0, TWO_ROOKS_TEXT),
    ("solve", 0, TWO_ROOKS_TEXT),
];

#[test]
fn a_deadline_counts_from_when_the_search_begins(rt: HostRuntime) -> Result<(), Fail> {
    for (words, status, kept) in UNTIL {
        let mut stops = deadlines(rt.alloc())?;
        let seen = seen_by(
            &rt,
            words,
            TWO_ROOKS,
            (7, 0),
            (11, 0),
            &OpenGate,
            &mut stops,
        )?;
        same(
            &rt,
            words,
            (seen.status, seen.kept.as_str()),
            (status, kept),
        );
    }
    Ok(())
}

// Of a check without an answer it is known that it mates; behind the others no search begins.
const LATE: &str =
    "cook open 7\ncheck 5c5b unknown stopped\ncheck 5c5b+ unknown stopped\ncheck G*4a unknown stopped\ncheck G*4b unknown stopped\ncheck G*5b mate 1 0\ncheck G*6a unknown stopped\ncheck G*6b unknown stopped\nend\n";

#[test]
fn a_deadline_is_of_all_searches_of_first_checks(rt: HostRuntime) -> Result<(), Fail> {
    let mut stops = deadlines(rt.alloc())?;
    let seen = seen_by(
        &rt,
        "cook --deadline 1",
        GOLD,
        (7, 0),
        (11, 0),
        &OpenGate,
        &mut stops,
    )?;
    same(
        &rt,
        "cook --deadline 1",
        (seen.status, seen.kept.as_str()),
        (1, LATE),
    );
    Ok(())
}

// Somebody whose clock shows a millisecond more each time it is read.
#[derive(Drop)]
struct Ticking {
    shown: AtomicU64,
}

impl Gate for Ticking {
    fn pass(&self, _worker: u32, _expansion: u64) {}
}

impl CheckOnlooker for Ticking {}

impl LengthOnlooker for Ticking {}

impl Onlooker for Ticking {
    fn now(&self) -> u64 {
        self.shown.fetch_add(1, Ordering::SeqCst)
    }

    fn begin(&self, _lines: usize) {}

    fn begin_round(&self) {}

    fn see(&self, _report: &Report) {}
}

// Two problems that take more than one visit, and one line that is none.
const THREE_LINES: &str =
    "9/4k4/8R/9/9/9/9/9/9 b R 1\n9/4k4/8R/9/9/9/9/9/9 b R 1\n4k4/9/4X4/9/9/9/9/9/9 b G\n";

// Words, and what is kept: the clock is read when a stop is armed and at each poll, once before
// each visit.
static EACH_UNTIL: [(&str, &str); 5] = [
    (
        "collection --threads 1 --deadline 1",
        "1 unknown stopped\n2 unknown stopped\n3 fault bad piece at 7\nproblems 3 mate 0 nomate 0 unknown 2 fault 1\n",
    ),
    (
        "collection --threads 1 --deadline 2 --expansions 1",
        "1 unknown stopped\n2 unknown stopped\n3 fault bad piece at 7\nproblems 3 mate 0 nomate 0 unknown 2 fault 1\n",
    ),
    (
        "collection --threads 1 --deadline 3 --expansions 1",
        "1 unknown expansions 1\n2 unknown expansions 1\n3 fault bad piece at 7\nproblems 3 mate 0 nomate 0 unknown 2 fault 1\n",
    ),
    (
        "collection --threads 2 --deadline 86400000",
        "1 mate R*2b 5b4a 1c1a\n2 mate R*2b 5b4a 1c1a\n3 fault bad piece at 7\nproblems 3 mate 2 nomate 0 unknown 0 fault 1\n",
    ),
    (
        "collection",
        "1 mate R*2b 5b4a 1c1a\n2 mate R*2b 5b4a 1c1a\n3 fault bad piece at 7\nproblems 3 mate 2 nomate 0 unknown 0 fault 1\n",
    ),
];

#[test]
fn each_problem_of_a_collection_has_its_time(rt: HostRuntime) -> Result<(), Fail> {
    for (words, kept) in EACH_UNTIL {
        let clock = Ticking {
            shown: AtomicU64::new(0),
        };
        // A collection leaves these as they are.
        let mut stops = stops_at(rt.alloc(), 1)?;
        let seen = seen_by(&rt, words, THREE_LINES, (7, 0), (11, 0), &clock, &mut stops)?;
        same(&rt, words, (seen.status, seen.kept.as_str()), (3, kept));
        for stop in stops.as_slice() {
            same(&rt, words, stop.polls(), 0);
        }
    }
    Ok(())
}

#[test]
fn a_search_ends_where_it_is_stopped(rt: HostRuntime) -> Result<(), Fail> {
    let stopped = "checkmate timeout\nunknown stopped\n";
    // Words, a problem, the poll at which the worker is stopped, and the status and what is kept.
    let table = [
        ("solve", TWO_ROOKS, 1, 1, stopped),
        ("solve --expansions 1", TWO_ROOKS, 2, 1, stopped),
        // The stop comes too late: all expansions are used up; the problem is solved.
        (
            "solve --expansions 1",
            TWO_ROOKS,
            3,
            1,
            "checkmate timeout\nunknown expansions 1\n",
        ),
        ("solve", "4k4/9/9/9/9/9/9/9/9 b - 1\n", 2, 0, NO_CHECK_TEXT),
    ];
    for (words, input, poll, status, kept) in table {
        let mut stops = stops_at(rt.alloc(), poll)?;
        let seen = seen_by(&rt, words, input, (7, 0), (11, 0), &OpenGate, &mut stops)?;
        let row = (words, input, poll);
        same(&rt, row, (seen.status, seen.kept.as_str()), (status, kept));
        same(&rt, row, seen.fault.as_str(), "");
    }
    Ok(())
}
