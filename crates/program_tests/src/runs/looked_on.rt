// Runs of a collection on which somebody looks.
use super::examples::{MANY, MANY_TEXT};
use super::seen::{seen_by, stops_at};
use crate::same::same;
use cmd_collection::{Onlooker, Report};
use cmd_cook::CheckOnlooker;
use cmd_shortest::LengthOnlooker;
use search_gate::Gate;
use std::sync::atomic::{AtomicU64, Ordering};
use std::test::Fail;

// Somebody who counts what is told.
#[derive(Drop)]
struct Looker {
    lines: AtomicU64,
    faults: AtomicU64,
    others: AtomicU64,
}

impl Looker {
    fn new() -> Looker {
        Looker {
            lines: AtomicU64::new(0),
            faults: AtomicU64::new(0),
            others: AtomicU64::new(0),
        }
    }

    // What was told.
    fn told(&self) -> (u64, u64, u64) {
        (
            self.lines.load(Ordering::SeqCst),
            self.faults.load(Ordering::SeqCst),
            self.others.load(Ordering::SeqCst),
        )
    }
}

impl Gate for Looker {
    fn pass(&self, _worker: u32, _expansion: u64) {}
}

impl CheckOnlooker for Looker {}

impl LengthOnlooker for Looker {}

impl Onlooker for Looker {
    fn now(&self) -> u64 {
        0
    }

    fn begin(&self, lines: usize) {
        self.lines.store(lines as u64, Ordering::SeqCst);
    }

    fn begin_round(&self) {}

    fn see(&self, report: &Report) {
        let counted = match report {
            Report::Fault(_) => &self.faults,
            Report::Solved(_) => &self.others,
        };
        counted.fetch_add(1, Ordering::SeqCst);
    }
}

// Words, a text, the status, what is kept, and what somebody who looks on is told: how many lines
// there are, how many are faults, and how many are problems.
static LOOKED_ON: [(&str, &str, u8, &str, (u64, u64, u64)); 4] = [
    ("collection", MANY, 3, MANY_TEXT, (0, 0, 0)),
    ("collection --progress", MANY, 3, MANY_TEXT, (3, 1, 2)),
    (
        "collection --progress --threads 1",
        MANY,
        3,
        MANY_TEXT,
        (3, 1, 2),
    ),
    (
        "collection --progress",
        "",
        0,
        "problems 0 mate 0 nomate 0 unknown 0 fault 0\n",
        (0, 0, 0),
    ),
];

#[test]
fn a_collection_is_told_of_as_asked(rt: HostRuntime) -> Result<(), Fail> {
    for (words, input, status, kept, told) in LOOKED_ON {
        let looker = Looker::new();
        let mut stops = stops_at(rt.alloc(), 0)?;
        let seen = seen_by(&rt, words, input, (7, 0), (11, 0), &looker, &mut stops)?;
        same(
            &rt,
            words,
            (seen.status, seen.kept.as_str()),
            (status, kept),
        );
        same(&rt, words, looker.told(), told);
    }
    Ok(())
}
