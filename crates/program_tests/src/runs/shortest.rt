// Runs of `shortest`, most of whose answers are another program's.
use super::examples::{GOLD, TWO_ROOKS};
use super::seen::{seen_by, seen_of, stops_at};
use crate::same::same;
use cmd_collection::{Onlooker, Report};
use cmd_cook::CheckOnlooker;
use cmd_shortest::LengthOnlooker;
use search_gate::{Gate, OpenGate};
use std::sync::atomic::{AtomicU64, Ordering};
use std::test::Fail;

const GOLD_SHORTEST: &str =
    "checkmate G*5b\nshortest 1\ncertificate 1 mate 1\nproblem 4k4/9/4P4/9/9/9/9/9/9 b G\n1 G*5b 4k4/9/4P4/9/9/9/9/9/9 b G\nend\nbound 1 0\nend\n";

const REST_SHORTEST: &str =
    "checkmate G*5b\nshortest 1\ncertificate 1 mate 1\nproblem 4k4/9/4P4/9/9/9/9/9/9 b G2r2b3g4s4n4l17p\n1 G*5b 4k4/9/4P4/9/9/9/9/9/9 b G2r2b3g4s4n4l17p\nend\nbound 1 0\nend\n";

const ROOKS_SHORTEST: &str =
    "checkmate R*2b 5b4a 1c1a\nshortest 2\ncertificate 1 mate 4\nproblem 9/4k4/8R/9/9/9/9/9/9 b R\n1 1c1a 3k5/7R1/8R/9/9/9/9/9/9 b -\n1 1c1a 4k4/7R1/8R/9/9/9/9/9/9 b -\n1 1c1a 5k3/7R1/8R/9/9/9/9/9/9 b -\n2 R*2b 9/4k4/8R/9/9/9/9/9/9 b R\nend\nbound 1 1\n1 9/4k4/8R/9/9/9/9/9/9 b R\nend\n";

const ROOKS_IN_ONE: &str =
    "none within 1\nproblem 9/4k4/8R/9/9/9/9/9/9 b R\nbound 1 1\n1 9/4k4/8R/9/9/9/9/9/9 b R\nend\n";

const KING_ALONE: &str =
    "none within 3\nproblem 4k4/9/9/9/9/9/9/9/9 b -\nbound 1 1\n3 4k4/9/9/9/9/9/9/9/9 b -\nend\n";

const KIF: &str =
    "| ・ ・ ・ ・v玉 ・ ・ ・ ・|\n| ・ ・ ・ ・ ・ ・ ・ ・ ・|\n| ・ ・ ・ ・ 歩 ・ ・ ・ ・|\n| ・ ・ ・ ・ ・ ・ ・ ・ ・|\n| ・ ・ ・ ・ ・ ・ ・ ・ ・|\n| ・ ・ ・ ・ ・ ・ ・ ・ ・|\n| ・ ・ ・ ・ ・ ・ ・ ・ ・|\n| ・ ・ ・ ・ ・ ・ ・ ・ ・|\n| ・ ・ ・ ・ ・ ・ ・ ・ ・|\n先手の持駒：金\n";

// Words, a problem's text, and the status, what the user is told beside the answer, and the answer.
static RUNS: [(&str, &str, u8, &str, &str); 11] = [
    ("shortest", GOLD, 0, "", GOLD_SHORTEST),
    ("shortest --kif", KIF, 0, "", GOLD_SHORTEST),
    ("shortest --rest", GOLD, 0, "", REST_SHORTEST),
    ("shortest", TWO_ROOKS, 0, "", ROOKS_SHORTEST),
    ("shortest --limit 2", TWO_ROOKS, 0, "", ROOKS_SHORTEST),
    ("shortest --limit 1", TWO_ROOKS, 0, "", ROOKS_IN_ONE),
    (
        "shortest --limit 3",
        "4k4/9/9/9/9/9/9/9/9 b - 1\n",
        0,
        "",
        KING_ALONE,
    ),
    (
        "shortest --expansions 1",
        TWO_ROOKS,
        1,
        "",
        "checkmate timeout\nunknown expansions 1\n",
    ),
    (
        "shortest",
        "4k4/9/9/9/9/9/9/9/4R4 b - 1\n",
        3,
        "defender in check",
        "",
    ),
    ("shortest", "", 3, "bad row at 0", ""),
    (
        "shortest",
        "4k4/9/4X4/9/9/9/9/9/9 b G 1\n",
        3,
        "bad piece at 7",
        "",
    ),
];

#[test]
fn a_shortest_mate_is_told(rt: HostRuntime) -> Result<(), Fail> {
    for (words, input, status, fault, answer) in RUNS {
        let seen = seen_of(&rt, words, input, (7, 0), (11, 0))?;
        let found = (seen.status, seen.fault.as_str(), seen.kept.as_str());
        same(&rt, (words, input), found, (status, fault, answer));
    }
    Ok(())
}

// Words, a problem, and what `check --bound` tells of the answer. The lengths are another
// program's.
static ACCEPTED: [(&str, &str, &str); 5] = [
    ("shortest", GOLD, "accepted shortest 1\n"),
    ("shortest", TWO_ROOKS, "accepted shortest 2\n"),
    ("shortest --limit 1", TWO_ROOKS, "accepted none within 1\n"),
    (
        "shortest --limit 3",
        "4k4/9/9/9/9/9/9/9/9 b - 1\n",
        "accepted none within 3\n",
    ),
    (
        "shortest --limit 2000",
        "5k3/9/9/9/9/9/9/9/4R4 b - 1\n",
        "accepted none within 2000\n",
    ),
];

#[test]
fn what_is_told_is_accepted(rt: HostRuntime) -> Result<(), Fail> {
    for (words, input, accepted) in ACCEPTED {
        let told = seen_of(&rt, words, input, (7, 0), (11, 0))?;
        let judged = seen_of(&rt, "check --bound", told.kept.as_str(), (7, 0), (11, 0))?;
        same(&rt, (words, input), judged.kept.as_str(), accepted);
    }
    Ok(())
}

#[test]
fn a_shortest_mate_is_given_up_where_it_is_stopped(rt: HostRuntime) -> Result<(), Fail> {
    let stopped = "checkmate timeout\nunknown stopped\n";
    // The poll at which it is stopped, 0 for none, and the status and what is kept.
    let table = [(1, 1, stopped), (2, 1, stopped), (0, 0, ROOKS_SHORTEST)];
    for (poll, status, kept) in table {
        let mut stops = stops_at(rt.alloc(), poll)?;
        let seen = seen_by(
            &rt,
            "shortest",
            TWO_ROOKS,
            (7, 0),
            (11, 0),
            &OpenGate,
            &mut stops,
        )?;
        same(&rt, poll, (seen.status, seen.kept.as_str()), (status, kept));
        for stop in stops.iter().skip(1) {
            same(&rt, poll, stop.polls(), 0);
        }
    }
    Ok(())
}

// Who looks on while a length is looked for: the lengths that were asked about, as digits, and how
// many expansions were made in all.
#[derive(Drop)]
struct Hearing {
    asked: AtomicU64,
    made: AtomicU64,
}

impl Gate for Hearing {
    fn pass(&self, _worker: u32, _expansion: u64) {}
}

impl CheckOnlooker for Hearing {}

impl LengthOnlooker for Hearing {
    fn asks(&self, moves: u32, _made: u64) {
        let before = self.asked.load(Ordering::SeqCst);
        let with_it = before.wrapping_mul(10).wrapping_add(u64::from(moves));
        self.asked.store(with_it, Ordering::SeqCst);
    }

    fn ends(&self, made: u64) {
        self.made.store(made, Ordering::SeqCst);
    }
}

impl Onlooker for Hearing {
    fn now(&self) -> u64 {
        0
    }

    fn begin(&self, _lines: usize) {}

    fn begin_round(&self) {}

    fn see(&self, _report: &Report) {}
}

#[test]
fn who_looks_on_is_told_each_length_that_is_asked_about(rt: HostRuntime) -> Result<(), Fail> {
    let hearing = Hearing {
        asked: AtomicU64::new(0),
        made: AtomicU64::new(0),
    };
    let mut stops = stops_at(rt.alloc(), 0)?;
    let seen = seen_by(
        &rt,
        "shortest",
        TWO_ROOKS,
        (7, 0),
        (11, 0),
        &hearing,
        &mut stops,
    )?;
    same(&rt, TWO_ROOKS, seen.kept.as_str(), ROOKS_SHORTEST);
    // First one move, which isn't enough, and then two.
    same(&rt, TWO_ROOKS, hearing.asked.load(Ordering::SeqCst), 12);
    same(
        &rt,
        TWO_ROOKS,
        hearing.made.load(Ordering::SeqCst) > 0,
        true,
    );
    Ok(())
}
