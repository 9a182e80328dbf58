// What the user is told on how a run ended.
use super::examples::{GOLD, OPEN_ESCAPE, TWO_ROOKS};
use super::seen::stops_at;
use crate::lines::words_of;
use crate::same::same;
use search_gate::OpenGate;
use std::sync::Wait;
use std::test::Fail;
use std::thread::Threads;
use tsume_app::{OpenPipe, Pipe, Streams, WordsRead, run_and_tell};
use tsume_io::{MemSink, MemSource};

// Words, an input, the failing call of the sink and of the user's sink; the status, and what the
// user is told.
static TOLD: [(&str, &str, u64, u64, u8, &str); 11] = [
    ("solve", GOLD, 0, 0, 0, ""),
    ("solve --expansions 1", TWO_ROOKS, 0, 0, 1, ""),
    (
        "solve",
        "",
        0,
        0,
        3,
        "tsume: bad row at 0\nThe input is empty. A problem is one line, an SFEN: the board, the side to\nmove, and the hands.\n",
    ),
    (
        "solve",
        "4k4/9/9/9/9/9/9/9/4R4 b - 1\n",
        0,
        0,
        3,
        "tsume: defender in check\nThe side to move attacks, and the other king is in check already: no legal move\nled here. Is the other side to move?\n",
    ),
    (
        "solve --kif",
        GOLD,
        0,
        0,
        3,
        "tsume: no diagram\nThis looks like an SFEN, which `solve`, `cook` and `shortest` read without\n--kif.\n",
    ),
    (
        "solve --rows 24",
        GOLD,
        0,
        0,
        2,
        "tsume: rows is no power of two\n",
    ),
    (
        "solve --expansions 1e9",
        GOLD,
        0,
        0,
        2,
        "tsume: error: invalid value '1e9' for '--expansions <N>': invalid digit found in string\n\nFor more information, try '--help'.\nExpected: digits alone, with no unit, comma or exponent. A million is 1000000.\n",
    ),
    (
        "check --problem problem.sfen",
        GOLD,
        0,
        0,
        2,
        "tsume: bad piece at 2\n--problem takes an SFEN itself, in quotes, and not the name of its file:\ntsume check --problem \"$(cat PROBLEM)\" CERTIFICATE\n",
    ),
    (
        "solve",
        GOLD,
        1,
        0,
        5,
        "tsume: write fault\nThe answer couldn't be written whole, so don't rely on what stands there of it.\nIs the disk full, or did the reader of a pipe end?\n",
    ),
    ("check", OPEN_ESCAPE, 0, 0, 7, ""),
    ("check", GOLD, 0, 2, 3, "tsume: bad "),
];

// A pipe whose reader went away.
#[derive(Clone, Copy, Debug, PartialEq, Eq)]
struct ClosedPipe;

impl Pipe for ClosedPipe {
    fn is_closed(&self) -> bool {
        true
    }
}

// The status of a run on the words of a line, with this pipe and sinks that fail at the calls of
// these numbers, and what the user's has kept.
fn told<R: Threads + Wait + AllocGlobal + Sync, P: Pipe>(
    rt: &R,
    line: &str,
    input: &str,
    pipe: &P,
    sink: u64,
    user: u64,
) -> Result<(u8, String), Fail> {
    let alloc = rt.alloc();
    let words = words_of(alloc, line)?;
    let bytes = Vec::from_slice(alloc, input.as_bytes())?;
    let mut streams = Streams {
        source: MemSource::make(bytes, 7, Vec::new(alloc)),
        sink: MemSink::make(alloc, 4096, 11, Vec::from_slice(alloc, &[sink])?)?,
        errors: MemSink::make(alloc, 4096, 11, Vec::from_slice(alloc, &[user])?)?,
    };
    let words = WordsRead::new(alloc, words);
    let mut stops = stops_at(alloc, 0)?;
    let status = run_and_tell(rt, words, &mut streams, pipe, &OpenGate, &mut stops);
    let kept = Vec::from_slice(alloc, streams.errors.kept())?;
    Ok((status, String::from_utf8(kept)?))
}

#[test]
fn the_user_is_told_how_a_run_ended(rt: HostRuntime) -> Result<(), Fail> {
    for (line, input, sink, user, status, wanted) in TOLD {
        let (found, text) = told(&rt, line, input, &OpenPipe, sink, user)?;
        same(&rt, (line, input), (found, text.as_str()), (status, wanted));
    }
    Ok(())
}

#[test]
fn a_reader_that_went_away_is_no_mistake(rt: HostRuntime) -> Result<(), Fail> {
    for (line, input, sink, status, wanted) in [
        ("solve", GOLD, 1, 5, ""),
        ("help check", "", 2, 5, ""),
        ("solve", GOLD, 0, 0, ""),
        (
            "solve --rows 24",
            GOLD,
            0,
            2,
            "tsume: rows is no power of two\n",
        ),
    ] {
        let (found, text) = told(&rt, line, input, &ClosedPipe, sink, 0)?;
        same(&rt, (line, input), (found, text.as_str()), (status, wanted));
    }
    Ok(())
}
