// Sessions, whose answers are another program's.
ghost use Rattle.std.specs.Prelude.{◌≤◌, IfOk, length};
ghost use Rattle.search_limits.specs.declared.settings.TheConstants.{MOST_WORKERS};

use crate::same::same;
use cmd_usi::{TalkEnd, usi};
use search_gate::{MemStop, OpenGate};
use search_limits::MOST_WORKERS;
use std::alloc::{AllocError, Global};
use std::sync::Wait;
use std::test::Fail;
use std::thread::Threads;
use tsume_io::{MemSink, MemSource};

// A stop for each worker that there may be; the first signals at its poll of this number, 0 for
// none.
fn stops_at(alloc: Global, poll: u64) -> Result<Vec<MemStop>, AllocError>
    ensures { IfOk result (λ stops. MOST_WORKERS ≤ length stops.items) }
{
    let mut stops = Vec::new(alloc);
    for worker in 0..MOST_WORKERS {
        let at = if worker == 0 { poll } else { 0 };
        stops.push(MemStop::new(vec![in alloc; at]?))?;
    }
    Ok(stops)
}

// What a session came to: why it ended, how many replies it gave, and what was written.
type Seen = (TalkEnd, usize, String);

// A session over a text that comes in such pieces, whose sink fails at its call of this number, and
// whose first stop signals at its poll of this number, 0 for none.
fn seen_of<R: Threads + Wait + AllocGlobal + Sync>(
    rt: &R,
    text: &str,
    piece: usize,
    write: u64,
    poll: u64,
) -> Result<Seen, Fail> {
    let alloc = rt.alloc();
    let text = Vec::from_slice(alloc, text.as_bytes())?;
    let mut source = MemSource::make(text, piece.max(1), Vec::new(alloc));
    let mut sink = MemSink::make(alloc, 1_000, 100, vec![in alloc; write]?)?;
    let mut stops = stops_at(alloc, poll)?;
    let talked = usi(rt, &mut source, &mut sink, &OpenGate, &mut stops);
    let kept = String::from_utf8(Vec::from_slice(alloc, sink.kept())?)?;
    Ok((talked.end, talked.replies.len(), kept))
}

const GOLD: &str = "position sfen 4k4/9/4P4/9/9/9/9/9/9 b G 1";

#[test]
fn a_session_is_served_to_its_end(rt: HostRuntime) -> Result<(), Fail> {
    let rows = [
        ("", 0, ""),
        ("quit\nisready\n", 0, ""),
        ("isready\nquit x\nisready", 0, "readyok\nreadyok\n"),
        (
            "position startpos\ngo mate infinite\n",
            1,
            "checkmate nomate\n",
        ),
        (
            "position sfen 4k4/9/4P4/9/9/9/9/9/9 b G 1\ngo mate infinite\nquit\n",
            1,
            "checkmate G*5b\n",
        ),
        (
            "position sfen 4k4/9/4P4/9/9/9/9/9/9 b G 1 moves 5c5d\ngo mate 1000\n",
            0,
            "info string illegal move 1 5c5d\ncheckmate notimplemented\n",
        ),
        (
            "setoption name Rows value 16\r\nposition sfen 9/4k4/8R/9/9/9/9/9/9 b R\r\ngo mate infinite\r\nsetoption name Expansions value 1\r\ngo mate infinite\r\nsetoption name Workers value 2\r\ngo mate 86400000",
            3,
            "checkmate R*2b 5b4a 1c1a\ncheckmate timeout\ncheckmate timeout\n",
        ),
    ];
    for (text, replies, wanted) in rows {
        for piece in [1, 7, 5_000] {
            let (end, count, kept) = seen_of(&rt, text, piece, 0, 0)?;
            let found = (end, count, kept.as_str());
            same(&rt, (text, piece), found, (TalkEnd::Over, replies, wanted));
        }
    }
    Ok(())
}

#[test]
fn a_session_that_breaks_off_says_why(rt: HostRuntime) -> Result<(), Fail> {
    let alloc = rt.alloc();
    let text = format!(in alloc; "{GOLD}\ngo mate infinite\nisready\n")?;
    // The sink's call that fails, and what is kept then: answers are of one call each here.
    let rows = [
        (1, TalkEnd::Write, 0, ""),
        (2, TalkEnd::Write, 1, "checkmate G*5b\n"),
        (3, TalkEnd::Over, 1, "checkmate G*5b\nreadyok\n"),
    ];
    for (write, end, replies, wanted) in rows {
        let (found_end, count, kept) = seen_of(&rt, text.as_str(), 7, write, 0)?;
        let found = (found_end, count, kept.as_str());
        same(&rt, write, found, (end, replies, wanted));
    }
    // A search that is stopped at its second poll.
    let (end, count, kept) = seen_of(&rt, text.as_str(), 7, 0, 2)?;
    let found = (end, count, kept.as_str());
    same(
        &rt,
        "stopped",
        found,
        (TalkEnd::Over, 1, "checkmate timeout\nreadyok\n"),
    );
    Ok(())
}
