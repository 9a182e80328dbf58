// A run of `usi`.
ghost use Rattle.std.specs.Prelude.{◌≡◌, ◌≤◌, ◌⊎◌, All, length};
ghost use Rattle.tsume_io.specs.Faults.{Rose};
ghost use Rattle.search_limits.specs.declared.settings.TheConstants.{MOST_WORKERS};
ghost use Rattle.one_run.specs.Outside.{shown};
ghost use Rattle.one_run.specs.Stops.{signals};
ghost use Rattle.cmd_usi.specs.Talk.{IsFitInput, IsTalked, IsTalkCounted, Shows};

use crate::talked::{TalkEnd, Talked};
use crate::turn::Talk;
use search_gate::{Gate, Stop};
use std::sync::Wait;
use std::thread::Threads;
use tsume_io::{Sink, Source};
use usi_session::session_laws;

// Takes one turn after the other, till the session ends.
fn talk<R: Threads + Wait + AllocGlobal + Sync, S: Source, K: Sink, G: Gate, T: Stop + Drop>(
    rt: &R,
    source: &mut S,
    sink: &mut K,
    gate: &G,
    stops: &mut Vec<T>,
) -> Talked
    requires { MOST_WORKERS ≤ length stops.old.items }
    ensures { IsTalked (shown S.left S.faults source.old source.new)
        (shown K.kept K.faults sink.old sink.new)
        (signals T.signal stops.old.items stops.new.items) result }
{
    // What a session does over one line more.
    session_laws();
    let mut talk = Talk::new(rt.alloc());
    loop {
        match talk.turn(rt, source, sink, gate, stops) {
            Some(end) => {
                let replies = talk.into_replies();
                return Talked { replies, end };
            }
            None => {}
        }
    }
}

/// Serves a mate session of the USI protocol: takes a line of the source, of at most
/// [`MOST_LINE_BYTES`](input_lines::MOST_LINE_BYTES), has the session do what it does at it, writes
/// what that says or answers, and takes the next, till a line ends the session, or the source does.
/// A problem is solved with the session's options and the time of its line, by searches as those of
/// `solve`, before the next line is taken; its answer is the USI line alone. The gate is passed for
/// each visit of a position, as the worker that visits it (no clause says it). Errors: a line that
/// is too long, or more than [`MOST_INPUT_BYTES`](input_lines::MOST_INPUT_BYTES); a source or a
/// sink that failed; want of memory. The replies that were written stand then. (USI protocol:
/// `usi`, `isready`, `setoption`, `position`, `go mate`, `quit`; `checkmate`.)
pub fn usi<R: Threads + Wait + AllocGlobal + Sync, S: Source, K: Sink, G: Gate, T: Stop + Drop>(
    rt: &R,
    source: &mut S,
    sink: &mut K,
    gate: &G,
    stops: &mut Vec<T>,
) -> Talked
    // There is a stop for each worker that there may be.
    requires { MOST_WORKERS ≤ length stops.old.items }
    // In plain words: each reply shows what it says. A mate's problem is one, and none's is none,
    // each with a certificate that is valid for it and accepted, which the reply keeps.
    ensures replies { All Shows result.replies.items }

    // In full: the lines of the input were served one after the other, by what the session does at
    // them; what was written is what it said and the answers to the problems, in their order, and
    // each problem has one reply, which is true of it. Where the session wasn't over, that holds of
    // lines before it ended, and the reason has its cause. (No clause orders a read and a write.)
    ensures talked { IsTalked (shown S.left S.faults source.old source.new)
        (shown K.kept K.faults sink.old sink.new)
        (signals T.signal stops.old.items stops.new.items) result }

    // The counts of faults rise only where the session ends for it.
    ensures counted { IsTalkCounted (shown S.left S.faults source.old source.new)
        (shown K.kept K.faults sink.old sink.new) result.end }

    // An input that isn't too long, told by the source, is served to its end, unless the outside
    // fails or memory is wanted.
    ensures complete { IsFitInput (S.left source.old)
        → ¬ Rose (S.faults source.old) (S.faults source.new)
        → ¬ Rose (K.faults sink.old) (K.faults sink.new)
        → (result.end ≡ TalkEnd.Over) ⊎ (result.end ≡ TalkEnd.NoMemory) }
{
    talk(rt, source, sink, gate, stops)
}
