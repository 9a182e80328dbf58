// A turn of a session: a line is taken and served.
ghost use Rattle.std.specs.Prelude.{◌≡◌, ◌≤◌, ◌<◌, length, IfNone};
ghost use Rattle.input_lines.specs.declared.lines.TheConstants.{MOST_INPUT_BYTES};
ghost use Rattle.search_limits.specs.declared.settings.TheConstants.{MOST_WORKERS};
ghost use Rattle.one_run.specs.Outside.{shown};
ghost use Rattle.one_run.specs.Stops.{signals};
ghost use Rattle.cmd_usi.specs.Inside.{IsTurn, IsTurnCounted, first_talk, line_end, talk_view};

use crate::talked::TalkEnd;
use input_lines::{InputLines, LineEnd};
use search_gate::{Gate, Stop};
use std::alloc::Global;
use std::sync::Wait;
use std::thread::Threads;
use tsume_io::{Sink, Source};
use usi_serve::{Reply, ServeFault, Served, Serving, serve_line};

/// A session that goes on: itself, the lines of its input, and the replies so far.
#[derive(Drop)]
pub(crate) struct Talk {
    serving: Serving,
    lines: InputLines,
    replies: Vec<Reply>,
}

// Why a session ends whose next line isn't given.
fn end_of(end: LineEnd) -> TalkEnd
    ensures { result ≡ line_end end }
{
    match end {
        LineEnd::Fault => TalkEnd::Read,
        LineEnd::TooLong => TalkEnd::TooLong,
        LineEnd::NoMemory => TalkEnd::NoMemory,
    }
}

impl Talk {
    /// Before the first line. Takes no memory.
    pub(crate) fn new(alloc: Global) -> Talk
        ensures { talk_view result ≡ first_talk }
    {
        Talk {
            serving: Serving::new(),
            lines: InputLines::new(alloc),
            replies: Vec::new(alloc),
        }
    }

    /// The replies.
    pub(crate) fn into_replies(self) -> Vec<Reply>
        ensures { result ≡ self.replies }
    {
        self.replies
    }

    /// Takes the next line and serves it. What comes back is why the session ends, if it does.
    pub(crate) fn turn<
        R: Threads + Wait + AllocGlobal + Sync,
        S: Source,
        K: Sink,
        G: Gate,
        T: Stop + Drop,
    >(
        &mut self,
        rt: &R,
        source: &mut S,
        sink: &mut K,
        gate: &G,
        stops: &mut Vec<T>,
    ) -> Option<TalkEnd>
        requires { MOST_WORKERS ≤ length stops.old.items }
        ensures turn { IsTurn (talk_view self.old) (talk_view self.new)
            (shown S.left S.faults source.old source.new)
            (shown K.kept K.faults sink.old sink.new)
            (signals T.signal stops.old.items stops.new.items) result }
        ensures counted { IsTurnCounted (shown S.left S.faults source.old source.new)
            (shown K.kept K.faults sink.old sink.new) result }
        ensures goes_on { IfNone result (self.old.lines.given < self.new.lines.given) }
        ensures within { self.new.lines.given ≤ MOST_INPUT_BYTES }
        ensures same { length stops.new.items ≡ length stops.old.items }
    {
        let line = match self.lines.next(rt.alloc(), source) {
            Ok(Some(line)) => line,
            Ok(None) => return Some(TalkEnd::Over),
            Err(end) => return Some(end_of(end)),
        };
        // There is room for a reply before it is written.
        let Ok(()) = self.replies.reserve(1) else {
            return Some(TalkEnd::NoMemory);
        };
        match serve_line(rt, &mut self.serving, &line, sink, gate, stops) {
            Ok(Served::Next) => None,
            Ok(Served::Replied(reply)) => {
                self.replies.push_reserved(reply);
                None
            }
            Ok(Served::Quit) => Some(TalkEnd::Over),
            Err(ServeFault::Write) => Some(TalkEnd::Write),
            Err(ServeFault::NoMemory) => Some(TalkEnd::NoMemory),
        }
    }
}
