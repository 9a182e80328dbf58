// What a session does at a line is done.
ghost use Rattle.std.specs.Prelude.{◌≡◌, ◌≤◌, length};
ghost use Rattle.search_limits.specs.declared.settings.TheConstants.{MOST_WORKERS};
ghost use Rattle.one_run.specs.Outside.{shown};
ghost use Rattle.one_run.specs.Stops.{AreUnused, Signals, signals};
ghost use Rattle.usi_session.specs.Seen.{IsFit, act_seen};
ghost use Rattle.usi_session.specs.Sessions.{Says, first_session};
ghost use Rattle.usi_serve.specs.Served.{IsLineServed};
ghost use Rattle.usi_serve.specs.Inside.{IsActServed, solve_seen};

use crate::{Reply, reply_text};
use cmd_solve::{Question, solve_problem};
use search_crew::Tables;
use search_gate::{Gate, Stop};
use std::marker::Model;
use std::sync::Wait;
use std::thread::Threads;
use tsume_io::{Sink, write_all};
use usi_session::{Act, Session, Solve, session_laws};

/// What came of a line that was served.
#[derive(Drop)]
pub enum Served {
    /// What the session said, if anything, was written.
    Next,
    /// A problem was solved as far as it went, and the answer was written.
    Replied(Reply),
    /// The session ended.
    Quit,
}

/// Why a line wasn't served.
#[derive(Clone, Copy, Debug, PartialEq, Eq)]
pub enum ServeFault {
    /// The sink failed.
    Write,
    /// Memory was wanted and not there.
    NoMemory,
}

/// A session that is served: itself, and the tables that its searches use one after the other.
/// Contracts see the session alone.
#[derive(Drop)]
pub struct Serving {
    session: Session,
    tables: Tables,
}

impl Model for Serving {
    ghost use Rattle.usi_session.specs.Sessions.{SessionView};

    ghost Value = { SessionView };

    ghost view = { λ s. s.session };
}

impl Serving {
    /// A session before its first line. Takes no memory.
    pub fn new() -> Serving
        ensures { result ≡ first_session }
    {
        Serving {
            session: Session::make(),
            tables: Tables::new(),
        }
    }
}

// Writes what the session says.
fn say<K: Sink>(text: &[u8], sink: &mut K) -> Result<Served, ServeFault>
    ensures { (stops : Signals) → AreUnused stops
        → IsActServed (Says text.now) stops (shown K.kept K.faults sink.old sink.new) result }
{
    match write_all(sink, text) {
        Ok(()) => Ok(Served::Next),
        Err(_) => Err(ServeFault::Write),
    }
}

// Solves what is asked, and writes the answer.
fn serve_solve<R: Threads + Wait + AllocGlobal + Sync, K: Sink, G: Gate, T: Stop + Drop>(
    rt: &R,
    asked: Solve,
    tables: &mut Tables,
    sink: &mut K,
    gate: &G,
    stops: &mut Vec<T>,
) -> Result<Served, ServeFault>
    requires { asked.settings.workers ≤ length stops.old.items }
    ensures { IsActServed (solve_seen asked)
        (signals T.signal stops.old.items stops.new.items)
        (shown K.kept K.faults sink.old sink.new) result }
{
    let question = Question {
        problem: &asked.problem,
        settings: &asked.settings,
        after_ms: asked.millis,
    };
    let Ok(solution) = solve_problem(rt, &question, tables, gate, stops) else {
        return Err(ServeFault::NoMemory);
    };
    let Ok(text) = reply_text(rt.alloc(), &solution) else {
        return Err(ServeFault::NoMemory);
    };
    let reply = Reply { asked, solution };
    match write_all(sink, &text) {
        Ok(()) => Ok(Served::Replied(reply)),
        Err(_) => Err(ServeFault::Write),
    }
}

// Does what the session does at a line.
fn serve_act<R: Threads + Wait + AllocGlobal + Sync, K: Sink, G: Gate, T: Stop + Drop>(
    rt: &R,
    act: Act,
    tables: &mut Tables,
    sink: &mut K,
    gate: &G,
    stops: &mut Vec<T>,
) -> Result<Served, ServeFault>
    requires stops { MOST_WORKERS ≤ length stops.old.items }
    requires fit { IsFit act }
    ensures { IsActServed (act_seen act)
        (signals T.signal stops.old.items stops.new.items)
        (shown K.kept K.faults sink.old sink.new) result }
{
    match act {
        Act::Say(text) => say(&text, sink),
        Act::Solve(asked) => serve_solve(rt, asked, tables, sink, gate, stops),
        Act::Quit => Ok(Served::Quit),
        Act::Nothing => Ok(Served::Next),
    }
}

/// Serves a line of a session, which comes without its line feed: the session takes it, what it
/// says is written to the sink, and a problem that it is asked to have solved is solved with its
/// options and its time, and the USI answer written. (No clause orders these.) The stops are armed
/// for such a problem alone, once each, for its time or for none, and polled by the workers of its
/// search; the gate is passed for each visit of a position, as the worker that visits it (no
/// clause says it). Errors: a sink that failed, which has kept a part of the line's text; want of
/// memory: then the session is as it was, and nothing is written. (USI protocol: `usi`, `isready`,
/// `setoption`, `position`, `go mate`, `quit`.)
pub fn serve_line<R: Threads + Wait + AllocGlobal + Sync, K: Sink, G: Gate, T: Stop + Drop>(
    rt: &R,
    serving: &mut Serving,
    line: &[u8],
    sink: &mut K,
    gate: &G,
    stops: &mut Vec<T>,
) -> Result<Served, ServeFault>
    // There is a stop for each worker that there may be.
    requires { MOST_WORKERS ≤ length stops.old.items }
    // What was done is what the session does at the line, and what was written is its text.
    ensures { IsLineServed serving.old line.now serving.new
        (signals T.signal stops.old.items stops.new.items)
        (shown K.kept K.faults sink.old sink.new) result }
{
    // What is solved is the session's own, which stays as it is.
    session_laws();
    let Serving { session, tables } = serving;
    let Ok(act) = session.line(rt.alloc(), line) else {
        return Err(ServeFault::NoMemory);
    };
    serve_act(rt, act, tables, sink, gate, stops)
}
