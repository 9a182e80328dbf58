// A worker over a port.
ghost use Rattle.std.specs.Prelude.{◌≡◌, ◌≤◌, ◌<◌, ◌++◌, ℕ, false, List, Some, None, IfSome, IfNone, length, MatchOption};
ghost use Rattle.visit_log.specs.Machine.{end_of};
ghost use Rattle.visit_log.specs.Visit.{Exchange, IsVisitLog};
ghost use Rattle.visit_log.specs.Run.{Leads};
ghost use Rattle.visit_log.specs.Counts.{to_come};
ghost use Rattle.worker_core.specs.Port.{Suits, KeepsOthers, WentBy};

use crate::{Port, Worker};
use std::alloc::Global;
use visit_log::{Reply, Request, WorkEnd, count_laws};

/// Has one request of a worker answered by the port, and says how the worker had ended where it has
/// none. The last request must be answered; the port must suit the worker: both are of one problem,
/// the port goes on (or the worker winds up), and holds the worker's own slots.
pub fn turn<P: Port>(alloc: Global, worker: &mut Worker, port: &mut P) -> Option<WorkEnd>
    requires idle { worker.old.waiting ≡ false }
    requires suits { Suits worker.old (P.book port.old) }
    ensures idle { worker.new.waiting ≡ false }
    ensures suits { Suits worker.new (P.book port.new) }
    ensures went { (events : List Exchange)
        × WentBy P.turn port.old port.new worker.old worker.new events
        × MatchOption result (length events ≡ 1) (λ end. length events ≡ 0) }
    ensures others { KeepsOthers worker.old worker.new (P.book port.old) (P.book port.new) }
    ensures less { IfNone result (to_come worker.new.state < to_come worker.old.state) }
    ensures ended { IfSome result (λ end. end_of worker.new.state ≡ Some end) }
{
    if let Some(end) = worker.end() {
        return Some(end);
    }
    count_laws();
    match worker.request() {
        Request::Poll => {
            let stop = port.poll();
            worker.advance(alloc, Reply::Poll(stop));
        }
        Request::Draw => {
            let draw = port.draw();
            worker.advance(alloc, Reply::Draw(draw));
        }
        Request::Claim => {
            let claim = port.claim();
            worker.advance(alloc, Reply::Claim(claim));
        }
        Request::Look(key) => match port.look(&key, worker.path()) {
            Ok(seen) => worker.advance(alloc, Reply::Look(seen)),
            Err(_) => worker.starve(),
        },
        Request::Enter { key, numbers } => {
            let kept = port.enter(&key, numbers);
            worker.advance(alloc, Reply::Enter(kept));
        }
        Request::Leave { kept, key, update } => {
            port.leave(kept, &key, update);
            worker.advance(alloc, Reply::Leave);
        }
        Request::Post(note) => {
            port.post(note);
            worker.advance(alloc, Reply::Post);
        }
        Request::End(end) => return Some(end),
    }
    None
}

/// Has a worker work over a port until it has ended, and says how. What it asks and is told is one
/// list, by which the port went; with the log before, it is a visit log. What the port holds beside
/// the worker's own slots stays as it was, and of these nothing is held any more.
pub fn work<P: Port>(alloc: Global, worker: &mut Worker, port: &mut P) -> WorkEnd
    requires idle { worker.old.waiting ≡ false }
    requires suits { Suits worker.old (P.book port.old) }
    ensures idle { worker.new.waiting ≡ false }
    ensures suits { Suits worker.new (P.book port.new) }
    ensures went { (events : List Exchange)
        × WentBy P.turn port.old port.new worker.old worker.new events
        × ((log : List Exchange) → Leads worker.old.task log worker.old.state
        → IsVisitLog worker.old.task (log ++ events) result) }
    ensures others { KeepsOthers worker.old worker.new (P.book port.old) (P.book port.new) }
    ensures ended { end_of worker.new.state ≡ Some result }
{
    'turns: loop {
        if let Some(end) = turn(alloc, worker, port) {
            worker.laws();
            return end;
        }
        worker.read_ahead(&*port);
    }
}

/// Has a worker work over a port for at most so many requests; none exactly where so many were
/// answered and the worker hasn't ended. All else is as [`work`] has it; where it hasn't ended, it
/// may go on so.
pub fn work_until<P: Port>(
    alloc: Global,
    worker: &mut Worker,
    port: &mut P,
    turns: u64,
) -> Option<WorkEnd>
    requires idle { worker.old.waiting ≡ false }
    requires suits { Suits worker.old (P.book port.old) }
    ensures idle { worker.new.waiting ≡ false }
    ensures suits { Suits worker.new (P.book port.new) }
    ensures went { (events : List Exchange)
        × WentBy P.turn port.old port.new worker.old worker.new events × (length events ≤ turns)
        × (result ≡ None → length events ≡ turns) }
    ensures others { KeepsOthers worker.old worker.new (P.book port.old) (P.book port.new) }
    ensures ended { end_of worker.new.state ≡ result }
{
    'turns: for _ in 0..turns {
        if let Some(end) = turn(alloc, worker, port) {
            return Some(end);
        }
    }
    worker.end()
}
