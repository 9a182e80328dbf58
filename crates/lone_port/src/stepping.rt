// One request of a worker in a world.
ghost use Rattle.std.specs.Prelude.{◌≡◌, ◌<◌, ◌++◌, ◌∷◌, [], List, false, Some, None, IfSome, IfNone};
ghost use Rattle.visit_log.specs.Machine.{end_of};
ghost use Rattle.visit_log.specs.Visit.{Exchange};
ghost use Rattle.visit_log.specs.Run.{Leads};
ghost use Rattle.visit_log.specs.Counts.{to_come};
ghost use Rattle.worker_core.specs.Port.{Suits, KeepsOthers};
ghost use Rattle.lone_port.specs.Lone.{book_of};
ghost use Rattle.lone_port.specs.World.{Steps};

use super::LonePort;
use std::alloc::Global;
use visit_log::WorkEnd;
use worker_core::{Worker, turn};

/// Has one request of a worker answered by the table and the desk, which are opened for it and say
/// that it is to stop where `stops` does; and says how the worker had ended where it has no
/// request, and then nothing changes. The last request must be answered, and the table and the desk
/// suit the worker: both are of one problem, they go on or the worker winds up, and its own slots
/// are held.
pub fn step(alloc: Global, port: &mut LonePort, worker: &mut Worker, stops: bool) -> Option<WorkEnd>
    requires idle { worker.old.waiting ≡ false }
    requires suits { Suits worker.old (book_of port.old) }
    ensures suits { Suits worker.new (book_of port.new) }
    ensures idle { worker.new.waiting ≡ false }
    // Whatever log the worker stood by, it stands by that log with this request and answer behind.
    ensures steps { IfNone result ((exchange : Exchange)
        × Steps stops port.old worker.old exchange port.new worker.new
        × ((log : List Exchange) → Leads worker.old.task log worker.old.state
        → Leads worker.old.task (log ++ exchange ∷ []) worker.new.state)) }
    ensures others { KeepsOthers worker.old worker.new (book_of port.old) (book_of port.new) }
    ensures goes_on { IfNone result (end_of worker.old.state ≡ None) }
    ensures less { IfNone result (to_come worker.new.state < to_come worker.old.state) }
    ensures ended { IfSome result (λ end. (end_of worker.old.state ≡ Some end)
        × (worker.new ≡ worker.old) × (port.new ≡ port.old)) }
{
    if let Some(end) = worker.end() {
        return Some(end);
    }
    port.open(stops);
    turn(alloc, worker, port)
}
