// Workers over any port.
ghost use Rattle.std.specs.Prelude.{◌≡◌, ◌<◌, true, length};
ghost use Rattle.visit_log.specs.Run.{WorkerView};
ghost use Rattle.world_play.specs.Crew.{IsCrew, ChangesAt, IsTurned, IsStarved};

use std::alloc::Global;
use visit_log::{WorkEnd, count_laws, sound_laws};
use worker_core::{Port, Worker, turn};

/// Has one request of the worker at the place, from 0, answered by a port that goes on, whatever
/// wraps the table and the desk of its workers; and says how the worker had ended where it has no
/// request, and then nothing changes. The other workers stay as they were. What the port holds, and
/// the visits that it gave, stay what its workers have, all together.
pub fn turn_in_crew<P: Port>(
    alloc: Global,
    port: &mut P,
    workers: &mut Vec<Worker>,
    place: usize,
) -> Option<WorkEnd>
    requires going { (P.book port.old).going ≡ true }
    requires there { place < length workers.old.items }
    requires crew { IsCrew (P.book port.old) workers.old.items }
    ensures crew { IsCrew (P.book port.new) workers.new.items }
    ensures as_many { length workers.new.items ≡ length workers.old.items }
    ensures turned { (worker : WorkerView) × (next : WorkerView)
        × ChangesAt workers.old.items place worker next workers.new.items
        × IsTurned P.turn P.book port.old port.new worker next result }
{
    sound_laws();
    count_laws();
    let worker = &mut workers[place];
    turn(alloc, worker, port)
}

/// Starves the worker at the place, from 0: it winds up for want of memory, unless it has ended.
/// The other workers stay as they were. What the port holds, and the visits that it gave, stay what
/// its workers have, all together. Takes no memory.
pub fn starve_in_crew<P: Port>(_port: &P, workers: &mut Vec<Worker>, place: usize)
    requires there { place < length workers.old.items }
    requires crew { IsCrew (P.book _port.now) workers.old.items }
    ensures crew { IsCrew (P.book _port.now) workers.new.items }
    ensures as_many { length workers.new.items ≡ length workers.old.items }
    ensures starved { (worker : WorkerView) × (next : WorkerView)
        × ChangesAt workers.old.items place worker next workers.new.items × IsStarved worker next }
{
    let worker = &mut workers[place];
    worker.starve();
}
