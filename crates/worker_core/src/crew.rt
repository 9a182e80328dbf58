// The workers of a search.
use crate::worker::Worker;
use std::marker::Model;

/// The workers of a search, as they ended, in the order of their numbers. Contracts see the list.
#[derive(Drop)]
pub struct Crew {
    workers: Vec<Worker>,
}

impl Model for Crew {
    ghost use Rattle.std.specs.Prelude.{List};
    ghost use Rattle.std.specs.Coded.{codes};
    ghost use Rattle.worker_core.specs.contracts.worker.Worker as worker;
    ghost use Rattle.visit_log.specs.Run.{WorkerView};

    ghost Value = { List WorkerView };

    ghost coded = { Prim.hlevel (codes, worker.the_row.coded) };

    ghost view = { λ crew. crew.workers.items };
}

impl Crew {
    ghost use Rattle.std.specs.Prelude.{◌≡◌};

    /// The crew of these workers. Takes no memory.
    pub fn new(workers: Vec<Worker>) -> Crew
        ensures { result ≡ workers.items }
    {
        Crew { workers }
    }

    /// Its workers, the first first. Takes no memory.
    pub fn workers(&self) -> &[Worker]
        ensures { result.now ≡ self.now }
    {
        &self.workers
    }
}
