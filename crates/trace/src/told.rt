// The world of one worker or several, over a port that writes down what they ask and are told.
ghost use Rattle.std.specs.Prelude.{◌<◌, IfSome, length};

use crate::asked::Asked;
use crate::lines::Lines;
use crate::ports::trace_ports;
use crate::recorder::Recorder;
use lone_port::{Event, LonePort};
use std::alloc::{AllocError, Global};
use std::marker::Model;
use worker_core::Worker;
use world_play::{World, starve_in_crew, turn_in_crew};

/// The workers of a world, and the table and the desk that they share, with the lines that tell
/// what happened.
///
/// It keeps that what the table and the desk count is what its workers have, all together.
#[derive(Drop)]
pub struct Told {
    recorder: Recorder<LonePort>,
    workers: Vec<Worker>,
    // Of each worker, whether a stop was signalled to it since it polled last.
    raised: Vec<bool>,
}

impl Model for Told {
    ghost use Rattle.std.specs.Coded.{codes};
    ghost use Rattle.lone_port.specs.contracts.lone.LonePort as port_facts;
    ghost use Rattle.worker_core.specs.contracts.worker.Worker as worker_facts;
    ghost use Rattle.lone_port.specs.World.{World as Meant};
    ghost use Rattle.trace.specs.Told.{IsTold};

    ghost Value = { Meant };

    ghost coded = { Prim.hlevel (codes, port_facts.the_row.coded, worker_facts.the_row.coded) };

    ghost view = { λ t. record { port = t.recorder.port; workers = t.workers.items; raised = t.raised.items } };

    ghost invariant = { λ t. IsTold (record { port = t.recorder.port; workers = t.workers.items; raised = t.raised.items }) };
}

impl Told {
    /// A world before anything happens, and the lines so far. Errors: want of memory alone.
    pub fn make(alloc: Global, world: World, lines: Lines) -> Result<Told, AllocError> {
        let (port, workers) = world.into_crew();
        let raised = vec![in alloc; false; workers.len()]?;
        Ok(Told {
            recorder: Recorder {
                port,
                lines,
                below: 0,
            },
            workers,
            raised,
        })
    }

    /// Has an event happen, and tells of it.
    pub fn happen(&mut self, alloc: Global, event: Event) {
        match event {
            Event::Step(number) => self.step(alloc, number),
            Event::Raise(number) => self.raise(number),
            Event::Starve(number) => self.starve(number),
        }
    }

    // The place of the worker of this number, if it is there and hasn't ended.
    fn at_work(&self, number: u32) -> Option<usize>
        ensures { IfSome result (λ place. place < length self.now.workers) }
    {
        let number = number as usize;
        if number == 0 {
            return None;
        }
        if number > self.workers.len() {
            return None;
        }
        let worker = &self.workers[number - 1];
        match worker.end() {
            None => Some(number - 1),
            Some(_) => None,
        }
    }

    fn step(&mut self, alloc: Global, number: u32) {
        let Some(place) = self.at_work(number) else {
            return;
        };
        self.recorder.lines.of_worker(number);
        let stops = self.raised[place];
        let polls = self.workers[place].is_polling();
        self.raised[place] = stops && !polls;
        self.recorder.port.open(stops);
        turn_in_crew(alloc, &mut self.recorder, &mut self.workers, place);
        self.tell_end(place);
    }

    fn raise(&mut self, number: u32) {
        let Some(place) = self.at_work(number) else {
            return;
        };
        self.raised[place] = true;
    }

    fn starve(&mut self, number: u32) {
        let Some(place) = self.at_work(number) else {
            return;
        };
        self.recorder.lines.of_worker(number);
        starve_in_crew(&self.recorder, &mut self.workers, place);
        self.tell_end(place);
    }

    // Steps the first worker until it has ended.
    fn work_alone(&mut self, alloc: Global) {
        for _ in 0..u64::MAX {
            if self.at_work(1).is_none() {
                return;
            }
            self.step(alloc, 1);
        }
    }

    // Tells how the worker ended, if it has.
    fn tell_end(&mut self, place: usize)
        requires { place < length self.old.workers }
    {
        let worker = &self.workers[place];
        if let Some(end) = worker.end() {
            self.recorder.lines.end(end);
        }
    }

    /// The lines, with what came of it all behind them; none where one couldn't be written.
    pub fn into_text(self) -> Option<Vec<u8>> {
        let mut ended: u32 = 0;
        for worker in &self.workers {
            if worker.end().is_some() {
                ended = ended.wrapping_add(1);
            }
        }
        let Recorder {
            port,
            mut lines,
            below,
        } = self.recorder;
        lines.total(
            port.drawn(),
            port.claimed(),
            port.posted().is_some(),
            ended,
            below,
        );
        lines.into_text()
    }
}

/// The lines of the search that is asked for, by one worker, or of the world of several. Errors:
/// want of memory alone.
pub fn trace(alloc: Global, asked: &Asked) -> Result<Vec<u8>, AllocError> {
    if asked.is_by_ports {
        return trace_ports(alloc, asked);
    }
    let world = World::make(alloc, &asked.problem, &asked.settings)?;
    let lines = Lines::new(alloc, asked.problem.attacker(), asked.is_world);
    let mut told = Told::make(alloc, world, lines)?;
    for event in &asked.events {
        told.happen(alloc, *event);
    }
    if !asked.is_world {
        told.work_alone(alloc);
    }
    told.into_text().ok_or(AllocError)
}
