// The world.
ghost use Rattle.std.specs.Prelude.{◌≡◌, ◌≤◌, ◌<◌, ◌+◌, ◌↔◌, ◌&&◌, ℕ, zero, suc, true, false, List, Some, None, IfOk, IfSome, IfNone, IsTrue, All, length, replicate, slice_get, slice_set, slice_index_or, option_copied, if◌then◌else◌};
ghost use Rattle.search_limits.specs.Settings.{settings_in};
ghost use Rattle.visit_log.specs.Visit.{Exchange};
ghost use Rattle.visit_log.specs.Run.{WorkerView};
ghost use Rattle.lone_port.specs.Filled.{IsWorldWith};
ghost use Rattle.lone_port.specs.World.{Happens, Plays, IsAtWork, IsIdle, workers_from, world_at_first};
ghost use Rattle.lone_port.specs.declared.event.Event.TheVariants.{Step, Raise, Starve};
ghost use Rattle.unit_desk.specs.Desk.{IsDesk};
ghost use Rattle.unit_desk.specs.Known.{IsKnown};
ghost use Rattle.lone_port.specs.Lone.{IsLone, book_of};
ghost use Rattle.table_shard.specs.Row.{IsRow};
ghost use Rattle.world_play.specs.Fair.{numbered, IsFair, all_below};
ghost use Rattle.world_play.specs.Crew.{IsCrew};
ghost use Rattle.world_play.specs.Promises.{IsKeptWorld, HoldsWhatIsEntered, AreSoundWorkers, AreToldOf, AllHaveEnded, IsOver, IsLeft};
ghost use Rattle.world_play.specs.Logs.{AreLost, GoOnBy};
ghost use Rattle.world_play.specs.Lost.{Loses, lost_by};

use board_core::Key;
use lone_port::{Event, LonePort, step};
use notes::Note;
use search_limits::Settings;
use shogi_rules::Problem;
use std::alloc::{AllocError, Global};
use std::marker::Model;
use visit_log::{count_laws, sound_laws, visit_laws};
use worker_core::Worker;

/// Workers that share one table and one desk, and the stops that were signalled to them.
///
/// It keeps that what the table and the desk count is what its workers have, all together, and what
/// each worker was told of the desk.
#[derive(Drop)]
pub struct World {
    port: LonePort,
    // The first first.
    workers: Vec<Worker>,
    // Of each, whether a stop was signalled to it since it polled last.
    raised: Vec<bool>,
}

impl Model for World {
    ghost use Rattle.std.specs.Coded.{codes};
    ghost use Rattle.lone_port.specs.contracts.lone.LonePort as port_facts;
    ghost use Rattle.worker_core.specs.contracts.worker.Worker as worker_facts;
    ghost use Rattle.lone_port.specs.World.{World as Meant};
    ghost use Rattle.world_play.specs.Fair.{IsFair};

    ghost Value = { Meant };

    ghost coded = { Prim.hlevel (codes, port_facts.the_row.coded, worker_facts.the_row.coded) };

    ghost view = { λ w. record { port = w.port; workers = w.workers.items; raised = w.raised.items } };

    ghost invariant = { λ w. IsFair (record { port = w.port; workers = w.workers.items; raised = w.raised.items }) };
}

// The workers of the settings, numbered from 1, before they ask anything, and that no stop was
// signalled to them.
fn idle_crew(
    alloc: Global,
    problem: &Problem,
    settings: &Settings,
) -> Result<(Vec<Worker>, Vec<bool>), AllocError>
    ensures workers { IfOk result (λ made. made.0.items
        ≡ workers_from problem.now.position 1 settings.now.workers) }
    ensures raised { IfOk result (λ made. made.1.items ≡ replicate settings.now.workers false) }
{
    let count = settings.workers as usize;
    let mut workers = Vec::with_capacity(alloc, count)?;
    let mut raised = Vec::with_capacity(alloc, count)?;
    for place in 0..settings.workers {
        workers.push(Worker::make(alloc, problem, place + 1))?;
        raised.push(false)?;
    }
    Ok((workers, raised))
}

impl World {
    /// The world of a problem and settings before anything happens: its table is empty, and its
    /// workers, numbered from 1, haven't asked anything. Takes all the table's memory but for that
    /// of the notes. Errors: want of memory alone.
    pub fn make(alloc: Global, problem: &Problem, settings: &Settings) -> Result<World, AllocError>
        ensures { IfOk result (λ world. world
            ≡ world_at_first problem.now.position (settings_in settings.now)) }
    {
        problem.position.laws();
        let port = LonePort::make(alloc, problem, settings)?;
        let (workers, raised) = idle_crew(alloc, problem, settings)?;
        Ok(World {
            port,
            workers,
            raised,
        })
    }

    /// The same, in which notes are known: its table has taken them in, one after the other, and
    /// what the first says that is about the problem, or may be carried to it, is posted. The notes
    /// hold on every path, and are for the problem's attacker. Errors: want of memory alone.
    pub fn make_filled(
        alloc: Global,
        problem: &Problem,
        settings: &Settings,
        notes: &[Note],
    ) -> Result<World, AllocError>
        requires { All (IsKnown problem.now.position.side) notes.now }
        ensures { IfOk result
            (IsWorldWith notes.now problem.now.position (settings_in settings.now)) }
    {
        problem.position.laws();
        let port = LonePort::make_filled(alloc, problem, settings, notes)?;
        let (workers, raised) = idle_crew(alloc, problem, settings)?;
        Ok(World {
            port,
            workers,
            raised,
        })
    }

    /// Has the events of a schedule happen, one after the other, and says after how many looks of
    /// this call a worker wound up for want of memory: they were refused it, or lent a note that
    /// there was none to carry. An event of a worker that isn't there, or that has ended, changes
    /// nothing; a look that is refused memory starves its worker.
    pub fn play(&mut self, alloc: Global, events: &[Event]) -> usize
        // Whatever log a worker was reached by, it is reached now by that log with its own requests
        // and answers of this call behind.
        ensures { (log : List (ℕ × Exchange)) × Plays self.old events.now log self.new
            × GoOnBy self.old.workers log self.new.workers
            × AreLost log result × Loses self.old events.now log self.new result }
    {
        let mut lost = 0;
        for event in events {
            lost += self.happen(alloc, *event);
        }
        lost
    }

    // Has one event happen, and says after how many looks of it the worker wound up.
    fn happen(&mut self, alloc: Global, event: Event) -> usize
        ensures played { (log : List (ℕ × Exchange)) × Happens self.old event log self.new
            × GoOnBy self.old.workers log self.new.workers
            × AreLost log result × (result ≡ lost_by self.old event self.new) }
        ensures one { result ≤ 1 }
    {
        match event {
            Event::Step(number) => self.step(alloc, number),
            Event::Raise(number) => {
                self.raise(number);
                0
            }
            Event::Starve(number) => {
                self.starve(number);
                0
            }
        }
    }

    // The place of the worker of this number, if it is there and hasn't ended.
    fn at_work(&self, number: u32) -> Option<usize>
        ensures some { IfSome result (λ place. (worker : WorkerView)
            × IsAtWork self.now number place worker) }
        ensures none { IfNone result (IsIdle self.now number) }
    {
        let number = number as usize;
        if number == 0 {
            return None;
        }
        if number > self.workers.len() {
            return None;
        }
        let worker = &self.workers[number - 1];
        match worker.end() {
            None => Some(number - 1),
            Some(_) => None,
        }
    }

    // Has the request of the worker of this number answered, and says after how many looks it wound
    // up for want of memory: 1 where after this one.
    fn step(&mut self, alloc: Global, number: u32) -> usize
        ensures played { (log : List (ℕ × Exchange)) × Happens self.old (Step number) log self.new
            × GoOnBy self.old.workers log self.new.workers
            × AreLost log result × (result ≡ lost_by self.old (Step number) self.new) }
        ensures one { result ≤ 1 }
    {
        let Some(place) = self.at_work(number) else {
            return 0;
        };
        sound_laws();
        count_laws();
        self.port.laws();
        let polls = self.workers[place].is_polling();
        let looks = self.workers[place].is_looking();
        let stops = take_stop(&mut self.raised, place, polls);
        self.port.open(false);
        step(alloc, &mut self.port, &mut self.workers[place], stops);
        lost(looks, self.workers[place].is_winding())
    }

    // Signals a stop to the worker of this number.
    fn raise(&mut self, number: u32)
        ensures { (log : List (ℕ × Exchange)) × Happens self.old (Raise number) log self.new
            × GoOnBy self.old.workers log self.new.workers
            × AreLost log 0 × (0 ≡ lost_by self.old (Raise number) self.new) }
    {
        let Some(place) = self.at_work(number) else {
            return;
        };
        self.raised[place] = true;
    }

    // Starves the worker of this number.
    fn starve(&mut self, number: u32)
        ensures { (log : List (ℕ × Exchange)) × Happens self.old (Starve number) log self.new
            × GoOnBy self.old.workers log self.new.workers
            × AreLost log 0 × (0 ≡ lost_by self.old (Starve number) self.new) }
    {
        let Some(place) = self.at_work(number) else {
            return;
        };
        let worker = &mut self.workers[place];
        worker.starve();
    }

    /// Its table with its desk, and its workers, for whoever has them go on over a port that wraps
    /// these. The signalled stops are let go. Takes no memory.
    pub fn into_crew(self) -> (LonePort, Vec<Worker>)
        ensures port { result.0 ≡ self.port }
        ensures workers { result.1.items ≡ self.workers }
        ensures crew { IsCrew (book_of result.0) result.1.items }
    {
        self.port.laws();
        (self.port, self.workers)
    }

    /// Whether all workers have ended. Takes no memory.
    pub fn ended(&self) -> bool
        ensures { IsTrue result ↔ AllHaveEnded self.now.workers }
    {
        for worker in &self.workers {
            match worker.end() {
                None => return false,
                Some(_) => {}
            }
        }
        true
    }

    /// The worker of this number, from 1; none where there is no such worker. Takes no memory.
    pub fn worker(&self, number: u32) -> Option<&Worker>
        ensures { option_copied result ≡ numbered self.now.workers number }
    {
        if number == 0 {
            return None;
        }
        self.workers.get(number as usize - 1)
    }

    /// Laws: what every world keeps, and what follows. What the table and the desk count is what
    /// the workers have, all together; no more is drawn or claimed than there is, and what is
    /// posted answers the problem; all notes are for its attacker, and each entry is true. Each
    /// slot that a visit has entered still holds its key's entry. What each worker knows is sound,
    /// and how it ended is so of the desk. Once all have ended nothing is entered any more, and
    /// there is a reason. Does nothing; whoever reads a world calls it to know this. Takes no
    /// memory.
    pub fn laws(&self)
        ensures fair { IsFair self.now }
        ensures desk { IsDesk self.now.port.desk }
        ensures lone { IsLone self.now.port }
        ensures rows { All IsRow self.now.port.rows }
        ensures holds { HoldsWhatIsEntered self.now }
        ensures sound { AreSoundWorkers self.now.workers }
        ensures told { AreToldOf self.now }
        ensures kept { IsKeptWorld self.now }
        ensures over { AllHaveEnded self.now.workers → IsOver self.now }
        ensures left { AllHaveEnded self.now.workers → IsLeft self.now }
    {
        sound_laws();
        count_laws();
        visit_laws();
        self.port.laws();
    }

    /// How many visits of the key's position are going on that have entered it in the table, over
    /// all workers: the count of its entry's slot. Takes no memory.
    pub fn below(&self, key: &Key) -> u64
        ensures { result ≡ all_below self.now.workers key.now }
    {
        self.port.laws();
        self.port.below(key)
    }

    /// How many visits were drawn. Takes no memory.
    pub fn drawn(&self) -> u64
        ensures { result ≡ self.now.port.desk.drawn }
    {
        self.port.drawn()
    }

    /// For how many notes room was claimed. Takes no memory.
    pub fn claimed(&self) -> u32
        ensures { result ≡ self.now.port.desk.claimed }
    {
        self.port.claimed()
    }

    /// The note that is posted. Takes no memory.
    pub fn posted(&self) -> Option<&Note>
        ensures { option_copied result ≡ self.now.port.desk.posted }
    {
        self.port.posted()
    }
}

// Whether a stop was signalled to the worker at the place; where it polls, that is told to it now.
fn take_stop(raised: &mut Vec<bool>, place: usize, polls: bool) -> bool
    requires { place < length raised.old.items }
    ensures stops { result ≡ slice_index_or raised.old.items place false }
    ensures told { raised.new.items
        ≡ (if polls then slice_set raised.old.items place false else raised.old.items) }
{
    let stops = raised[place];
    if polls {
        raised[place] = false;
    }
    stops
}

// After how many looks the worker wound up in a step, by whether it looked before it and winds up
// behind it: what a look shows has it wind up only where there is no memory to carry that.
fn lost(looked: bool, winds: bool) -> usize
    ensures { result ≡ (if looked && winds then 1 else 0) }
{
    if looked && winds { 1 } else { 0 }
}
