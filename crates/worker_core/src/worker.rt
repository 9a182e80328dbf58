// A worker: a machine that stands where some log leaves it.
ghost use Rattle.std.specs.Prelude.{◌≡◌, ◌+◌, ◌<◌, ◌≤◌, ◌++◌, ◌∷◌, [], ℕ, true, false, List, Some, IfOk};

use crate::Port;
use crate::machine::Core;
use notes::Note;
use path_tags::Path;
use shogi_rules::Problem;
use std::alloc::Global;
use std::marker::Model;
use visit_log::{Reply, Request, WorkEnd, count_laws, sound_laws, visit_laws};

/// A worker in the search of a problem. It is asked for its [`request`](Worker::request), and told
/// the answer ([`advance`](Worker::advance)); or it is starved ([`starve`](Worker::starve)). So
/// until its request is an End.
///
/// It keeps that some log leaves it where it stands: the log of what it asked and was told, the
/// beginning of a visit log.
#[derive(Drop)]
pub struct Worker {
    core: Core,
    // The copy of the note that goes out with the next Leave.
    copy: Option<Note>,
    waiting: bool,
    // What reading ahead came to: nobody asks for it.
    ahead: u64,
}

impl Model for Worker {
    ghost use Rattle.std.specs.Prelude.{◌≡◌, false, List};
    ghost use Rattle.std.specs.Coded.{codes};
    ghost use Rattle.notes.specs.contracts.note.Note as facts;
    ghost use Rattle.visit_log.specs.Visit.{Exchange};
    ghost use Rattle.visit_log.specs.Run.{WorkerView, IsReached};
    ghost use Rattle.visit_log.specs.Sound.{IsTask};
    ghost use Rattle.worker_core.specs.Machine.{IsCopy, worker_of};

    ghost Value = { WorkerView };

    ghost coded = { Prim.hlevel (codes, facts.the_row.coded) };

    ghost view = { λ w. worker_of w.core w.waiting };

    ghost invariant = { λ w. record {
      reached : (log : List Exchange) × IsReached (worker_of w.core w.waiting) log;
      task : IsTask w.core.task;
      copy : w.waiting ≡ false → IsCopy w.core.state.stage w.copy;
    } };
}

impl Worker {
    ghost use Rattle.std.specs.Prelude.{◌≡◌, ◌↔◌, ◌+◌, ◌<◌, ◌≤◌, ◌++◌, ◌∷◌, [], ℕ, true, false, List, Some, None, IfOk};
    ghost use Rattle.board_core.specs.declared.keys.Key.{Key};
    ghost use Rattle.visit_log.specs.Frame.{task_for};
    ghost use Rattle.visit_log.specs.Visit.{Exchange, IsVisitLog};
    ghost use Rattle.visit_log.specs.Machine.{State, start, asks, asked, starve, end_of, path_of, Fits, LeadsTo};
    ghost use Rattle.visit_log.specs.Run.{Leads, Happens, Told, IsReached, IsBegunLog, IsLooking, now_at};
    ghost use Rattle.visit_log.specs.Sound.{IsTask, IsSound, IsSoundRequest};
    ghost use Rattle.visit_log.specs.Counts.{Words, own_slots, own_size, enters, leaves, enters_some, leaves_some, visits_in, rooms_in, to_come};
    ghost use Rattle.visit_log.specs.Laws.{IsLeftAlone, IsCounted};
    ghost use Rattle.visit_log.specs.declared.words.WorkEnd.{WorkEnd};
    ghost use Rattle.visit_log.specs.declared.words.Request.TheVariants.{End};
    ghost use Rattle.worker_core.specs.Machine.{is_poll, looks_at, winds_at};

    /// The worker of this number, from 1, before it asks anything. Takes no memory.
    pub fn make(alloc: Global, problem: &Problem, number: u32) -> Worker
        ensures { result ≡ record {
          task = task_for problem.now.position number;
          state = start
              (task_for problem.now.position number);
          waiting = false;
        } }
    {
        problem.position.laws();
        Worker {
            core: Core::new(alloc, problem, number),
            copy: None,
            waiting: false,
            ahead: 0,
        }
    }

    /// What it asks next; the last request must be answered. A note that is posted is given away.
    /// Takes no memory.
    #[inline(always)]
    pub fn request(&mut self) -> Request
        requires { self.old.waiting ≡ false }
        ensures request { result ≡ asks self.old.state }
        ensures asked { self.new
            ≡ record { task = self.old.task; state = asked self.old.state; waiting = true } }
        // Enter and Leave have numbers from 1 to the cap; a note is about its position, for the
        // attacker; a posted one answers the problem.
        ensures sound { IsSoundRequest self.old.task result }
        // It is an End exactly where the worker has ended.
        ensures ends { (end : WorkEnd) → (result ≡ End end) ↔ (end_of self.old.state ≡ Some end) }
    {
        // What is asked is sound.
        sound_laws();
        self.waiting = true;
        self.core.ask(self.copy.take())
    }

    /// Takes the answer in, which must be of the request's kind: a visit comes where fewer than a
    /// billion came before; numbers are from 1 to the cap; a note is about the child that was
    /// looked at, for the attacker, and holds on the path, or is lent, and may be carried to it.
    /// Where memory is wanting it winds up.
    #[inline(always)]
    pub fn advance(&mut self, alloc: Global, answer: Reply)
        requires waiting { self.old.waiting ≡ true }
        requires fits { Fits self.old.task self.old.state answer }
        ensures answered { self.new.waiting ≡ false }
        ensures task { self.new.task ≡ self.old.task }
        // Whatever log it stood by, it stands by that log with the request and this answer behind.
        ensures log { (log : List Exchange) (s : State) → Leads self.old.task log s
            → self.old.state ≡ asked s
            → Leads self.old.task (log ++ (asks s, Some answer) ∷ []) self.new.state }
        ensures slots { (words : Words) (word : ℕ)
            → own_slots words self.new.state.frames word + leaves words
            (asks self.old.state, Some answer) word
            ≡ own_slots words self.old.state.frames word + enters words
            (asks self.old.state, Some answer) word }
        ensures sizes { own_size self.new.state.frames + leaves_some
            (asks self.old.state, Some answer)
            ≡ own_size self.old.state.frames + enters_some (asks self.old.state, Some answer) }
        ensures visits { self.new.state.visits ≡ self.old.state.visits + visits_in answer }
        ensures claims { self.new.state.claims ≡ self.old.state.claims + rooms_in answer }
        ensures less { to_come self.new.state < to_come self.old.state }
        // Where it stood before it was asked, this request and this answer happen to it.
        ensures happens { (s : State) → self.old.state ≡ asked s
            → Happens self.old.task s (Told (asks s) answer) self.new.state }
        ensures leads { LeadsTo self.old.task self.old.state answer self.new.state }
    {
        // It is sound, and what it counts moves as the answer says.
        sound_laws();
        count_laws();
        self.waiting = false;
        self.copy = self.core.advance(alloc, answer);
    }

    /// Winds up for want of memory, unless it has ended: from here on it asks to leave each
    /// position that it has entered, innermost first, with nothing, and then it has ended. A
    /// request that waits for its answer is taken back. Takes no memory.
    pub fn starve(&mut self)
        ensures starved { self.new
            ≡ record { task = self.old.task; state = starve self.old.state; waiting = false } }
        ensures log { (log : List Exchange) (s : State) → Leads self.old.task log s
            → self.old.state ≡ now_at self.old.waiting s → Leads self.old.task log self.new.state }
        // Where a look was refused memory, the log has it too.
        ensures dark { (log : List Exchange) (s : State) → Leads self.old.task log s
            → self.old.state ≡ asked s → IsLooking s.stage
            → Leads self.old.task (log ++ (asks s, None) ∷ []) self.new.state }
        ensures alone { IsLeftAlone self.old.state self.new.state }
    {
        // Starving moves nothing.
        count_laws();
        self.waiting = false;
        self.core.starve();
    }

    /// Has a port read ahead, where the worker is about to look at the children of a position, the
    /// first of them next. Takes no memory.
    pub fn read_ahead<P: Port>(&mut self, port: &P)
        ensures { self.new ≡ self.old }
    {
        if let Some(children) = self.core.first_looks() {
            self.ahead = port.read_ahead(children);
        }
    }

    /// The keys of the attacker's positions that it is visiting, the problem's first: the path by
    /// which a look is answered. Takes no memory.
    pub fn path(&self) -> &Path
        ensures { result.now ≡ path_of self.now.task self.now.state.frames }
    {
        self.core.path()
    }

    /// The problem whose search it is. Takes no memory.
    pub fn problem(&self) -> &Problem
        ensures { result.now.position ≡ self.now.task.problem }
    {
        self.core.problem()
    }

    /// Whether it polls next: its next request is a Poll. Takes no memory.
    pub fn is_polling(&self) -> bool
        ensures { result ≡ is_poll (asks self.now.state) }
    {
        self.core.is_polling()
    }

    /// Whether it is about to look at a child. Takes no memory.
    pub fn is_looking(&self) -> bool
        ensures { result ≡ looks_at self.now.state.stage }
    {
        self.core.is_looking()
    }

    /// Whether it winds up, or has ended. Takes no memory.
    pub fn is_winding(&self) -> bool
        ensures { result ≡ winds_at self.now.state.stage }
    {
        self.core.is_winding()
    }

    /// How many visits it was given. Takes no memory.
    pub fn visits(&self) -> u64
        ensures { result ≡ self.now.state.visits }
    {
        self.core.visits()
    }

    /// For how many notes it was given room. Takes no memory.
    pub fn claims(&self) -> u64
        ensures { result ≡ self.now.state.claims }
    {
        self.core.claims()
    }

    /// How it ended; none where it hasn't. Takes no memory.
    pub fn end(&self) -> Option<WorkEnd>
        ensures { result ≡ end_of self.now.state }
    {
        self.core.end()
    }

    /// Laws: what every worker keeps. Some log leaves it where it stands; each log that does is the
    /// beginning of a visit log, and a whole one where it has ended; what it knows is sound, unless
    /// a request waits for its answer; and it has no more slots and room than visits. Does
    /// nothing; whoever reads a worker calls it to know this. Takes no memory.
    pub fn laws(&self)
        ensures reached { (log : List Exchange) × IsReached self.now log }
        ensures task { IsTask self.now.task }
        ensures begun { (log : List Exchange) → IsReached self.now log
            → IsBegunLog self.now.task log }
        ensures whole { (log : List Exchange) (end : WorkEnd) → IsReached self.now log
            → end_of self.now.state ≡ Some end → IsVisitLog self.now.task log end }
        ensures counted { IsCounted self.now.state }
    {
        visit_laws();
        count_laws();
        let _core = &self.core;
    }
}
