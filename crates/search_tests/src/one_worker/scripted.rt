// The table and the desk of one worker, which say once that it is to stop, and refuse memory once.
ghost use Rattle.std.specs.Prelude.{◌≡◌, ◌≤◌, ℕ, IfOk};
ghost use Rattle.worker_core.specs.Port.{Book, Suits};
ghost use Rattle.visit_log.specs.Run.{WorkerView};
ghost use Rattle.lone_port.specs.Lone.{worker_at_first, book_of};

use board_core::Key;
use lone_port::LonePort;
use notes::{Draw, Kept, Note, RoomAnswer, Seen, Update};
use path_tags::Path;
use pn_numbers::Numbers;
use search_limits::Settings;
use shogi_rules::Problem;
use std::alloc::{AllocError, Global};
use visit_log::Child;
use worker_core::Port;

#[derive(Drop)]
pub(crate) struct Scripted {
    pub(crate) port: LonePort,
    // Which poll says to stop, and which look is refused memory, from 1; 0 is none.
    stop_at: u64,
    dark_at: u64,
    // How many there were.
    pub(crate) polls: u64,
    pub(crate) looks: u64,
    pub(crate) enters: u64,
    pub(crate) leaves: u64,
}

impl Scripted {
    pub(crate) fn make(
        alloc: Global,
        problem: &Problem,
        settings: &Settings,
        stop_at: u64,
        dark_at: u64,
    ) -> Result<Scripted, AllocError>
        ensures suits { IfOk result (λ scripted. (number : ℕ)
            → Suits (worker_at_first problem.now.position number) (book_of scripted.port)) }
    {
        let port = LonePort::make(alloc, problem, settings)?;
        Ok(Scripted {
            port,
            stop_at,
            dark_at,
            polls: 0,
            looks: 0,
            enters: 0,
            leaves: 0,
        })
    }
}

impl Port for Scripted {
    ghost use Rattle.std.specs.Prelude.{ℕ, Option};
    ghost use Rattle.visit_log.specs.declared.words.Request.{Request};
    ghost use Rattle.visit_log.specs.declared.words.Reply.{Reply};
    ghost use Rattle.lone_port.specs.Lone.{book_of};

    ghost book = { λ p. book_of p.port };

    ghost turn = { λ before path request answer after. Unit {0} };

    fn poll(&mut self) -> bool {
        self.polls = self.polls.wrapping_add(1);
        self.polls == self.stop_at
    }

    fn draw(&mut self) -> Draw {
        self.port.draw()
    }

    fn claim(&mut self) -> RoomAnswer {
        self.port.claim()
    }

    fn look(&mut self, key: &Key, path: &Path) -> Result<Seen, AllocError> {
        self.looks = self.looks.wrapping_add(1);
        if self.looks == self.dark_at {
            return Err(AllocError);
        }
        self.port.look(key, path)
    }

    fn enter(&mut self, key: &Key, numbers: Numbers) -> Kept {
        self.enters = self.enters.wrapping_add(1);
        self.port.enter(key, numbers)
    }

    fn leave(&mut self, kept: Kept, key: &Key, update: Update) {
        self.leaves = self.leaves.wrapping_add(1);
        self.port.leave(kept, key, update);
    }

    fn read_ahead(&self, children: &[Child]) -> u64 {
        self.port.read_ahead(children)
    }

    fn post(&mut self, note: Note) {
        self.port.post(note);
    }
}
