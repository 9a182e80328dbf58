// A table and a desk that are watched: by a stop, which is asked at each poll, and by a gate, which
// is passed for each visit.
ghost use Rattle.std.specs.Prelude.{◌≡◌};

use board_core::Key;
use lone_port::LonePort;
use notes::{Draw, Kept, Note, RoomAnswer, Seen, Update};
use path_tags::Path;
use pn_numbers::Numbers;
use search_gate::{Gate, Stop};
use std::alloc::AllocError;
use visit_log::Child;
use worker_core::Port;

// The table and the desk of a search alone, the gate that its worker passes behind each visit that
// it draws, as worker 1, and the stop that each of its polls asks.
#[derive(Drop)]
pub(crate) struct Watched<'a, G: Gate, T: Stop> {
    pub(crate) port: &'a mut LonePort,
    pub(crate) gate: &'a G,
    pub(crate) stop: &'a mut T,
}

impl<'a, G: Gate, T: Stop> Port for Watched<'a, G, T> {
    ghost use Rattle.std.specs.Prelude.{◌≡◌};
    ghost use Rattle.lone_port.specs.Lone.{book_of};
    ghost use Rattle.search_pool.specs.Inside.{Watches};

    ghost book = { λ w. book_of w.port.now };

    ghost turn = { λ w path request answer v. (v.port.ghost_name ≡ w.port.ghost_name) × (v.stop.ghost_name ≡ w.stop.ghost_name) × Watches w.port.now (T.signal w.stop.now) path request answer v.port.now (T.signal v.stop.now) };

    fn poll(&mut self) -> bool {
        self.stop.poll()
    }

    fn draw(&mut self) -> Draw {
        let draw = self.port.draw();
        if let Draw::Go(visit) = draw {
            self.gate.pass(1, visit);
        }
        draw
    }

    fn claim(&mut self) -> RoomAnswer {
        self.port.claim()
    }

    fn look(&mut self, key: &Key, path: &Path) -> Result<Seen, AllocError> {
        self.port.look(key, path)
    }

    fn enter(&mut self, key: &Key, numbers: Numbers) -> Kept {
        self.port.enter(key, numbers)
    }

    fn leave(&mut self, kept: Kept, key: &Key, update: Update) {
        self.port.leave(kept, key, update);
    }

    fn read_ahead(&self, children: &[Child]) -> u64 {
        self.port.read_ahead(children)
    }

    fn post(&mut self, note: Note) {
        self.port.post(note);
    }
}
