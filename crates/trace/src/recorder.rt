// A port that writes down what it is asked, and what it answers.
use crate::lines::Lines;
use board_core::Key;
use notes::{Draw, Kept, Note, RoomAnswer, Seen, Update};
use path_tags::Path;
use pn_numbers::Numbers;
use std::alloc::AllocError;
use visit_log::Child;
use worker_core::Port;

/// A port, and the lines that tell what it was asked and answered.
#[derive(Drop)]
pub struct Recorder<P: Port> {
    /// What answers.
    pub port: P,
    /// What was written down.
    pub lines: Lines,
    /// How many slots are entered and not left.
    pub below: u64,
}

impl<P: Port> Port for Recorder<P> {
    ghost book = { λ r. P.book r.port };

    ghost turn = { λ before path request answer after. P.turn before.port path request answer after.port };

    fn poll(&mut self) -> bool {
        let stop = self.port.poll();
        self.lines.poll(stop);
        stop
    }

    fn draw(&mut self) -> Draw {
        let draw = self.port.draw();
        self.lines.draw(draw);
        draw
    }

    fn claim(&mut self) -> RoomAnswer {
        let claim = self.port.claim();
        self.lines.claim(claim);
        claim
    }

    fn look(&mut self, key: &Key, path: &Path) -> Result<Seen, AllocError> {
        let seen = self.port.look(key, path)?;
        self.lines.look(key, &seen);
        Ok(seen)
    }

    fn enter(&mut self, key: &Key, numbers: Numbers) -> Kept {
        let kept = self.port.enter(key, numbers);
        self.below = self.below.wrapping_add(slots(kept));
        self.lines.enter(key, numbers, kept);
        kept
    }

    fn leave(&mut self, kept: Kept, key: &Key, update: Update) {
        self.below = self.below.wrapping_sub(slots(kept));
        self.lines.leave(key, &update);
        self.port.leave(kept, key, update);
    }

    fn read_ahead(&self, children: &[Child]) -> u64 {
        self.port.read_ahead(children)
    }

    fn post(&mut self, note: Note) {
        self.port.post(note);
        self.lines.post();
    }
}

// How many slots are entered, or left.
fn slots(kept: Kept) -> u64 {
    match kept {
        Kept::Slot(_) => 1,
        Kept::Unkept => 0,
    }
}
