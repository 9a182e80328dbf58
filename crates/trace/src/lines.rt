// The lines of a trace: a request and its answer each.
use crate::place::position_of;
use board_core::{Key, Side};
use notes::{Conclusion, Draw, Kept, Note, RoomAnswer, Seen, Update};
use pn_numbers::Numbers;
use sfen_text::append_sfen;
use std::alloc::Global;
use std::io::Write;
use visit_log::WorkEnd;

/// The lines so far, of the search of a problem of this attacker.
#[derive(Drop)]
pub struct Lines {
    text: Vec<u8>,
    attacker: Side,
    // Whether there are several workers, so that each line begins with the number of its own.
    is_world: bool,
    worker: u32,
    // Whether each line could be written.
    is_whole: bool,
}

impl Lines {
    /// No line yet.
    pub fn new(alloc: Global, attacker: Side, is_world: bool) -> Lines {
        Lines {
            text: Vec::new(alloc),
            attacker,
            is_world,
            worker: 0,
            is_whole: true,
        }
    }

    /// The lines; none where one couldn't be written.
    pub fn into_text(self) -> Option<Vec<u8>> {
        if self.is_whole { Some(self.text) } else { None }
    }

    /// The lines from here on are of the worker of this number.
    pub fn of_worker(&mut self, number: u32) {
        self.worker = number;
    }

    fn put(&mut self, text: &str) {
        if self.text.extend_from_slice(text.as_bytes()).is_err() {
            self.is_whole = false;
        }
    }

    fn number(&mut self, number: u64) {
        if write!(self.text, " {number}").is_err() {
            self.is_whole = false;
        }
    }

    // Ends a line with a word and numbers behind it.
    fn end_by(&mut self, word: &str, numbers: &[u64]) {
        self.put(" ");
        self.put(word);
        for number in numbers {
            self.number(*number);
        }
        self.put("\n");
    }

    // Ends a line with what a note says.
    fn end_by_note(&mut self, note: &Note) {
        let height = u64::from(note.height());
        match note.conclusion() {
            Conclusion::Mate => self.end_by("mate", &[height]),
            Conclusion::Escape => self.end_by("escape", &[height, note.tag().len() as u64]),
        }
    }

    // Ends a line with what a note says that is lent: it depends on no repetition.
    fn end_by_lent(&mut self, note: &Note) {
        let word = match note.conclusion() {
            Conclusion::Mate => "lent mate",
            Conclusion::Escape => "lent escape",
        };
        self.end_by(word, &[u64::from(note.height())]);
    }

    // Begins a line with the worker's number, where there is one, and this word.
    fn begin(&mut self, word: &str) {
        if self.is_world && write!(self.text, "{} ", self.worker).is_err() {
            self.is_whole = false;
        }
        self.put(word);
    }

    // Begins a line about the position of a key.
    fn begin_at(&mut self, word: &str, key: &Key) {
        self.begin(word);
        self.put(" ");
        let Some(position) = position_of(key, self.attacker) else {
            self.is_whole = false;
            return;
        };
        if append_sfen(&mut self.text, &position).is_err() {
            self.is_whole = false;
        }
    }

    /// Whether the worker is to stop.
    pub fn poll(&mut self, stop: bool) {
        self.begin("poll");
        self.end_by(if stop { "yes" } else { "no" }, &[]);
    }

    /// The next visit.
    pub fn draw(&mut self, draw: Draw) {
        self.begin("draw");
        match draw {
            Draw::Go(visit) => self.end_by("go", &[visit]),
            Draw::Done => self.end_by("done", &[]),
            Draw::Spent => self.end_by("spent", &[]),
        }
    }

    /// Room for a note.
    pub fn claim(&mut self, claim: RoomAnswer) {
        self.begin("claim");
        match claim {
            RoomAnswer::Room(number) => self.end_by("room", &[u64::from(number)]),
            RoomAnswer::NoRoom => self.end_by("noroom", &[]),
        }
    }

    /// What is known of a position.
    pub fn look(&mut self, key: &Key, seen: &Seen) {
        self.begin_at("look", key);
        match seen {
            Seen::New => self.end_by("new", &[]),
            Seen::Open { numbers, below } => self.end_by(
                "open",
                &[u64::from(numbers.pn), u64::from(numbers.dn), *below],
            ),
            Seen::Solved(note) => self.end_by_note(note),
            Seen::Lent(note) => self.end_by_lent(note),
        }
    }

    /// A position is entered.
    pub fn enter(&mut self, key: &Key, numbers: Numbers, kept: Kept) {
        self.begin_at("enter", key);
        self.number(u64::from(numbers.pn));
        self.number(u64::from(numbers.dn));
        match kept {
            Kept::Slot(slot) => self.end_by("kept", &[u64::from(slot)]),
            Kept::Unkept => self.end_by("unkept", &[]),
        }
    }

    /// A position is left.
    pub fn leave(&mut self, key: &Key, update: &Update) {
        self.begin_at("leave", key);
        match update {
            Update::Numbers(numbers) => self.end_by(
                "numbers",
                &[u64::from(numbers.pn), u64::from(numbers.dn)],
            ),
            Update::Note(note) => self.end_by_note(note),
            Update::Nothing => self.end_by("nothing", &[]),
        }
    }

    /// A note is posted.
    pub fn post(&mut self) {
        self.begin("post\n");
    }

    /// How the worker ended.
    pub fn end(&mut self, end: WorkEnd) {
        let word = match end {
            WorkEnd::Posted => "posted",
            WorkEnd::Spent => "spent",
            WorkEnd::NoRoom => "noroom",
            WorkEnd::TooHigh => "toohigh",
            WorkEnd::NoMemory => "nomemory",
            WorkEnd::Stopped => "stopped",
        };
        self.begin("end");
        self.end_by(word, &[]);
    }

    /// The last line of a world: how many visits were drawn, for how many notes room was claimed,
    /// whether a note is posted, how many workers have ended, and how many visits are below the
    /// slots of the table. Nothing where one worker is alone.
    pub fn total(&mut self, drawn: u64, claimed: u32, posted: bool, ended: u32, below: u64) {
        if !self.is_world {
            return;
        }
        let posted = if posted { "yes" } else { "no" };
        let written = writeln!(
            self.text,
            "drawn {drawn} claimed {claimed} posted {posted} ended {ended} counts {below}"
        );
        if written.is_err() {
            self.is_whole = false;
        }
    }
}
