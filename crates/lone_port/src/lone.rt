// The table and the desk of a search with one worker.
ghost use Rattle.std.specs.Prelude.{◌≡◌, ℕ, IfOk, All, option_copied, length, replicate};
ghost use Rattle.table_shard.specs.Row.{IsRow, lent_to};
ghost use Rattle.table_shard.specs.Known.{TakesNotes};
ghost use Rattle.worker_core.specs.Port.{Suits};
ghost use Rattle.lone_port.specs.Lone.{IsLone, IsBelow, alone_at_first, opened, worker_at_first, book_of};
ghost use Rattle.lone_port.specs.Filled.{IsFilled};
ghost use Rattle.unit_desk.specs.Desk.{IsDesk};
ghost use Rattle.unit_desk.specs.Known.{IsKnown};

use board_core::{Key, Side};
use notes::{Draw, Kept, Note, RoomAnswer, Seen, Update};
use path_tags::Path;
use pn_numbers::Numbers;
use search_limits::Settings;
use shogi_rules::Problem;
use std::alloc::{AllocError, Global};
use std::marker::Model;
use table_shard::{RowPins, Shard};
use unit_desk::{Desk, known_answer};
use visit_log::Child;
use worker_core::Port;

/// The table of positions and the desk of a search, for one worker at a time.
///
/// It keeps that a slot of the table with visits below it has an entry, and that all notes in the
/// table are for the problem's attacker.
#[derive(Drop)]
pub struct LonePort {
    shard: Shard,
    // How many visits are below each slot of each row.
    pins: Vec<[u32; 8]>,
    desk: Desk,
    // Whether it said neither that all is done or spent nor that there is no room.
    is_going: bool,
    // Whether it says that the worker is to stop.
    stops: bool,
    // Whether the table lends what it knows of other hands.
    lends: bool,
}

impl Model for LonePort {
    ghost use Rattle.std.specs.Coded.{codes};
    ghost use Rattle.notes.specs.contracts.note.Note as facts;
    ghost use Rattle.lone_port.specs.Lone.{LonePortView, IsLone};

    ghost Value = { LonePortView };

    ghost coded = { Prim.hlevel (codes, facts.the_row.coded) };

    ghost view = { λ p. record { rows = p.shard; pins = p.pins.items; desk = p.desk; going = p.is_going; stops = p.stops; lends = p.lends } };

    ghost invariant = { λ p. IsLone (record { rows = p.shard; pins = p.pins.items; desk = p.desk; going = p.is_going; stops = p.stops; lends = p.lends }) };
}

// To whom a table lends: to the attacker of the desk's problem, where it lends at all.
fn to_whom(lends: bool, desk: &Desk) -> Option<Side>
    ensures { result ≡ lent_to lends desk.now.position.side }
{
    if lends { Some(desk.attacker()) } else { None }
}

// Counts for so many rows: no visit is below any slot.
fn no_pins(alloc: Global, rows: usize) -> Result<Vec<[u32; 8]>, AllocError>
    ensures { IfOk result (λ pins. pins.items ≡ replicate rows (replicate 8 0)) }
{
    let mut pins = Vec::with_capacity(alloc, rows)?;
    while pins.len() < rows {
        pins.push([0; 8])?;
    }
    Ok(pins)
}

// Has a table take in notes, one after the other.
fn take_all(alloc: Global, shard: &mut Shard, notes: &[Note]) -> Result<(), AllocError>
    ensures { IfOk result (λ _. TakesNotes shard.old notes.now shard.new) }
{
    for note in notes {
        shard.take(note.share()?);
    }
    Ok(())
}

// For how many children is read ahead at a time.
const AHEAD: usize = 32;

// What a look reads first of the row at a place: how many entries it has, and how many visits are
// below the first of its slots.
fn read_at(shard: &Shard, pins: &[[u32; 8]], place: usize) -> u64 {
    let below = match pins.get(place) {
        Some(counts) => counts[0],
        None => 0,
    };
    u64::from(below) ^ shard.count(place) as u64
}

impl LonePort {
    /// The table and the desk of a problem, with the rows, the visits and the room of the settings,
    /// which say too whether the table lends; nothing is known, drawn, claimed or posted. Takes all
    /// the table's memory but for that of the notes. Errors: want of memory alone.
    #[tactic(auto, using(crate::proofs::Asked::alone_suits))]
    pub fn make(
        alloc: Global,
        problem: &Problem,
        settings: &Settings,
    ) -> Result<LonePort, AllocError>
        ensures made { IfOk result (λ port. port
            ≡ alone_at_first problem.now.position settings.now.expansions settings.now.room
            settings.now.rows settings.now.lends) }
        // A worker in the search of the problem may begin to work over it.
        ensures suits { IfOk result (λ port. (number : ℕ)
            → Suits (worker_at_first problem.now.position number) (book_of port)) }
    {
        let rows = settings.rows as usize;
        let shard = Shard::make(alloc, rows)?;
        let pins = no_pins(alloc, rows)?;
        Ok(LonePort {
            shard,
            pins,
            desk: Desk::make(problem, settings),
            is_going: true,
            stops: false,
            lends: settings.lends,
        })
    }

    /// The same, in which notes are known: the table has taken them in, one after the other, and
    /// what the first says that is about the problem, or may be carried to it, is posted. The notes
    /// hold on every path, and are for the problem's attacker. Errors: want of memory alone.
    #[tactic(auto, using(crate::proofs::Filling::filled_suits))]
    pub fn make_filled(
        alloc: Global,
        problem: &Problem,
        settings: &Settings,
        notes: &[Note],
    ) -> Result<LonePort, AllocError>
        requires known { All (IsKnown problem.now.position.side) notes.now }
        ensures filled { IfOk result
            (IsFilled notes.now (alone_at_first problem.now.position settings.now.expansions
            settings.now.room settings.now.rows settings.now.lends)) }
        // A worker in the search of the problem may begin to work over it.
        ensures suits { IfOk result (λ port. (number : ℕ)
            → Suits (worker_at_first problem.now.position number) (book_of port)) }
    {
        let rows = settings.rows as usize;
        let mut shard = Shard::make(alloc, rows)?;
        take_all(alloc, &mut shard, notes)?;
        let mut desk = Desk::make(problem, settings);
        if let Some(note) = known_answer(alloc, problem, notes)? {
            desk.post(note);
        }
        let pins = no_pins(alloc, rows)?;
        Ok(LonePort {
            shard,
            pins,
            desk,
            is_going: true,
            stops: false,
            lends: settings.lends,
        })
    }

    /// Begins anew with another problem, with the visits and the room of these settings, lending as
    /// they say, and with as many rows as before: nothing is known, drawn, claimed or posted, as
    /// where it was just made. In the time of the rows that had entries. Takes no memory.
    #[tactic(auto, using(crate::proofs::Asked::alone_suits))]
    pub fn renew(&mut self, problem: &Problem, settings: &Settings)
        requires { length self.old.rows ≡ settings.now.rows }
        ensures made { self.new
            ≡ alone_at_first problem.now.position settings.now.expansions settings.now.room
            settings.now.rows settings.now.lends }
        // A worker in the search of the problem may begin to work over it.
        ensures suits { (number : ℕ)
            → Suits (worker_at_first problem.now.position number) (book_of self.new) }
    {
        self.shard.empty(self.pins.as_mut_slice());
        self.desk = Desk::make(problem, settings);
        self.is_going = true;
        self.stops = false;
        self.lends = settings.lends;
    }

    /// Opens it for a turn of a worker that doesn't wind up: it goes on, and says so whether the
    /// worker is to stop. Nothing else changes. Takes no memory.
    pub fn open(&mut self, stops: bool)
        ensures { self.new ≡ opened self.old stops }
    {
        self.is_going = true;
        self.stops = stops;
    }

    /// How many rows its table has. Takes no memory.
    pub fn rows(&self) -> usize
        ensures { result ≡ length self.now.rows }
    {
        self.pins.len()
    }

    /// How many visits were drawn. Takes no memory.
    pub fn drawn(&self) -> u64
        ensures { result ≡ self.now.desk.drawn }
    {
        self.desk.drawn()
    }

    /// For how many notes room was claimed. Takes no memory.
    pub fn claimed(&self) -> u32
        ensures { result ≡ self.now.desk.claimed }
    {
        self.desk.claimed()
    }

    /// The note that is posted. Takes no memory.
    pub fn posted(&self) -> Option<&Note>
        ensures { option_copied result ≡ self.now.desk.posted }
    {
        self.desk.posted()
    }

    /// The note that is posted, for its owner. Takes no memory.
    pub fn into_note(self) -> Option<Note>
        ensures { result ≡ self.desk.posted }
    {
        self.desk.into_note()
    }

    /// How many visits are below the slot of the key's entry; 0 where its row has none. Takes no
    /// memory.
    pub fn below(&self, key: &Key) -> u64
        ensures { IsBelow self.now.rows self.now.pins key.now result }
    {
        self.shard.laws();
        let spot = self.shard.spot_of(key);
        let Some(slot) = self.shard.slot_of(spot, key) else {
            return 0;
        };
        u64::from(self.pins[spot.place][slot])
    }

    /// What the type keeps, and what its desk and its rows do: what is posted answers the problem,
    /// and each entry is true. Does nothing; whoever wants to know this calls it. Takes no memory.
    pub fn laws(&self)
        ensures lone { IsLone self.now }
        ensures desk { IsDesk self.now.desk }
        ensures rows { All IsRow self.now.rows }
    {
        self.shard.laws();
        self.desk.laws();
    }
}

impl Port for LonePort {
    ghost use Rattle.lone_port.specs.Lone.{book_of, Turns};

    ghost book = { book_of };

    ghost turn = { Turns };

    fn poll(&mut self) -> bool {
        self.stops
    }

    fn draw(&mut self) -> Draw {
        self.desk.laws();
        let draw = self.desk.draw();
        match draw {
            Draw::Go(_) => {}
            Draw::Done => self.is_going = false,
            Draw::Spent => self.is_going = false,
        }
        draw
    }

    fn claim(&mut self) -> RoomAnswer {
        let claim = self.desk.claim();
        match claim {
            RoomAnswer::Room(_) => {}
            RoomAnswer::NoRoom => self.is_going = false,
        }
        claim
    }

    fn look(&mut self, key: &Key, path: &Path) -> Result<Seen, AllocError> {
        self.shard.laws();
        let spot = self.shard.spot_of(key);
        let mut pins = RowPins {
            counts: &self.pins[spot.place],
        };
        let to = to_whom(self.lends, &self.desk);
        self.shard.look(to, spot, key, path, &mut pins)
    }

    fn enter(&mut self, key: &Key, numbers: Numbers) -> Kept {
        self.shard.laws();
        let spot = self.shard.spot_of(key);
        let mut pins = RowPins {
            counts: &self.pins[spot.place],
        };
        let kept = self.shard.enter(spot, key, numbers, &mut pins);
        match kept {
            Kept::Slot(slot) => self.pins[spot.place][slot as usize] += 1,
            Kept::Unkept => {}
        }
        kept
    }

    fn leave(&mut self, kept: Kept, key: &Key, update: Update) {
        let Kept::Slot(slot) = kept else {
            return;
        };
        self.shard.laws();
        let spot = self.shard.spot_of(key);
        self.pins[spot.place][slot as usize] -= 1;
        self.shard.leave_held(spot, slot, key, update);
    }

    fn read_ahead(&self, children: &[Child]) -> u64 {
        // All places come first: so what is read at one doesn't wait for the place of the next.
        let mut places = [0; AHEAD];
        for (place, child) in places.iter_mut().zip(children.iter()) {
            *place = self.shard.spot_of(&child.key).place;
        }
        let mut read = 0;
        for place in places.iter().take(children.len()) {
            read ^= read_at(&self.shard, &self.pins, *place);
        }
        read
    }

    fn post(&mut self, note: Note) {
        self.desk.post(note);
    }
}
