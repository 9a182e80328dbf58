// The desk.
ghost use Rattle.std.specs.Prelude.{◌≡◌, ◌↔◌, option_copied};
ghost use Rattle.notes.specs.declared.words.Draw.TheVariants.{Done, Spent};
ghost use Rattle.notes.specs.declared.words.RoomAnswer.TheVariants.{NoRoom};
ghost use Rattle.unit_desk.specs.Desk.{IsAnswerTo, IsDesk, HasPosted, Draws, Claims, fresh, first_posted};

use board_core::{Position, Side};
use notes::{Draw, Note, RoomAnswer};
use search_limits::Settings;
use shogi_rules::Problem;
use std::marker::Model;

/// Hands out the visits and the room of a search, and keeps the note that answers its problem.
///
/// It keeps that no more visits were drawn, and no more room claimed, than there are, and that the
/// note that is posted answers the problem: it holds on every path, is about the problem's
/// position, and for its attacker. No call takes memory.
#[derive(Drop)]
pub struct Desk {
    position: Position,
    expansions: u64,
    room: u32,
    drawn: u64,
    claimed: u32,
    note: Option<Note>,
}

impl Model for Desk {
    ghost use Rattle.std.specs.Coded.{codes};
    ghost use Rattle.notes.specs.contracts.note.Note as facts;
    ghost use Rattle.unit_desk.specs.Desk.{DeskView, IsDesk};

    ghost Value = { DeskView };

    ghost coded = { Prim.hlevel (codes, facts.the_row.coded) };

    ghost view = { λ d. record { position = d.position; expansions = d.expansions; room = d.room; drawn = d.drawn; claimed = d.claimed; posted = d.note } };

    ghost invariant = { λ d. IsDesk (record { position = d.position; expansions = d.expansions; room = d.room; drawn = d.drawn; claimed = d.claimed; posted = d.note }) };
}

impl Desk {
    /// The desk of a problem, with the visits and the room of the settings: nothing is drawn,
    /// claimed or posted.
    pub fn make(problem: &Problem, settings: &Settings) -> Desk
        ensures { result ≡ fresh problem.now.position settings.now.expansions settings.now.room }
    {
        Desk {
            position: problem.position,
            expansions: settings.expansions,
            room: settings.room,
            drawn: 0,
            claimed: 0,
            note: None,
        }
    }

    /// The next visit: Done exactly where a note is posted; else Spent exactly where all
    /// visits were drawn; else the number of the visit, from 1, which is drawn then. Nothing else
    /// changes.
    pub fn draw(&mut self) -> Draw
        ensures draws { Draws self.old result self.new }
        ensures done { (result ≡ Done) ↔ HasPosted self.old }
        ensures spent { (result ≡ Spent)
            ↔ ((¬ HasPosted self.old) × (self.old.drawn ≡ self.old.expansions)) }
    {
        if self.note.is_some() {
            return Draw::Done;
        }
        if self.drawn == self.expansions {
            return Draw::Spent;
        }
        self.drawn += 1;
        Draw::Go(self.drawn)
    }

    /// Room for another note: NoRoom exactly where all room was claimed; else the number of the
    /// note, from 1, whose room is claimed then. Nothing else changes.
    pub fn claim(&mut self) -> RoomAnswer
        ensures claims { Claims self.old result self.new }
        ensures no_room { (result ≡ NoRoom) ↔ (self.old.claimed ≡ self.old.room) }
    {
        if self.claimed == self.room {
            return RoomAnswer::NoRoom;
        }
        self.claimed += 1;
        RoomAnswer::Room(self.claimed)
    }

    /// Posts a note that answers the problem: it holds on every path, is about the problem's
    /// position, and for its attacker. The first that is posted stays, and another is let go.
    /// Nothing else changes.
    pub fn post(&mut self, note: Note)
        requires { IsAnswerTo self.old.position note }
        ensures { self.new ≡ record self.old { posted = first_posted self.old.posted note } }
    {
        if self.note.is_none() {
            self.note = Some(note);
        }
    }

    /// The note that is posted.
    pub fn posted(&self) -> Option<&Note>
        ensures { option_copied result ≡ self.now.posted }
    {
        self.note.as_ref()
    }

    /// The note that is posted, for its owner.
    pub fn into_note(self) -> Option<Note>
        ensures { result ≡ self.posted }
    {
        self.note
    }

    /// The attacker of the problem, who is to move in its position.
    pub fn attacker(&self) -> Side
        ensures { result ≡ self.now.position.side }
    {
        self.position.side()
    }

    /// How many visits were drawn.
    pub fn drawn(&self) -> u64
        ensures { result ≡ self.now.drawn }
    {
        self.drawn
    }

    /// For how many notes room was claimed.
    pub fn claimed(&self) -> u32
        ensures { result ≡ self.now.claimed }
    {
        self.claimed
    }

    /// What the type keeps: no more is drawn or claimed than there is, and what is posted answers
    /// the problem. Does nothing; whoever wants to know this of a desk calls it.
    pub fn laws(&self)
        ensures { IsDesk self.now }
    {
        let _kept = &self.note;
    }
}
