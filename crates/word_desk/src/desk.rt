// The desk, which threads share.
ghost use Rattle.std.specs.Prelude.{◌≡◌, ◌+◌, ◌-◌, ◌<◌, IfOk};
ghost use Rattle.std.specs.Option.{option_or};
ghost use Rattle.unit_desk.specs.Desk.{IsAnswerTo};
ghost use Rattle.word_desk.specs.declared.view.TheConstants.{MOST_SEATS};
ghost use Rattle.word_desk.specs.WordDesk.{Draws, Claims, Posts, Ends, unused, joined};

use crate::rule::{ClaimStep, DrawStep, LookStep, NumbersOnce, Parts, PostStep};
use crate::seat::DeskSeat;
use crate::view::{POSTED, View};
use atomic_table::Table;
use board_core::Position;
use notes::{Draw, Note, RoomAnswer};
use search_limits::Settings;
use shogi_rules::Problem;
use std::alloc::{AllocError, Global};
use std::marker::Model;

// The word of the tickets, and of whether a note is posted.
const VISITS: usize = 0;

// The word of the claims.
const CLAIMS: usize = 1;

/// Hands out the visits and the room of a search to threads that share it by `&`. Its counts are
/// two words side by side; a draw and a claim are one instruction on one of them. None of its calls
/// waits, and none fails or takes memory but [`make`](WordDesk::make).
///
/// Contracts see which words it has, the problem's position, and how many visits and notes there
/// may be.
#[derive(Drop)]
pub struct WordDesk {
    table: Table<u8, View, (), NumbersOnce, Global>,
    position: Position,
    expansions: u64,
    room: u32,
}

impl Model for WordDesk {
    ghost use Rattle.std.specs.Prelude.{◌≡◌};
    ghost use Rattle.search_limits.specs.Sizes.{IsFromTo};
    ghost use Rattle.search_limits.specs.declared.expansions.TheConstants.{MOST_EXPANSIONS};
    ghost use Rattle.search_limits.specs.declared.settings.TheConstants.{MOST_ROOM};
    ghost use Rattle.word_desk.specs.WordDesk.{WordDeskView};

    ghost Value = { WordDeskView };

    ghost view = { λ d. record { words = d.table.shared.table_id; position = d.position; expansions = d.expansions; room = d.room } };

    ghost invariant = { λ d.
        (d.table.shared.table_id.words ≡ 2)
        × (d.table.shared.table_id.slots ≡ 0)
        × IsFromTo 1 MOST_EXPANSIONS d.expansions
        × IsFromTo 1 MOST_ROOM d.room };
}

/// What a desk comes to.
#[derive(Drop)]
pub struct DeskEnd {
    /// How many visits were drawn.
    pub drawn: u64,
    /// For how many notes room was claimed.
    pub claimed: u32,
    /// The note that was posted first.
    pub note: Option<Note>,
}

impl WordDesk {
    /// The desk of a problem, with the visits and the room of the settings, and its first seat,
    /// which has every part. Nothing is drawn, claimed or posted. Takes a few bytes; want of memory
    /// is its one error.
    pub fn make(
        alloc: Global,
        problem: &Problem,
        settings: &Settings,
    ) -> Result<(WordDesk, DeskSeat), AllocError>
        ensures position { IfOk result (λ made. made.0.position ≡ problem.now.position) }
        ensures expansions { IfOk result (λ made. made.0.expansions ≡ settings.now.expansions) }
        ensures room { IfOk result (λ made. made.0.room ≡ settings.now.room) }
        ensures seat { IfOk result (λ made. made.1 ≡ unused made.0 MOST_SEATS) }
    {
        let (table, seat) = Table::of_words(alloc, &[0, 0], &())?;
        let desk = WordDesk {
            table,
            position: problem.position,
            expansions: settings.expansions,
            room: settings.room,
        };
        let first = DeskSeat {
            seat,
            position: problem.position,
            expansions: settings.expansions,
            room: settings.room,
            drawn: 0,
            note: None,
        };
        Ok((desk, first))
    }

    /// The next visit: Done where a note is posted; else Spent where all visits were drawn; else
    /// the number of the visit, from 1, which no other draw gets. A seat that got none draws no
    /// more. That a note was posted, or all visits drawn, [`close`](WordDesk::close) tells; a draw
    /// tells its own seat alone.
    pub fn draw(&self, seat: &mut DeskSeat) -> Draw
        requires seat { seat.old.desk ≡ self.now }
        requires goes_on { seat.old.draw_ends ≡ 0 }
        ensures { Draws seat.old result seat.new }
    {
        let found = self
            .table
            .shared
            .fetch_add::<DrawStep>(&mut seat.seat, VISITS, 1);
        if found >= POSTED {
            return Draw::Done;
        }
        if found >= self.expansions {
            return Draw::Spent;
        }
        seat.drawn += 1;
        Draw::Go(found + 1)
    }

    /// Room for another note: NoRoom where all room was claimed; else the number of the note, from
    /// 1, which no other claim gets. A seat that got none claims no more. That all room was
    /// claimed, [`close`](WordDesk::close) tells.
    pub fn claim(&self, seat: &mut DeskSeat) -> RoomAnswer
        requires seat { seat.old.desk ≡ self.now }
        requires goes_on { seat.old.claim_ends ≡ 0 }
        ensures { Claims seat.old result seat.new }
    {
        let found = self
            .table
            .shared
            .fetch_add::<ClaimStep>(&mut seat.seat, CLAIMS, 1);
        if found >= u64::from(self.room) {
            return RoomAnswer::NoRoom;
        }
        RoomAnswer::Room(found as u32 + 1)
    }

    /// Posts a note that answers the problem: it holds on every path, is about the problem's
    /// position, and for its attacker. The first that is posted at the desk stays, with its seat,
    /// and another is let go.
    pub fn post(&self, seat: &mut DeskSeat, note: Note)
        requires seat { seat.old.desk ≡ self.now }
        requires answer { IsAnswerTo self.now.position note }
        ensures { Posts seat.old note seat.new }
    {
        let found = self
            .table
            .shared
            .fetch_or::<PostStep>(&mut seat.seat, VISITS, POSTED);
        if found < POSTED {
            keep_first(&mut seat.note, Some(note));
        }
    }

    /// A new seat of the same desk, of one part of a seat that has another, and that got a visit
    /// and room whenever it asked.
    pub fn make_seat(&self, seat: &mut DeskSeat) -> DeskSeat
        requires seat { seat.old.desk ≡ self.now }
        requires parts { 1 < seat.old.parts }
        requires goes_on { (seat.old.draw_ends ≡ 0) × (seat.old.claim_ends ≡ 0) }
        ensures kept { seat.new ≡ record seat.old { parts = seat.old.parts - 1 } }
        ensures made { result ≡ unused self.now 1 }
    {
        DeskSeat {
            seat: self.table.shared.split_seat::<Parts>(&mut seat.seat),
            position: self.position,
            expansions: self.expansions,
            room: self.room,
            drawn: 0,
            note: None,
        }
    }

    /// Joins another seat to a seat: all that it has comes over.
    pub fn join_seat(&self, seat: &mut DeskSeat, other: DeskSeat)
        requires seats { (seat.old.desk ≡ self.now) × (other.desk ≡ self.now) }
        ensures { seat.new ≡ joined seat.old other }
    {
        let DeskSeat {
            seat: joined,
            position: _,
            expansions: _,
            room: _,
            drawn,
            note,
        } = other;
        self.table.shared.join_seat::<Parts>(&mut seat.seat, joined);
        let _visits = self.table.shared.load::<LookStep>(&mut seat.seat, VISITS);
        seat.drawn += drawn;
        keep_first(&mut seat.note, note);
    }

    /// What the desk comes to, once all seats are joined to one.
    pub fn close(self, seat: DeskSeat) -> DeskEnd
        requires seat { seat.desk ≡ self }
        requires every_part { seat.parts ≡ MOST_SEATS }
        ensures { Ends seat result.drawn result.claimed result.note }
    {
        let DeskSeat {
            seat: last,
            position: _,
            expansions: _,
            room: _,
            drawn,
            note,
        } = seat;
        let WordDesk {
            table,
            position: _,
            expansions: _,
            room,
        } = self;
        let closed = table.close_with(last);
        let claims = closed.word(CLAIMS);
        closed.free();
        DeskEnd {
            drawn,
            claimed: claims.min(u64::from(room)) as u32,
            note,
        }
    }
}

// Puts a note where there is none.
fn keep_first(kept: &mut Option<Note>, note: Option<Note>)
    ensures { kept.new ≡ option_or kept.old note }
{
    if kept.is_none() {
        *kept = note;
    }
}
