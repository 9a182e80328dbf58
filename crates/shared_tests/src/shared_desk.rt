// A desk that several seats draw from, in turn and by four threads at once.
ghost use Rattle.std.specs.Prelude.{◌≡◌, ◌+◌, ◌-◌, ◌<◌, [], false, length, All, IfOk, IfSome, IsTrue, OnSome};
ghost use Rattle.notes.specs.Valid.{EndsInEscape};
ghost use Rattle.unit_desk.specs.Desk.{IsAnswerTo};
ghost use Rattle.word_desk.specs.WordDesk.{unused};

use crate::problems::{alone, settings};
use crate::same::same;
use notes::{Draw, Note, RoomAnswer, escape_end};
use shogi_rules::Problem;
use shogi_rules::trial::trial_checks;
use std::alloc::{AllocError, Global};
use std::collections::VecDeque;
use std::process::Abort;
use std::test::Fail;
use std::thread::{Threads, join};
use word_desk::{DeskSeat, WordDesk};

// So many new seats of a desk.
fn new_seats(
    alloc: Global,
    desk: &WordDesk,
    first: &mut DeskSeat,
    count: u64,
) -> Result<VecDeque<DeskSeat>, AllocError>
    requires desk { first.old.desk ≡ desk.now }
    requires goes_on { (first.old.draw_ends ≡ 0) × (first.old.claim_ends ≡ 0) }
    requires parts { count < first.old.parts }
    ensures first { IfOk result (λ seats. first.new
        ≡ record first.old { parts = first.old.parts - count }) }
    ensures seats { IfOk result (λ seats. All (λ seat. seat ≡ unused desk.now 1) seats.items) }
    ensures count { IfOk result (λ seats. length seats.items ≡ count) }
{
    let mut seats = VecDeque::new(alloc);
    for _ in 0..count {
        seats.push_back(desk.make_seat(first))?;
    }
    Ok(seats)
}

// The visit that a seat draws, if it gets one.
fn drawn_by(desk: &WordDesk, seat: &mut DeskSeat) -> Option<u64>
    requires desk { seat.old.desk ≡ desk.now }
    requires goes_on { seat.old.draw_ends ≡ 0 }
    ensures same { (seat.new.desk ≡ desk.now) × (seat.new.parts ≡ seat.old.parts) }
    ensures claims { seat.new.claim_ends ≡ seat.old.claim_ends }
    ensures goes_on { OnSome result (seat.new.draw_ends ≡ 0) }
{
    match desk.draw(seat) {
        Draw::Go(visit) => Some(visit),
        Draw::Done => None,
        Draw::Spent => None,
    }
}

// Seats draw in turn until each has got none, and what they got.
fn draw_in_turn(
    alloc: Global,
    desk: &WordDesk,
    mut waiting: VecDeque<DeskSeat>,
) -> Result<(VecDeque<DeskSeat>, Vec<u64>), AllocError>
    requires { All (λ seat. seat ≡ unused desk.now 1) waiting.items }
    ensures seats { IfOk result (λ r. All (λ seat. (seat.desk ≡ desk.now)
        × (seat.parts ≡ 1)) r.0.items) }
    ensures count { IfOk result (λ r. length r.0.items ≡ length waiting.items) }
{
    let mut ended = VecDeque::new(alloc);
    let mut visits = Vec::new(alloc);
    for _ in 0..1_000 {
        let Some(mut seat) = waiting.pop_front() else {
            return Ok((ended, visits));
        };
        if let Some(visit) = drawn_by(desk, &mut seat) {
            visits.push(visit)?;
            waiting.push_back(seat)?;
            continue;
        }
        ended.push_back(seat)?;
    }
    Err(AllocError)
}

// Joins all seats to the first.
fn join_all(desk: &WordDesk, first: &mut DeskSeat, mut seats: VecDeque<DeskSeat>)
    requires first { first.old.desk ≡ desk.now }
    requires seats { All (λ seat. (seat.desk ≡ desk.now) × (seat.parts ≡ 1)) seats.items }
    ensures desk { first.new.desk ≡ desk.now }
    ensures parts { first.new.parts ≡ first.old.parts + length seats.items }
{
    while let Some(seat) = seats.pop_front() {
        desk.join_seat(first, seat);
    }
}

// All seats, and what they got.
fn together(
    desk: &WordDesk,
    mut seats: VecDeque<DeskSeat>,
    mut visits: Vec<u64>,
    mut others: VecDeque<DeskSeat>,
    more: Vec<u64>,
) -> Result<(VecDeque<DeskSeat>, Vec<u64>), AllocError>
    requires seats { All (λ seat. (seat.desk ≡ desk.now) × (seat.parts ≡ 1)) seats.items }
    requires others { All (λ seat. (seat.desk ≡ desk.now) × (seat.parts ≡ 1)) others.items }
    ensures seats { IfOk result (λ r. All (λ seat. (seat.desk ≡ desk.now)
        × (seat.parts ≡ 1)) r.0.items) }
    ensures count { IfOk result (λ r. length r.0.items ≡ length seats.items + length others.items) }
{
    seats.append(&mut others)?;
    visits.extend_from_slice(more.as_slice())?;
    Ok((seats, visits))
}

// Two threads with seats of their own, which draw in turn in each: all seats, and what they got.
fn both_draw<R: Threads + Sync>(
    rt: &R,
    alloc: Global,
    desk: &WordDesk,
    one: VecDeque<DeskSeat>,
    two: VecDeque<DeskSeat>,
) -> Result<(VecDeque<DeskSeat>, Vec<u64>), AllocError>
    requires one { All (λ seat. seat ≡ unused desk.now 1) one.items }
    requires two { All (λ seat. seat ≡ unused desk.now 1) two.items }
    ensures seats { IfOk result (λ r. All (λ seat. (seat.desk ≡ desk.now)
        × (seat.parts ≡ 1)) r.0.items) }
    ensures count { IfOk result (λ r. length r.0.items ≡ length one.items + length two.items) }
{
    let (low, high) = join(
        rt,
        || draw_in_turn(alloc, desk, one),
        || draw_in_turn(alloc, desk, two),
    );
    let (seats, visits) = low?;
    let (others, more) = high?;
    together(desk, seats, visits, others, more)
}

// A desk of so many visits and so much room, and its first seat.
fn desk_of(
    rt: &impl Abort,
    alloc: Global,
    problem: &Problem,
    expansions: u64,
    room: u32,
) -> Result<(WordDesk, DeskSeat), AllocError>
    ensures seat { IfOk result (λ made. made.1 ≡ unused made.0 65) }
    ensures position { IfOk result (λ made. made.0.position ≡ problem.now.position) }
{
    WordDesk::make(alloc, problem, &settings(rt, expansions, room))
}

// Whether the visits are those to 100, each once, and as many were drawn.
fn each_once(
    rt: &impl Abort,
    alloc: Global,
    row: &str,
    mut visits: Vec<u64>,
    drawn: u64,
) -> Result<(), AllocError> {
    let wanted: Vec<u64> = (1..=100).collect(alloc)?;
    visits.sort_unstable();
    same(rt, row, visits, wanted);
    same(rt, row, drawn, 100);
    Ok(())
}

#[test]
fn sixty_four_seats_draw_each_unit_once(rt: HostRuntime) -> Result<(), Fail> {
    let alloc = rt.alloc();
    let (desk, mut first) = desk_of(&rt, alloc, &alone(&rt), 100, 10)?;
    let seats = new_seats(alloc, &desk, &mut first, 64)?;
    let (ended, visits) = draw_in_turn(alloc, &desk, seats)?;
    join_all(&desk, &mut first, ended);
    let end = desk.close(first);
    each_once(&rt, alloc, "in turn", visits, end.drawn)?;
    same(&rt, "claims", (end.claimed, end.note.is_some()), (0, false));
    Ok(())
}

#[test]
fn four_threads_draw_each_unit_once(rt: HostRuntime) -> Result<(), Fail> {
    let alloc = rt.alloc();
    let (desk, mut first) = desk_of(&rt, alloc, &alone(&rt), 100, 10)?;
    let one = new_seats(alloc, &desk, &mut first, 16)?;
    let two = new_seats(alloc, &desk, &mut first, 16)?;
    let three = new_seats(alloc, &desk, &mut first, 16)?;
    let four = new_seats(alloc, &desk, &mut first, 16)?;
    let (low, high) = join(
        &rt,
        || both_draw(&rt, alloc, &desk, one, two),
        || both_draw(&rt, alloc, &desk, three, four),
    );
    let (seats, mut visits) = low?;
    let (others, more) = high?;
    join_all(&desk, &mut first, seats);
    join_all(&desk, &mut first, others);
    visits.extend_from_slice(more.as_slice())?;
    let end = desk.close(first);
    each_once(&rt, alloc, "by threads", visits, end.drawn)?;
    Ok(())
}

// Whether the attacker has no check.
fn has_no_check(alloc: Global, problem: &Problem) -> Result<bool, AllocError>
    ensures { IfOk result (λ none. IsTrue none
        → EndsInEscape problem.now.position.side problem.now.position) }
{
    let checks = trial_checks(alloc, problem, &problem.position)?;
    if checks.len() > 0 {
        return Ok(false);
    }
    Ok(true)
}

// The note that the problem is none, for want of a check.
pub(crate) fn escape(alloc: Global, problem: &Problem) -> Result<Option<Note>, AllocError>
    ensures { IfOk result (λ found. IfSome found (IsAnswerTo problem.now.position)) }
{
    if !has_no_check(alloc, problem)? {
        return Ok(None);
    }
    let Ok(note) = escape_end(alloc, problem, &problem.position) else {
        return Err(AllocError);
    };
    Ok(Some(note))
}

// The note for which a seat claims room, if it gets any.
fn claimed_by(desk: &WordDesk, seat: &mut DeskSeat) -> Option<u32>
    requires desk { seat.old.desk ≡ desk.now }
    requires goes_on { seat.old.claim_ends ≡ 0 }
    ensures same { (seat.new.desk ≡ desk.now) × (seat.new.parts ≡ seat.old.parts) }
    ensures draws { seat.new.draw_ends ≡ seat.old.draw_ends }
    ensures goes_on { OnSome result (seat.new.claim_ends ≡ 0) }
{
    match desk.claim(seat) {
        RoomAnswer::Room(note) => Some(note),
        RoomAnswer::NoRoom => None,
    }
}

#[test]
fn a_posted_note_stays_and_ends_all_draws(rt: HostRuntime) -> Result<(), Fail> {
    let alloc = rt.alloc();
    let problem = alone(&rt);
    let (desk, mut first) = desk_of(&rt, alloc, &problem, 100, 1)?;
    let mut second = desk.make_seat(&mut first);
    let visit = drawn_by(&desk, &mut second).ok_or("a visit")?;
    same(&rt, "visit", visit, 1);
    let note = claimed_by(&desk, &mut second).ok_or("room")?;
    same(&rt, "room", note, 1);
    same(&rt, "no room", claimed_by(&desk, &mut first), None);
    let answer = escape(alloc, &problem)?.ok_or("an answer")?;
    desk.post(&mut first, answer);
    same(&rt, "done", desk.draw(&mut second), Draw::Done);
    desk.join_seat(&mut first, second);
    let end = desk.close(first);
    same(&rt, "counts", (end.drawn, end.claimed), (1, 1));
    same(&rt, "note", end.note.is_some(), true);
    Ok(())
}
