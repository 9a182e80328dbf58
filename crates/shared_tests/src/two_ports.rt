// Two ports of one table: what one leaves, the other sees.
ghost use Rattle.std.specs.Prelude.{◌≡◌, ◌+◌, ◌<◌, ℕ, [], None};
ghost use Rattle.lone_port.specs.Lone.{worker_at_first};
ghost use Rattle.worker_core.specs.Port.{Suits};
ghost use Rattle.table_port.specs.Port.{book_of};
ghost use Rattle.bit_boards.specs.declared.piece.Side.TheVariants.{Black};
ghost use Rattle.search_limits.specs.declared.expansions.TheConstants.{MOST_EXPANSIONS};
ghost use Rattle.notes.specs.declared.words.Update.TheVariants.{Note as Noted};
ghost use Rattle.visit_log.specs.Sound.{IsSoundUpdate};

use crate::problems::{alone, settings};
use crate::same::same;
use crate::shared_desk::escape;
use bit_boards::Side;
use board_core::{Key, key};
use notes::{Kept, Note, Seen, Update};
use path_tags::Path;
use pn_numbers::Numbers;
use search_gate::{OpenGate, QuietStop};
use shared_table::{BlackJob, LockedRows, RowSeat, SharedTable, WhiteJob};
use shogi_rules::Problem;
use std::alloc::{AllocError, Global};
use std::slice;
use std::sync::Wait;
use std::test::Fail;
use table_port::{Cut, Seats, TablePort, Watch};
use visit_log::WorkEnd;
use word_desk::{DeskSeat, WordDesk};
use worker_core::{Port, Worker, work};
use worker_counts::CountSeat;

// A worker's port of a table in black's search.
type BlackPort<'a, R> = TablePort<'a, BlackJob, LockedRows<'a, BlackJob, R>, OpenGate, QuietStop>;

// A look, in short: nothing, or the numbers and how many workers are below; a note is told as 0.
fn looked<P: Port>(
    alloc: Global,
    port: &mut P,
    key: &Key,
) -> Result<Option<(u32, u32, u64)>, AllocError>
    ensures size { (P.book port.new).size ≡ (P.book port.old).size }
    ensures problem { (P.book port.new).problem ≡ (P.book port.old).problem }
{
    Ok(match port.look(key, &Path::make(alloc))? {
        Seen::New => None,
        Seen::Open { numbers, below } => Some((numbers.pn, numbers.dn, below)),
        Seen::Solved(_) | Seen::Lent(_) => Some((0, 0, 0)),
    })
}

// One port enters a position, and the other sees that; then the first leaves it.
fn entered_and_left<P: Port>(
    alloc: Global,
    one: &mut P,
    two: &mut P,
    key: &Key,
    update: Update,
) -> Result<Option<(u32, u32, u64)>, AllocError>
    requires few { (P.book one.old).size < MOST_EXPANSIONS }
    requires sound { IsSoundUpdate (P.book one.old).problem.side key.now update }
    ensures size { ((P.book one.new).size ≡ (P.book one.old).size)
        × ((P.book two.new).size ≡ (P.book two.old).size) }
    ensures problem { ((P.book one.new).problem ≡ (P.book one.old).problem)
        × ((P.book two.new).problem ≡ (P.book two.old).problem) }
{
    let kept = one.enter(key, Numbers::ONE);
    let seen = looked(alloc, two, key);
    one.leave(kept, key, update);
    seen
}

// The port of a worker with new seats.
fn port_of<'a, R: Wait>(
    wait: &'a R,
    table: &'a SharedTable<BlackJob, WhiteJob>,
    desk: &'a WordDesk,
    seat: &mut CountSeat,
    desk_seat: &mut DeskSeat,
    gate: &'a OpenGate,
    number: u32,
) -> BlackPort<'a, R>
    requires seat { (seat.old.counts ≡ table.now.words) × (1 < seat.old.view.parts) }
    requires desk_seat { (desk_seat.old.desk ≡ desk.now) × (1 < desk_seat.old.parts)
        × (desk_seat.old.draw_ends ≡ 0) × (desk_seat.old.claim_ends ≡ 0) }
    requires black { desk.now.position.side ≡ Black }
    ensures seat { (seat.new.counts ≡ seat.old.counts)
        × (seat.new.view.parts + 1 ≡ seat.old.view.parts) }
    ensures desk_seat { (desk_seat.new.desk ≡ desk_seat.old.desk)
        × (desk_seat.new.parts + 1 ≡ desk_seat.old.parts) × (desk_seat.new.draw_ends ≡ 0)
        × (desk_seat.new.claim_ends ≡ 0) }
    ensures size { result.seats.row.seat.view.added ≡ [] }
    ensures desk { result.seats.desk_seat.desk ≡ desk.now }
    ensures at { result.seats.desk.now ≡ desk.now }
    ensures suits { (number : ℕ) → Suits (worker_at_first desk.now.position number)
        (book_of (record {
          cut = result.cut;
          shards = None;
          seat = result.seats.row;
          desk =
              result.seats.desk_seat;
        })) }
{
    table.laws();
    let cut = Cut {
        shards: table.shards(),
        own: table.own(),
        to: None,
    };
    let seats = Seats {
        row: RowSeat::new(table.words(), table.words().make_seat(seat)),
        desk,
        desk_seat: desk.make_seat(desk_seat),
    };
    let watch = Watch {
        number,
        gate,
        stop: QuietStop::new(),
    };
    TablePort::new(table.rows(wait), cut, seats, watch)
}

#[test]
fn two_ports_see_what_the_other_leaves(rt: HostRuntime) -> Result<(), Fail> {
    let alloc = rt.alloc();
    let problem = alone(&rt);
    if problem.attacker() != Side::Black {
        return Err(Fail::from("white attacks"));
    }
    let Some(note) = escape(alloc, &problem)? else {
        return Err(Fail::from("no note"));
    };
    let (table, mut seat) = SharedTable::<BlackJob, WhiteJob>::make(
        alloc,
        &settings(&rt, 100, 10),
    )?;
    let (desk, mut desk_seat) = WordDesk::make(alloc, &problem, &settings(&rt, 100, 10))?;
    let gate = OpenGate;
    let mut one = port_of(&rt, &table, &desk, &mut seat, &mut desk_seat, &gate, 1);
    let mut two = port_of(&rt, &table, &desk, &mut seat, &mut desk_seat, &gate, 2);
    let key = key(&problem.position);
    let numbers = Numbers { pn: 3, dn: 5 };
    let seen = entered_and_left(alloc, &mut one, &mut two, &key, Update::Numbers(numbers))?;
    same(&rt, "entered by the other", seen, Some((1, 1, 1)));
    same(
        &rt,
        "left with numbers",
        looked(alloc, &mut two, &key)?,
        Some((3, 5, 0)),
    );
    let seen = entered_and_left(alloc, &mut two, &mut one, &key, Update::Note(note))?;
    same(&rt, "entered again", seen, Some((3, 5, 1)));
    same(
        &rt,
        "left with a note",
        looked(alloc, &mut one, &key)?,
        Some((0, 0, 0)),
    );
    let (_rows, _seat, _desk_seat, _stop) = one.into_parts();
    let (_rows, _seat, _desk_seat, _stop) = two.into_parts();
    let table = table.emptied();
    let mut three = port_of(&rt, &table, &desk, &mut seat, &mut desk_seat, &gate, 3);
    let seen = looked(alloc, &mut three, &key)?;
    same(&rt, "once the table is emptied", seen, None);
    Ok(())
}

#[test]
fn a_table_shows_what_was_known(rt: HostRuntime) -> Result<(), Fail> {
    let alloc = rt.alloc();
    let problem = alone(&rt);
    if problem.attacker() != Side::Black {
        return Err(Fail::from("white attacks"));
    }
    let Some(note) = escape(alloc, &problem)? else {
        return Err(Fail::from("no note"));
    };
    if note.attacker() != Side::Black {
        return Err(Fail::from("a note for white"));
    }
    let settings = settings(&rt, 100, 10);
    let (table, mut seat) = SharedTable::<BlackJob, WhiteJob>::make(alloc, &settings)?;
    let (desk, mut desk_seat) = WordDesk::make(alloc, &problem, &settings)?;
    table.take_all(&rt, slice::from_ref(&note))?;
    let gate = OpenGate;
    let mut port = port_of(&rt, &table, &desk, &mut seat, &mut desk_seat, &gate, 1);
    let seen = looked(alloc, &mut port, &key(&problem.position))?;
    same(&rt, "what was known", seen, Some((0, 0, 0)));
    Ok(())
}

// How a worker over a port ended, and how many visits it was given.
fn worked<R: Wait>(
    alloc: Global,
    problem: &Problem,
    mut port: BlackPort<'_, R>,
    number: u32,
) -> (WorkEnd, u64)
    requires { Suits (worker_at_first problem.now.position number)
        (book_of (record {
          cut = port.cut;
          shards = None;
          seat = port.seats.row;
          desk =
              port.seats.desk_seat;
        })) }
{
    let mut worker = Worker::make(alloc, problem, number);
    let end = work(alloc, &mut worker, &mut port);
    (end, worker.visits())
}

#[test]
fn a_worker_that_comes_late_finds_a_note(rt: HostRuntime) -> Result<(), Fail> {
    let alloc = rt.alloc();
    let problem = alone(&rt);
    if problem.attacker() != Side::Black {
        return Err(Fail::from("white attacks"));
    }
    let settings = settings(&rt, 1, 10);
    let (table, mut seat) = SharedTable::<BlackJob, WhiteJob>::make(alloc, &settings)?;
    let (desk, mut desk_seat) = WordDesk::make(alloc, &problem, &settings)?;
    let gate = OpenGate;
    let one = port_of(&rt, &table, &desk, &mut seat, &mut desk_seat, &gate, 1);
    let two = port_of(&rt, &table, &desk, &mut seat, &mut desk_seat, &gate, 2);
    same(
        &rt,
        "the first",
        worked(alloc, &problem, one, 1),
        (WorkEnd::Posted, 1),
    );
    same(
        &rt,
        "the second",
        worked(alloc, &problem, two, 2),
        (WorkEnd::Posted, 0),
    );
    Ok(())
}
