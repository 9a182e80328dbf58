// The workers have ended: their seats come back.
ghost use Rattle.std.specs.Prelude.{◌≡◌, ◌≤◌, ◌+◌, ◌++◌, [], All, length, map, reverse};
ghost use Rattle.std.specs.Vec.{vec_capacity};
ghost use Rattle.word_desk.specs.WordDesk.{joined};
ghost use Rattle.search_crew.specs.Inside.{IsAtRest, joined_all};

use crate::lane::Lane;
use search_gate::{Gate, Stop};
use shared_table::{Job, Rows};
use word_desk::{DeskSeat, WordDesk};
use worker_core::Worker;
use worker_counts::{CountSeat, WorkerCounts};

// The words that count workers, and the desk.
#[derive(Clone, Copy, Drop)]
pub(crate) struct Words<'a> {
    pub(crate) counts: &'a WorkerCounts,
    pub(crate) desk: &'a WordDesk,
}

// Takes a lane apart: its seats are joined to the first ones, and its worker and its stop are
// handed out.
fn join_lane<J: Job, X: Rows<J> + Drop, G: Gate, T: Stop + Drop>(
    words: Words<'_>,
    lane: Lane<'_, J, X, G, T>,
    seat: &mut CountSeat,
    desk_seat: &mut DeskSeat,
) -> (Worker, T)
    requires at { (seat.old.counts ≡ words.counts.now) × (desk_seat.old.desk ≡ words.desk.now) }
    requires rest { IsAtRest words.counts.now words.desk.now lane }
    requires none { seat.old.view.added ≡ [] }
    ensures worker { result.0 ≡ lane.entry.worker }
    ensures stop { T.signal result.1 ≡ lane.entry.signal }
    ensures counts { seat.new.counts ≡ seat.old.counts }
    ensures none { seat.new.view.added ≡ [] }
    ensures parts { seat.new.view.parts ≡ seat.old.view.parts + 1 }
    ensures desk { desk_seat.new ≡ joined desk_seat.old lane.entry.desk }
    ensures desk_parts { desk_seat.new.parts ≡ desk_seat.old.parts + 1 }
{
    let (worker, other, other_desk, stop) = lane.into_parts();
    words.counts.join_seat(seat, other);
    words.desk.join_seat(desk_seat, other_desk);
    (worker, stop)
}

/// Takes all lanes apart: their seats are joined to the first ones, the workers go into the crew,
/// and their stops behind the others, the last one first; there is room for all.
pub(crate) fn gather<J: Job, X: Rows<J> + Drop, G: Gate, T: Stop + Drop>(
    words: Words<'_>,
    mut lanes: Vec<Lane<'_, J, X, G, T>>,
    seat: &mut CountSeat,
    desk_seat: &mut DeskSeat,
    crew: &mut Vec<Worker>,
    stops: &mut Vec<T>,
)
    requires at { (seat.old.counts ≡ words.counts.now) × (desk_seat.old.desk ≡ words.desk.now) }
    requires rest { All (IsAtRest words.counts.now words.desk.now) lanes.items }
    requires none { seat.old.view.added ≡ [] }
    requires crew { length crew.old.items + length lanes.items ≤ vec_capacity crew.old }
    requires stops { length stops.old.items + length lanes.items ≤ vec_capacity stops.old }
    ensures crew { map (λ lane. lane.worker) lanes.entry.items ++ reverse crew.old.items
        ≡ reverse crew.new.items }
    ensures stops { map (λ lane. lane.signal) lanes.entry.items ++ reverse
        (map T.signal stops.old.items) ≡ reverse (map T.signal stops.new.items) }
    ensures counts { seat.new.counts ≡ seat.old.counts }
    ensures none { seat.new.view.added ≡ [] }
    ensures parts { seat.new.view.parts ≡ seat.old.view.parts + length lanes.entry.items }
    ensures desk { desk_seat.new ≡ joined_all desk_seat.old lanes.entry.items }
    ensures desk_parts { desk_seat.new.parts ≡ desk_seat.old.parts + length lanes.entry.items }
{
    while let Some(lane) = lanes.pop() {
        let (worker, stop) = join_lane(words, lane, seat, desk_seat);
        crew.push_reserved(worker);
        stops.push_reserved(stop);
    }
}
