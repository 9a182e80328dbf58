// What a shard does for one request of a worker.
ghost use Rattle.std.specs.Prelude.{◌≡◌, ◌+◌, ◌<◌, ◌≤◌, IfOk, IfSome, MatchResult, length};
ghost use Rattle.pn_numbers.specs.Numbers.{IsOpen};
ghost use Rattle.table_shard.specs.Row.{LooksBy};
ghost use Rattle.table_shard.specs.Shard.{row_of};
ghost use Rattle.visit_log.specs.Round.{MayShow};
ghost use Rattle.visit_log.specs.Sound.{IsSoundUpdate};
ghost use Rattle.worker_counts.specs.declared.view.TheConstants.{MOST_ADDED};
ghost use Rattle.shared_table.specs.Seat.{at_row, IsSameSeat, Loads};
ghost use Rattle.shared_table.specs.Calls.{EntersAndAdds, IsSiteOf, LeavesAndSubtracts, MayLeave};

use crate::job::Job;
use crate::seat::RowSeat;
use crate::shard::JobShard;
use bit_boards::Side;
use board_core::Key;
use notes::{Kept, Seen, Update};
use path_tags::Path;
use pn_numbers::Numbers;
use std::alloc::AllocError;
use table_shard::Site;

/// What a shard shows of a position, whose site this is, to a worker on the path; it lends to the
/// attacker, or to nobody, as `to` says. Where it shows numbers, the count of the slot's word is
/// loaded for it, and else none is. Errors: want of memory alone.
pub fn look_in<J: Job>(
    shard: &JobShard<J>,
    seat: &mut RowSeat<'_>,
    to: Option<Side>,
    site: Site,
    key: &Key,
    path: &Path,
) -> Result<Seen, AllocError>
    requires to { IfSome to (λ side. side ≡ J.ATTACKER) }
    requires site { IsSiteOf site key.now seat.old.seat.counts.words }
    ensures looks { MatchResult result
        (λ seen. LooksBy Loads to (row_of shard.now key.now) key.now path.now
        (at_row seat.old site.word) seen seat.new) (λ _. at_row seat.old site.word ≡ seat.new) }
    ensures may { IfOk result (MayShow J.ATTACKER key.now path.now) }
    ensures same { IsSameSeat (at_row seat.old site.word) seat.new }
{
    seat.go_to(site.word);
    shard.look(to, site.hash, key, path, seat)
}

/// Enters a position, whose site this is, as a shard does; where an entry has to be given up for
/// it, the counts of the row's eight words are loaded, in their order, and else none is. One worker
/// more is below the slot that is answered. The seat must have added fewer than `MOST_ADDED` so
/// far. Takes no memory.
pub fn enter_in<J: Job>(
    shard: &mut JobShard<J>,
    seat: &mut RowSeat<'_>,
    site: Site,
    key: &Key,
    numbers: Numbers,
) -> Kept
    requires site { IsSiteOf site key.now seat.old.seat.counts.words }
    requires open { IsOpen numbers }
    requires room { length seat.old.seat.view.added < MOST_ADDED }
    ensures { EntersAndAdds shard.old (at_row seat.old site.word) key.now numbers result shard.new
        seat.new }
{
    seat.go_to(site.word);
    let kept = shard.enter(site.hash, key, numbers, seat);
    match kept {
        Kept::Slot(slot) => seat.add(slot as usize),
        Kept::Unkept => {}
    }
    kept
}

/// Leaves a position, whose site this is, that was entered so, with an update, as a shard does:
/// where its entry is in the slot no more, nothing is updated. One worker less is below the slot
/// all the same. Takes no memory.
pub fn leave_in<J: Job>(
    shard: &mut JobShard<J>,
    seat: &mut RowSeat<'_>,
    site: Site,
    kept: Kept,
    key: &Key,
    update: Update,
)
    requires site { IsSiteOf site key.now seat.old.seat.counts.words }
    requires sound { IsSoundUpdate J.ATTACKER key.now update }
    requires may { MayLeave (at_row seat.old site.word) kept }
    ensures { LeavesAndSubtracts shard.old (at_row seat.old site.word) kept key.now update shard.new
        seat.new }
{
    seat.go_to(site.word);
    if let Kept::Slot(slot) = kept {
        seat.subtract(slot as usize);
        shard.leave(site.hash, slot, key, update);
    }
}
