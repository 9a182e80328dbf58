// What a port does with the shard of a key, each once.
ghost use Rattle.std.specs.Prelude.{◌≡◌, ◌<◌, None, IfOk, IfSome, IsSomeAnd, length};
ghost use Rattle.pn_numbers.specs.Numbers.{IsOpen};
ghost use Rattle.visit_log.specs.Round.{MayShow};
ghost use Rattle.visit_log.specs.Sound.{IsSoundUpdate};
ghost use Rattle.worker_counts.specs.declared.view.TheConstants.{MOST_ADDED};
ghost use Rattle.shared_table.specs.Calls.{EntersAndAdds, LeavesAndSubtracts, MayLeave};
ghost use Rattle.shared_table.specs.Rows.{RanOn};
ghost use Rattle.shared_table.specs.Seat.{at_row, IsSameSeat};
ghost use Rattle.table_port.specs.Tasks.{IsAt, LooksAt, ShowsAt};

use bit_boards::Side;
use board_core::Key;
use notes::{Kept, Seen, Update};
use path_tags::Path;
use pn_numbers::Numbers;
use shared_table::{Job, JobShard, RowSeat, Rows, Task, enter_in, leave_in, look_in};
use std::alloc::AllocError;
use table_shard::Site;

// A look for a key.
#[derive(Drop)]
struct LookTask<'t, 'a> {
    seat: &'t mut RowSeat<'a>,
    to: Option<Side>,
    site: Site,
    key: &'t Key,
    path: &'t Path,
    answer: &'t mut Option<Result<Seen, AllocError>>,
}

impl<'t, 'a, J: Job> Task<J> for LookTask<'t, 'a> {
    ghost use Rattle.std.specs.Prelude.{◌≡◌, IfSome, IsSomeAnd};
    ghost use Rattle.table_port.specs.Tasks.{IsAt, IsMissing, LooksAt, not_both};

    ghost ready = { λ task. IsAt task.site task.key.now task.seat.now × IsMissing task.answer.now × IfSome task.to (λ side. side ≡ J.ATTACKER) };

    ghost ran = { λ before old after new. (after.seat.ghost_name ≡ before.seat.ghost_name) × (after.answer.ghost_name ≡ before.answer.ghost_name) × (new ≡ old)
        × IsSomeAnd after.answer.now (LooksAt J.ATTACKER before.to before.site before.key.now before.path.now before.seat.now old after.seat.now) };

    ghost once = { λ before after old new ran ready. not_both _ after.answer.now ran.3 ready.1 };

    fn run(&mut self, shard: &mut JobShard<J>) {
        *self.answer = Some(look_in(shard, self.seat, self.to, self.site, self.key, self.path));
    }
}

// An entering of a key, with these numbers where it is new.
#[derive(Drop)]
struct EnterTask<'t, 'a> {
    seat: &'t mut RowSeat<'a>,
    site: Site,
    key: &'t Key,
    numbers: Numbers,
    kept: Option<Kept>,
}

impl<'t, 'a, J: Job> Task<J> for EnterTask<'t, 'a> {
    ghost use Rattle.std.specs.Prelude.{◌≡◌, ◌<◌, IsSomeAnd, length};
    ghost use Rattle.pn_numbers.specs.Numbers.{IsOpen};
    ghost use Rattle.worker_counts.specs.declared.view.TheConstants.{MOST_ADDED};
    ghost use Rattle.shared_table.specs.Calls.{EntersAndAdds};
    ghost use Rattle.shared_table.specs.Seat.{at_row};
    ghost use Rattle.table_port.specs.Tasks.{IsAt, IsMissing, not_both};

    ghost ready = { λ task. IsAt task.site task.key.now task.seat.now × IsMissing task.kept × IsOpen task.numbers
        × (length task.seat.now.seat.view.added < MOST_ADDED) };

    ghost ran = { λ before old after new. (after.seat.ghost_name ≡ before.seat.ghost_name)
        × IsSomeAnd after.kept (λ kept. EntersAndAdds old (at_row before.seat.now before.site.word) before.key.now before.numbers kept new after.seat.now) };

    ghost once = { λ before after old new ran ready. not_both _ after.kept ran.1 ready.1 };

    fn run(&mut self, shard: &mut JobShard<J>) {
        self.kept = Some(enter_in(shard, self.seat, self.site, self.key, self.numbers));
    }
}

// A leaving of a key that was entered so, with an update.
#[derive(Drop)]
struct LeaveTask<'t, 'a> {
    seat: &'t mut RowSeat<'a>,
    site: Site,
    kept: Kept,
    key: &'t Key,
    update: &'t mut Option<Update>,
}

impl<'t, 'a, J: Job> Task<J> for LeaveTask<'t, 'a> {
    ghost use Rattle.std.specs.Prelude.{◌≡◌, IsSomeAnd};
    ghost use Rattle.visit_log.specs.Sound.{IsSoundUpdate};
    ghost use Rattle.shared_table.specs.Calls.{LeavesAndSubtracts, MayLeave};
    ghost use Rattle.shared_table.specs.Seat.{at_row};
    ghost use Rattle.table_port.specs.Tasks.{IsAt, IsMissing, not_both};

    ghost ready = { λ task. IsAt task.site task.key.now task.seat.now × IsSomeAnd task.update.now (IsSoundUpdate J.ATTACKER task.key.now)
        × MayLeave (at_row task.seat.now task.site.word) task.kept };

    ghost ran = { λ before old after new. (after.seat.ghost_name ≡ before.seat.ghost_name) × (after.update.ghost_name ≡ before.update.ghost_name) × IsMissing after.update.now
        × IsSomeAnd before.update.now (λ update. LeavesAndSubtracts old (at_row before.seat.now before.site.word) before.kept before.key.now update new after.seat.now) };

    ghost once = { λ before after old new ran ready. not_both _ after.update.now ready.1 ran.2 };

    fn run(&mut self, shard: &mut JobShard<J>) {
        if let Some(update) = self.update.take() {
            leave_in(shard, self.seat, self.site, self.kept, self.key, update);
        }
    }
}

// Has the look done on its shard, once, and tells its answer.
fn look_under<J: Job, R: Rows<J>>(
    rows: &mut R,
    task: &mut LookTask<'_, '_>,
) -> Result<Seen, AllocError>
    requires below { task.old.site.shard < R.count rows.old }
    requires at { IsAt task.old.site task.old.key.now task.old.seat.now }
    requires to { IfSome task.old.to (λ side. side ≡ J.ATTACKER) }
    requires fresh { task.old.answer.now ≡ None }
    ensures seat { task.new.seat.ghost_name ≡ task.old.seat.ghost_name }
    ensures answer { task.new.answer.ghost_name ≡ task.old.answer.ghost_name }
    ensures count { R.count rows.new ≡ R.count rows.old }
    ensures looks { RanOn J.ATTACKER (R.shards rows.old) (R.shards rows.new) task.old.site.shard
        (λ old new. (new ≡ old)
        × ShowsAt task.old.to task.old.site task.old.key.now task.old.path.now task.old.seat.now old
        task.new.seat.now result) }
    ensures same { IsSameSeat (at_row task.old.seat.now task.old.site.word) task.new.seat.now }
    ensures may { IfOk result (MayShow J.ATTACKER task.old.key.now task.old.path.now) }
{
    rows.under(task.site.shard, task);
    match task.answer.take() {
        Some(answer) => answer,
        None => unreachable!(),
    }
}

// Has the entering done on its shard, once, and tells its answer.
fn enter_under<J: Job, R: Rows<J>>(rows: &mut R, task: &mut EnterTask<'_, '_>) -> Kept
    requires below { task.old.site.shard < R.count rows.old }
    requires at { IsAt task.old.site task.old.key.now task.old.seat.now }
    requires fresh { task.old.kept ≡ None }
    requires open { IsOpen task.old.numbers }
    requires room { length task.old.seat.now.seat.view.added < MOST_ADDED }
    ensures seat { task.new.seat.ghost_name ≡ task.old.seat.ghost_name }
    ensures count { R.count rows.new ≡ R.count rows.old }
    ensures enters { RanOn J.ATTACKER (R.shards rows.old) (R.shards rows.new) task.old.site.shard
        (λ old new.
        EntersAndAdds old (at_row task.old.seat.now task.old.site.word) task.old.key.now
        task.old.numbers result new task.new.seat.now) }
{
    rows.under(task.site.shard, task);
    match task.kept {
        Some(kept) => kept,
        None => unreachable!(),
    }
}

// Has the leaving done on its shard, once.
fn leave_under<J: Job, R: Rows<J>>(rows: &mut R, task: &mut LeaveTask<'_, '_>)
    requires below { task.old.site.shard < R.count rows.old }
    requires at { IsAt task.old.site task.old.key.now task.old.seat.now }
    requires sound { IsSomeAnd task.old.update.now (IsSoundUpdate J.ATTACKER task.old.key.now) }
    requires may { MayLeave (at_row task.old.seat.now task.old.site.word) task.old.kept }
    ensures seat { task.new.seat.ghost_name ≡ task.old.seat.ghost_name }
    ensures update { task.new.update.ghost_name ≡ task.old.update.ghost_name }
    ensures count { R.count rows.new ≡ R.count rows.old }
    ensures leaves { IsSomeAnd task.old.update.now
        (λ update. RanOn J.ATTACKER (R.shards rows.old) (R.shards rows.new) task.old.site.shard
        (λ old new.
        LeavesAndSubtracts old (at_row task.old.seat.now task.old.site.word) task.old.kept
        task.old.key.now update new task.new.seat.now)) }
{
    rows.under(task.site.shard, task);
}

// Looks for the key on the shard of its site.
pub(crate) fn look_on<J: Job, R: Rows<J>>(
    rows: &mut R,
    seat: &mut RowSeat<'_>,
    to: Option<Side>,
    site: Site,
    key: &Key,
    path: &Path,
) -> Result<Seen, AllocError>
    requires below { site.shard < R.count rows.old }
    requires at { IsAt site key.now seat.old }
    requires to { IfSome to (λ side. side ≡ J.ATTACKER) }
    ensures count { R.count rows.new ≡ R.count rows.old }
    ensures parts { seat.new.seat.view.parts ≡ seat.old.seat.view.parts }
    ensures looks { RanOn J.ATTACKER (R.shards rows.old) (R.shards rows.new) site.shard
        (λ old new. (new ≡ old) × ShowsAt to site key.now path.now seat.old old seat.new result) }
    ensures same { IsSameSeat (at_row seat.old site.word) seat.new }
    ensures may { IfOk result (MayShow J.ATTACKER key.now path.now) }
{
    let mut answer = None;
    let mut task = LookTask {
        seat,
        to,
        site,
        key,
        path,
        answer: &mut answer,
    };
    look_under(rows, &mut task)
}

// Enters the key on the shard of its site.
pub(crate) fn enter_on<J: Job, R: Rows<J>>(
    rows: &mut R,
    seat: &mut RowSeat<'_>,
    site: Site,
    key: &Key,
    numbers: Numbers,
) -> Kept
    requires below { site.shard < R.count rows.old }
    requires at { IsAt site key.now seat.old }
    requires open { IsOpen numbers }
    requires room { length seat.old.seat.view.added < MOST_ADDED }
    ensures count { R.count rows.new ≡ R.count rows.old }
    ensures parts { seat.new.seat.view.parts ≡ seat.old.seat.view.parts }
    ensures enters { RanOn J.ATTACKER (R.shards rows.old) (R.shards rows.new) site.shard
        (λ old new. EntersAndAdds old (at_row seat.old site.word) key.now numbers result new
        seat.new) }
{
    let mut task = EnterTask {
        seat,
        site,
        key,
        numbers,
        kept: None,
    };
    enter_under(rows, &mut task)
}

// Leaves the key on the shard of its site.
pub(crate) fn leave_on<J: Job, R: Rows<J>>(
    rows: &mut R,
    seat: &mut RowSeat<'_>,
    site: Site,
    kept: Kept,
    key: &Key,
    update: Update,
)
    requires below { site.shard < R.count rows.old }
    requires at { IsAt site key.now seat.old }
    requires sound { IsSoundUpdate J.ATTACKER key.now update }
    requires may { MayLeave (at_row seat.old site.word) kept }
    ensures count { R.count rows.new ≡ R.count rows.old }
    ensures parts { seat.new.seat.view.parts ≡ seat.old.seat.view.parts }
    ensures leaves { RanOn J.ATTACKER (R.shards rows.old) (R.shards rows.new) site.shard
        (λ old new. LeavesAndSubtracts old (at_row seat.old site.word) kept key.now update new
        seat.new) }
{
    let mut update = Some(update);
    let mut task = LeaveTask {
        seat,
        site,
        kept,
        key,
        update: &mut update,
    };
    leave_under(rows, &mut task);
}
