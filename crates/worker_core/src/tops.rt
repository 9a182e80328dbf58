// What is done in the innermost visit, which stands last.
ghost use Rattle.std.specs.Prelude.{◌≡◌, ◌<◌, ◌+◌, ◌∷◌, [], ℕ, List, Option, Some, None, OnOk, OnErr, IsSome, slice_get, option_copied, reverse, length, map};
ghost use Rattle.board_core.specs.declared.keys.Key.{Key};
ghost use Rattle.visit_log.specs.declared.parts.Child.{Child};
ghost use Rattle.visit_log.specs.Frame.{Task, FrameView, task_for};
ghost use Rattle.visit_log.specs.Children.{AreChildren};
ghost use Rattle.visit_log.specs.Round.{MayShow, Sight, Tells, looked, came_back};
ghost use Rattle.visit_log.specs.Machine.{keep, bare, IsLending, Settles, path_of};
ghost use Rattle.visit_log.specs.Sound.{IsListed, IsSoundPlace};
ghost use Rattle.worker_core.specs.Stack.{top_of, HasTop, ChangesTop};

use notes::{Kept, Seen};
use path_tags::Path;
use shogi_rules::Problem;
use std::alloc::{AllocError, Global};
use visit_frame::{Frame, Starts};
use visit_log::{Left, Stage};

// The innermost visit, if there is one.
#[tactic(auto, using(crate::proofs::Last::top_is_last))]
pub(crate) fn top(frames: &[Frame]) -> Option<&Frame>
    ensures { option_copied result ≡ top_of (reverse frames.now) }
{
    frames.last()
}

// Of every visit only what is left of it is known.
pub(crate) fn bare_all(frames: &mut [Frame])
    ensures { frames.new ≡ map bare frames.old }
{
    for frame in frames.iter_mut() {
        frame.bare();
    }
}

// Its position is entered so.
pub(crate) fn keep_top(frames: &mut [Frame], kept: Kept)
    requires { 0 < length frames.old }
    ensures kept { ChangesTop (λ f g. g ≡ keep f kept) (reverse frames.old) (reverse frames.new) }
    ensures path { (task : Task) → path_of task (reverse frames.new)
        ≡ path_of task (reverse frames.old) }
{
    let last = frames.len() - 1;
    let frame = &mut frames[last];
    frame.keep(kept);
}

// Its successors are listed. Errors: want of memory alone, and then nothing changes.
pub(crate) fn list_top(
    frames: &mut [Frame],
    alloc: Global,
    problem: &Problem,
    path: &Path,
) -> Result<(), AllocError>
    requires some { 0 < length frames.old }
    requires placed { HasTop (λ f. (task : Task) × (fs : List FrameView)
        × IsSoundPlace task fs f.place) (reverse frames.old) }
    ensures listed { OnOk result
        (ChangesTop (λ f g. AreChildren problem.now.position.side f.place.position path.now
        g.children × (g ≡ record
        { place = f.place; kept = f.kept; children = g.children; chosen = 0 })) (reverse frames.old)
        (reverse frames.new)) }
    ensures unchanged { OnErr result (frames.new ≡ frames.old) }
    ensures path { (task : Task) → path_of task (reverse frames.new)
        ≡ path_of task (reverse frames.old) }
{
    let last = frames.len() - 1;
    let frame = &mut frames[last];
    frame.list(alloc, problem, path)
}

// What it does next.
#[inline(always)]
pub(crate) fn settle_top(frames: &mut [Frame], problem: &Problem, worker: u32) -> Stage
    requires some { 0 < length frames.old }
    requires listed { HasTop (λ f. (path : List Key)
        × IsListed (task_for problem.now.position worker) path f) (reverse frames.old) }
    ensures settles { ChangesTop (λ f g. Settles (task_for problem.now.position worker) f result g)
        (reverse frames.old) (reverse frames.new) }
    ensures path { (task : Task) → path_of task (reverse frames.new)
        ≡ path_of task (reverse frames.old) }
{
    let last = frames.len() - 1;
    let frame = &mut frames[last];
    frame.settle(problem, worker)
}

// Its child at the place was looked at. Errors: want of memory to carry a note that is lent, and
// then nothing changes.
#[inline(always)]
pub(crate) fn look_top(
    frames: &mut [Frame],
    alloc: Global,
    problem: &Problem,
    worker: u32,
    place: usize,
    seen: Seen,
    starts: &mut Starts,
) -> Result<(), AllocError>
    requires some { 0 < length frames.old }
    requires listed { HasTop (λ f. (path : List Key)
        × IsListed (task_for problem.now.position worker) path f
        × ((child : Child) → slice_get f.children place ≡ Some child
        → MayShow problem.now.position.side child.key path seen)) (reverse frames.old) }
    requires there { HasTop (λ f. IsSome (slice_get f.children place)) (reverse frames.old) }
    ensures looked { OnOk result (ChangesTop (λ f g. (sight : Sight) × (sight.place ≡ place)
        × (sight.seen ≡ seen) × (slice_get f.children place ≡ Some sight.child)
        × Tells problem.now.position.side f.place.position sight.child.by seen sight.start
        × (g ≡ looked (task_for problem.now.position worker) f sight)) (reverse frames.old)
        (reverse frames.new)) }
    ensures lost { OnErr result (IsLending seen) }
    ensures unchanged { OnErr result (frames.new ≡ frames.old) }
    ensures path { (task : Task) → path_of task (reverse frames.new)
        ≡ path_of task (reverse frames.old) }
{
    let last = frames.len() - 1;
    let frame = &mut frames[last];
    frame.look(alloc, problem, worker, place, seen, starts)
}

// The visit of the child to which it went down ended so.
pub(crate) fn come_back_top(frames: &mut [Frame], left: Left)
    requires some { 0 < length frames.old }
    requires there { HasTop (λ f. IsSome (slice_get f.children f.chosen)) (reverse frames.old) }
    ensures back { ChangesTop (λ f g. (child : Child)
        × (slice_get f.children f.chosen ≡ Some child)
        × (g ≡ came_back f f.chosen child left)) (reverse frames.old) (reverse frames.new) }
    ensures path { (task : Task) → path_of task (reverse frames.new)
        ≡ path_of task (reverse frames.old) }
{
    let last = frames.len() - 1;
    let frame = &mut frames[last];
    frame.come_back(left);
}
