// The visits of a worker that are going on, and its path.
ghost use Rattle.std.specs.Prelude.{◌≡◌, ◌≤◌, ◌<◌, ◌+◌, ◌∷◌, [], ℕ, List, Option, Some, None, true, OnOk, OnErr, IfOk, IfSome, IsSome, IsTrue, ◌↔◌, Err, slice_get, option_copied, reverse, length, map};
ghost use Rattle.board_core.specs.declared.keys.Key.{Key};
ghost use Rattle.shogi_rules.specs.Rules.{after};
ghost use Rattle.notes.specs.Derivation.{highest};
ghost use Rattle.notes.specs.declared.note.NoteEnd.TheVariants.{TooHigh, NoMemory};
ghost use Rattle.visit_log.specs.declared.parts.Child.{Child};
ghost use Rattle.visit_log.specs.declared.parts.Stage.TheVariants.{Looking};
ghost use Rattle.visit_log.specs.Frame.{Task, FrameView, attacker_in, begun, task_for};
ghost use Rattle.visit_log.specs.Children.{AreChildren, is_solved, notes_under};
ghost use Rattle.visit_log.specs.Round.{node_in, MayShow, Sight, Tells, looked, came_back, IsMade};
ghost use Rattle.visit_log.specs.Machine.{keep, bare, IsLending, Settles, IsPlayed, path_of, place_by, position_by, entered_ones, rest_of};
ghost use Rattle.visit_log.specs.Sound.{IsListed, IsMoveTo, IsSoundPlace, AreSound, IsSoundEntry};
ghost use Rattle.worker_core.specs.Stack.{top_of, HasTop, ChangesTop, without_unentered};

use crate::tops::{bare_all, come_back_top, keep_top, list_top, look_top, settle_top, top};
use board_core::{Key, Move, Position};
use notes::{Kept, Note, NoteEnd, Seen};
use path_tags::Path;
use pn_numbers::Numbers;
use shogi_rules::{Problem, apply};
use std::alloc::{AllocError, Global};
use std::marker::Model;
use visit_frame::{Frame, Starts};
use visit_log::{Child, Entry, Left, Stage};

// The visits, the innermost last, with the keys of the attacker's positions among them, and what
// start numbers were reckoned. Contracts see the visits, the innermost first.
#[derive(Drop)]
pub(crate) struct Stack {
    problem: Problem,
    worker: u32,
    frames: Vec<Frame>,
    path: Path,
    starts: Starts,
}

impl Model for Stack {
    ghost use Rattle.std.specs.Coded.{codes};
    ghost use Rattle.notes.specs.contracts.note.Note as facts;
    ghost use Rattle.worker_core.specs.Stack.{StackView, stack_of, IsPathOf};

    ghost Value = { StackView };

    ghost coded = { Prim.hlevel (codes, facts.the_row.coded) };

    ghost view = { λ s. stack_of s.problem.position s.worker s.frames.items };

    ghost invariant = { λ s. IsPathOf s.path s.problem.position s.worker s.frames.items };
}

// Whether the attacker is to move.
fn is_attackers(problem: &Problem, position: &Position) -> bool
    ensures { IsTrue result ↔ (position.now.side ≡ problem.now.position.side) }
{
    position.side() == problem.attacker()
}

// The position of the child to which a visit goes down.
fn played_after(problem: &Problem, worker: u32, frame: &Frame, by: Move) -> Position
    requires listed { (path : List Key)
        × IsListed (task_for problem.now.position worker) path frame.now }
    requires child { (child : Child)
        × (slice_get frame.now.children frame.now.chosen ≡ Some child) × (Some by ≡ Some child.by) }
    ensures position { result ≡ after frame.now.place.position by }
    ensures played { IsPlayed problem.now.position.side result }
{
    let next = apply(frame.position(), by);
    next.laws();
    next
}

impl Stack {
    ghost use Rattle.std.specs.Prelude.{◌≡◌, ◌≤◌, ◌<◌, ◌+◌, ◌∷◌, [], ℕ, List, Option, Some, None, true, OnOk, OnErr, IfOk, IfSome, IsSome, IsTrue, ◌↔◌, Err, slice_get, option_copied, reverse, length, map};
    ghost use Rattle.board_core.specs.declared.keys.Key.{Key};
    ghost use Rattle.shogi_rules.specs.Rules.{after};
    ghost use Rattle.notes.specs.Derivation.{highest};
    ghost use Rattle.notes.specs.declared.note.NoteEnd.TheVariants.{TooHigh, NoMemory};
    ghost use Rattle.visit_log.specs.declared.parts.Child.{Child};
    ghost use Rattle.visit_log.specs.declared.parts.Stage.TheVariants.{Looking};
    ghost use Rattle.visit_log.specs.Frame.{Task, FrameView, attacker_in, begun, task_for};
    ghost use Rattle.visit_log.specs.Children.{AreChildren, is_solved, notes_under};
    ghost use Rattle.visit_log.specs.Round.{node_in, MayShow, Sight, Tells, looked, came_back, IsMade};
    ghost use Rattle.visit_log.specs.Machine.{keep, bare, IsLending, Settles, IsPlayed, path_of, place_by, position_by, entered_ones, rest_of};
    ghost use Rattle.visit_log.specs.Sound.{IsListed, IsMoveTo, IsSoundPlace, AreSound, IsSoundEntry};
    ghost use Rattle.worker_core.specs.Stack.{top_of, HasTop, ChangesTop, without_unentered};

    /// No visit, for the search of a problem by the worker of this number. Takes no memory.
    pub(crate) fn new(alloc: Global, problem: &Problem, worker: u32) -> Stack
        ensures { result ≡ record { task = task_for problem.now.position worker; frames = [] } }
    {
        Stack {
            problem: *problem,
            worker,
            frames: Vec::new(alloc),
            path: Path::make(alloc),
            starts: Starts::new(alloc),
        }
    }

    /// The problem.
    pub(crate) fn problem(&self) -> &Problem
        ensures { result.now.position ≡ self.now.task.problem }
    {
        &self.problem
    }

    /// Whether no visit is going on.
    pub(crate) fn is_empty(&self) -> bool
        ensures { IsTrue result ↔ (self.now.frames ≡ []) }
    {
        self.frames.is_empty()
    }

    /// The innermost visit, if there is one.
    pub(crate) fn top(&self) -> Option<&Frame>
        ensures { option_copied result ≡ top_of self.now.frames }
    {
        top(&self.frames)
    }

    /// The children of the innermost position, if there is one.
    pub(crate) fn children(&self) -> Option<&[Child]> {
        match top(&self.frames) {
            Some(frame) => Some(frame.children()),
            None => None,
        }
    }

    /// The keys of the attacker's positions that are being visited, the problem's first.
    pub(crate) fn path(&self) -> &Path
        ensures { result.now ≡ path_of self.now.task self.now.frames }
    {
        &self.path
    }

    // The position of which a visit is to begin.
    fn position_by(&self, by: Option<Move>) -> Position
        requires sound { AreSound self.now.task self.now.frames }
        requires to { IsMoveTo self.now.frames by }
        ensures position { result ≡ position_by self.now.task self.now.frames by }
        ensures played { IsPlayed (attacker_in self.now.task) result }
    {
        let Some(by) = by else {
            self.problem.position.laws();
            return self.problem.position;
        };
        match top(&self.frames) {
            Some(frame) => played_after(&self.problem, self.worker, frame, by),
            None => self.problem.position,
        }
    }

    /// A visit begins. Errors: want of memory alone, and then nothing changes.
    pub(crate) fn begin(&mut self, alloc: Global, entry: Entry) -> Result<(), AllocError>
        requires sound { AreSound self.old.task self.old.frames }
        requires entry { IsSoundEntry self.old.task self.old.frames entry }
        ensures task { self.new.task ≡ self.old.task }
        ensures played { OnOk result
            (IsPlayed (attacker_in self.old.task)
            (position_by self.old.task self.old.frames entry.by)) }
        ensures begun { OnOk result (self.new.frames
            ≡ begun (place_by self.old.task self.old.frames entry) ∷ self.old.frames) }
        ensures unchanged { OnErr result (self.new.frames ≡ self.old.frames) }
    {
        let position = self.position_by(entry.by);
        self.frames.reserve(1)?;
        if is_attackers(&self.problem, &position) {
            self.path.push(entry.key)?;
        }
        self.frames.push(Frame::begun(alloc, position, entry))?;
        Ok(())
    }

    /// The innermost visit, if there is one, is no more.
    pub(crate) fn end(&mut self)
        ensures task { self.new.task ≡ self.old.task }
        ensures rest { self.new.frames ≡ rest_of self.old.frames }
    {
        let Some(frame) = self.frames.pop() else {
            return;
        };
        if is_attackers(&self.problem, frame.position()) {
            let _ = self.path.pop();
        }
    }

    // A visit that hasn't entered its position is no more.
    fn drop_unentered(&mut self)
        ensures task { self.new.task ≡ self.old.task }
        ensures entered { self.new.frames ≡ without_unentered self.old.frames }
    {
        let Some(frame) = top(&self.frames) else {
            return;
        };
        if frame.kept().is_none() {
            self.end();
        }
    }

    // Of every visit only what is left of it is known.
    fn bare(&mut self)
        ensures task { self.new.task ≡ self.old.task }
        ensures bare { self.new.frames ≡ map bare self.old.frames }
    {
        bare_all(self.frames.as_mut_slice());
    }

    /// Winds up: a visit that hasn't entered its position is no more, and of the others only what
    /// is left of them is known.
    #[tactic(auto, using(crate::proofs::Last::entered_bare))]
    pub(crate) fn wind(&mut self)
        ensures task { self.new.task ≡ self.old.task }
        ensures entered { self.new.frames ≡ entered_ones self.old.frames }
    {
        self.drop_unentered();
        self.bare();
    }

    /// The innermost position is entered so.
    pub(crate) fn keep(&mut self, kept: Kept)
        requires { HasTop (λ f. IsSome (Some f)) self.old.frames }
        ensures task { self.new.task ≡ self.old.task }
        ensures kept { ChangesTop (λ f g. g ≡ keep f kept) self.old.frames self.new.frames }
    {
        keep_top(self.frames.as_mut_slice(), kept);
    }

    /// The innermost position's successors are listed. Errors: want of memory alone, and then
    /// nothing changes.
    pub(crate) fn list(&mut self, alloc: Global) -> Result<(), AllocError>
        requires { HasTop (λ f. (fs : List FrameView)
            × IsSoundPlace self.old.task fs f.place) self.old.frames }
        ensures task { self.new.task ≡ self.old.task }
        ensures listed { OnOk result
            (ChangesTop (λ f g. AreChildren (attacker_in self.old.task) f.place.position
            (path_of self.old.task self.old.frames) g.children
            × (g ≡ record { place = f.place; kept = f.kept; children = g.children; chosen = 0 }))
            self.old.frames self.new.frames) }
        ensures unchanged { OnErr result (self.new ≡ self.old) }
    {
        list_top(self.frames.as_mut_slice(), alloc, &self.problem, &self.path)
    }

    /// The place of the innermost visit's first child that is due, from 0, where there is one: this
    /// child is looked at next.
    #[inline(always)]
    pub(crate) fn due(&self) -> Option<usize>
        ensures { IfSome result (λ place.
            HasTop (λ f. (task : Task) → Settles task f (Looking place) f) self.now.frames) }
    {
        match top(&self.frames) {
            Some(frame) => frame.due(),
            None => None,
        }
    }

    /// What the innermost visit does next.
    #[inline(always)]
    pub(crate) fn settle(&mut self) -> Stage
        requires { HasTop (λ f. (path : List Key) × IsListed self.old.task path f) self.old.frames }
        ensures task { self.new.task ≡ self.old.task }
        ensures settles { ChangesTop (λ f g. Settles self.old.task f result g) self.old.frames
            self.new.frames }
    {
        settle_top(self.frames.as_mut_slice(), &self.problem, self.worker)
    }

    /// The innermost visit's child at the place was looked at. Errors: want of memory to carry a
    /// note that is lent, and then nothing changes.
    #[inline(always)]
    pub(crate) fn look(&mut self, alloc: Global, place: usize, seen: Seen) -> Result<(), AllocError>
        requires listed { HasTop (λ f. (path : List Key) × IsListed self.old.task path f
            × ((child : Child) → slice_get f.children place ≡ Some child
            → MayShow (attacker_in self.old.task) child.key path seen)) self.old.frames }
        requires there { HasTop (λ f. IsSome (slice_get f.children place)) self.old.frames }
        ensures task { self.new.task ≡ self.old.task }
        ensures looked { OnOk result (ChangesTop (λ f g. (sight : Sight) × (sight.place ≡ place)
            × (sight.seen ≡ seen) × (slice_get f.children place ≡ Some sight.child)
            × Tells (attacker_in self.old.task) f.place.position sight.child.by seen sight.start
            × (g ≡ looked self.old.task f sight)) self.old.frames self.new.frames) }
        ensures lost { OnErr result (IsLending seen) }
        ensures unchanged { OnErr result (self.new ≡ self.old) }
    {
        look_top(
            self.frames.as_mut_slice(),
            alloc,
            &self.problem,
            self.worker,
            place,
            seen,
            &mut self.starts,
        )
    }

    /// The visit of the child to which the innermost visit went down ended so.
    pub(crate) fn come_back(&mut self, left: Left)
        requires { HasTop (λ f. IsSome (slice_get f.children f.chosen)) self.old.frames }
        ensures task { self.new.task ≡ self.old.task }
        ensures back { ChangesTop (λ f g. (child : Child)
            × (slice_get f.children f.chosen ≡ Some child)
            × (g ≡ came_back f f.chosen child left)) self.old.frames self.new.frames }
    {
        come_back_top(self.frames.as_mut_slice(), left);
    }

    /// The note of the innermost position, which is solved. Errors: TooHigh exactly where its
    /// height would be above 4,096; else want of memory.
    pub(crate) fn make_note(&self, alloc: Global) -> Result<Note, NoteEnd>
        requires listed { HasTop (λ f. (path : List Key)
            × IsListed self.now.task path f) self.now.frames }
        requires solved { HasTop (λ f. is_solved (node_in self.now.task f) f.children
            ≡ true) self.now.frames }
        ensures made { IfOk result
            (λ note. HasTop (λ f. IsMade self.now.task f note) self.now.frames) }
        ensures high { result ≡ Err TooHigh
            → HasTop (λ f. 4096 < highest (notes_under (node_in self.now.task f) f.children) + 1)
            self.now.frames }
        ensures low { result ≡ Err NoMemory
            → HasTop (λ f. highest (notes_under (node_in self.now.task f) f.children) + 1 ≤ 4096)
            self.now.frames }
    {
        match top(&self.frames) {
            Some(frame) => frame.make_note(alloc, &self.problem, self.worker),
            None => Err(NoteEnd::NoMemory),
        }
    }
}
