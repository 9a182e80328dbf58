// What is known in one visit.
ghost use Rattle.std.specs.Prelude.{◌≡◌, ◌<◌, ◌+◌, ◌↔◌, ℕ, List, Option, Some, None, Ok, Err, true, IfOk, IfSome, OnOk, OnErr, IsSome, slice_get};
ghost use Rattle.board_core.specs.declared.keys.Key.{Key};
ghost use Rattle.board_core.specs.Key.{key_of};
ghost use Rattle.shogi_rules.specs.Rules.{IsQuiet};
ghost use Rattle.notes.specs.Derivation.{highest};
ghost use Rattle.notes.specs.declared.note.NoteEnd.TheVariants.{TooHigh};
ghost use Rattle.visit_log.specs.declared.parts.Child.{Child};
ghost use Rattle.visit_log.specs.declared.parts.Stage.TheVariants.{Looking};
ghost use Rattle.visit_log.specs.Frame.{Task, task_for, begun};
ghost use Rattle.visit_log.specs.Children.{AreChildren, is_solved, first_due, notes_under};
ghost use Rattle.visit_log.specs.Round.{node_in, own as own_in, Selects, MayShow, Sight, Tells, looked, came_back, IsMade};
ghost use Rattle.visit_log.specs.Machine.{IsLending, Settles, keep, bare};
ghost use Rattle.visit_log.specs.Sound.{IsListed};

use crate::listing::{children_of, node_at};
use crate::making::note_of;
use crate::reckoning::{Reckoned, entry_to, first_due, is_fresh, is_solved, reckon};
use crate::telling::{Here, next_round, tell};
use board_core::{Key, Position};
use notes::{Kept, Note, NoteEnd, Seen};
use path_tags::Path;
use pn_numbers::{Child as Counted, Node, Numbers};
use shogi_rules::Problem;
use start_numbers::Starts;
use std::alloc::{AllocError, Global};
use std::marker::Model;
use std::mem::size_of;
use visit_log::{Child, Entry, Left, Stage};

// What a frame takes, and what each child takes beside it: itself, and its places in the room for
// one round.
const _: () = prove!(size_of::<Frame>() <= 384);

const _: () = prove!(size_of::<Child>() + size_of::<Counted>() + size_of::<Numbers>() <= 136);

/// What is known in one visit: of which position it is, its thresholds, and what the table showed
/// of the position's successors.
///
/// Contracts see it as `FrameView` of `visit_log`. It takes at most 384 bytes, and each child at
/// most 136 more.
#[derive(Drop)]
pub struct Frame {
    position: Position,
    key: Key,
    limits: Numbers,
    numbers: Numbers,
    kept: Option<Kept>,
    children: Vec<Child>,
    chosen: usize,

    // Room for one round: the children as they are counted, and their numbers so.
    counted: Vec<Counted>,
    counts: Vec<Numbers>,
}

impl Model for Frame {
    ghost use Rattle.std.specs.Prelude.{◌≡◌, length};
    ghost use Rattle.std.specs.Coded.{codes};
    ghost use Rattle.notes.specs.contracts.note.Note as note;
    ghost use Rattle.visit_log.specs.Frame.{FrameView};

    ghost Value = { FrameView };

    ghost coded = { Prim.hlevel (codes, note.the_row.coded) };

    ghost view = { λ f. record { place = record { position = f.position; key = f.key; limits = f.limits; numbers = f.numbers }; kept = f.kept; children = f.children.items; chosen = f.chosen } };

    ghost invariant = { λ f. (length f.counted.items ≡ length f.children.items) × (length f.counts.items ≡ length f.children.items) };
}

impl Frame {
    /// The visit of a position before it is entered. Takes no memory.
    pub fn begun(alloc: Global, position: Position, entry: Entry) -> Frame
        ensures { result ≡ begun
            (record {
              position = position;
              key = entry.key;
              limits = entry.limits;
              numbers =
                  entry.numbers;
            }) }
    {
        Frame {
            position,
            key: entry.key,
            limits: entry.limits,
            numbers: entry.numbers,
            kept: None,
            children: Vec::new(alloc),
            chosen: 0,
            counted: Vec::new(alloc),
            counts: Vec::new(alloc),
        }
    }

    /// The position is entered, and that was answered. Takes no memory.
    pub fn keep(&mut self, kept: Kept)
        ensures { self.new ≡ keep self.old kept }
    {
        self.kept = Some(kept);
    }

    /// Of the visit only what is left of it is known: its position, and what entering that was
    /// answered. Takes no memory.
    pub fn bare(&mut self)
        ensures { self.new ≡ bare self.old }
    {
        self.children.clear();
        self.counted.clear();
        self.counts.clear();
        self.chosen = 0;
    }

    /// What entering the position was answered; none before that. Takes no memory.
    pub fn kept(&self) -> Option<Kept>
        ensures { result ≡ self.now.kept }
    {
        self.kept
    }

    /// The key of the position. Takes no memory.
    pub fn key(&self) -> Key
        ensures { result ≡ self.now.place.key }
    {
        self.key
    }

    /// The numbers with which the position is entered. Takes no memory.
    pub fn numbers(&self) -> Numbers
        ensures { result ≡ self.now.place.numbers }
    {
        self.numbers
    }

    /// The position. Takes no memory.
    pub fn position(&self) -> &Position
        ensures { result.now ≡ self.now.place.position }
    {
        &self.position
    }

    /// The successors of the position, as far as they are known. Takes no memory.
    pub fn children(&self) -> &[Child]
        ensures { result.now ≡ self.now.children }
    {
        &self.children
    }

    /// The place of the first child that is due, from 0: it is looked at next; none where none is
    /// due. Takes no memory.
    #[inline(always)]
    pub fn due(&self) -> Option<usize>
        ensures first { result ≡ first_due self.now.children }
        ensures next { IfSome result
            (λ place. (task : Task) → Settles task self.now (Looking place) self.now) }
    {
        first_due(&self.children)
    }

    /// The key of the child at the place, from 0; none where there is no such child. Takes no
    /// memory.
    pub fn child_key(&self, place: usize) -> Option<Key>
        ensures there { (child : Child) → slice_get self.now.children place ≡ Some child → result
            ≡ Some child.key }
        ensures none { slice_get self.now.children place ≡ None → result ≡ None }
    {
        match self.children.get(place) {
            Some(child) => Some(child.key),
            None => None,
        }
    }

    /// Lists the successors of the position, in the order of moves, when nothing is known of them
    /// yet: those that are attacker's positions on the path are marked, and aren't to be looked at.
    /// The side not to move must not be in check. Errors: want of memory alone, and then nothing
    /// has changed.
    pub fn list(&mut self, alloc: Global, problem: &Problem, path: &Path) -> Result<(), AllocError>
        requires quiet { IsQuiet self.old.place.position }
        requires key { self.old.place.key.0 ≡ key_of self.old.place.position }
        ensures children { OnOk result
            (AreChildren problem.now.position.side self.old.place.position path.now
            self.new.children) }
        ensures listed { OnOk result (self.new
            ≡ record {
              place = self.old.place;
              kept = self.old.kept;
              children = self.new.children;
              chosen = 0;
            }) }
        ensures unchanged { OnErr result (self.new ≡ self.old) }
    {
        let children = children_of(alloc, problem, &self.position, &self.key, path)?;
        let one = Counted {
            numbers: Numbers::ONE,
            below: 0,
        };
        let counted = Vec::from_elem(alloc, one, children.len())?;
        let counts = Vec::from_elem(alloc, Numbers::ONE, children.len())?;
        self.children = children;
        self.chosen = 0;
        self.counted = counted;
        self.counts = counts;
        Ok(())
    }

    // The child at the place is selected: it is visited, where this round has looked at it, and
    // else looked at.
    fn go_to(&mut self, node: Node, own: Numbers, place: usize, second: u128) -> Stage
        requires { IsSome (slice_get self.old.children place) }
        ensures { (task : Task) → node ≡ node_in task self.old → own ≡ own_in task self.old
            → Selects task self.old place second
            → ((path : List Key) × IsListed task path self.old)
            → Settles task self.old result self.new }
    {
        let child = &self.children[place];
        if is_fresh(child.look) {
            let entry = entry_to(node, self.limits, own, child, second);
            self.chosen = place;
            return Stage::Polling(entry);
        }
        Stage::Looking(place)
    }

    // What comes next where no child is due.
    #[inline(never)]
    fn settle_round(&mut self, problem: &Problem, worker: u32) -> Stage
        requires listed { (path : List Key)
            × IsListed (task_for problem.now.position worker) path self.old }
        requires none_due { first_due self.old.children ≡ None }
        ensures { Settles (task_for problem.now.position worker) self.old result self.new }
    {
        let node = node_at(problem, &self.position);
        if is_solved(node, &self.children) {
            return Stage::Claiming;
        }
        let reckoned = reckon(
            node,
            self.limits,
            worker,
            &self.children,
            &mut self.counted,
            &mut self.counts,
        );
        match reckoned {
            Reckoned::Reached(own) => Stage::Leaving(Left::Open(own)),
            Reckoned::Chosen { own, place, second } => self.go_to(node, own, place, second),
        }
    }

    /// What comes next: a look at a child; to claim room for a note, where the node is solved on
    /// the path; to leave with the node's own numbers, where they have come to a threshold of the
    /// visit; or the visit of a child, with its thresholds. Takes no memory. (Nagai 2002; among
    /// children of equal numbers each worker takes its own: Kaneko 2010.)
    #[inline(always)]
    pub fn settle(&mut self, problem: &Problem, worker: u32) -> Stage
        requires listed { (path : List Key)
            × IsListed (task_for problem.now.position worker) path self.old }
        ensures { Settles (task_for problem.now.position worker) self.old result self.new }
    {
        match first_due(&self.children) {
            Some(place) => Stage::Looking(place),
            None => self.settle_round(problem, worker),
        }
    }

    /// The child at the place was looked at. Where the table has no entry of it, its start numbers
    /// are reckoned here, or told of those that are kept; a note that is lent is carried to it.
    /// Errors: want of memory for that alone, and then nothing has changed.
    #[inline(always)]
    pub fn look(
        &mut self,
        alloc: Global,
        problem: &Problem,
        worker: u32,
        place: usize,
        seen: Seen,
        starts: &mut Starts,
    ) -> Result<(), AllocError>
        requires listed { (path : List Key)
            × IsListed (task_for problem.now.position worker) path self.old
            × ((child : Child) → slice_get self.old.children place ≡ Some child
            → MayShow problem.now.position.side child.key path seen) }
        requires there { IsSome (slice_get self.old.children place) }
        ensures looked { OnOk result
            ((sight : Sight) × (sight.place ≡ place) × (sight.seen ≡ seen)
            × (slice_get self.old.children place ≡ Some sight.child)
            × Tells problem.now.position.side self.old.place.position sight.child.by seen
            sight.start
            × (self.new ≡ looked (task_for problem.now.position worker) self.old sight)) }
        ensures lost { OnErr result (IsLending seen) }
        ensures unchanged { OnErr result (self.new ≡ self.old) }
    {
        let _ = worker;
        let here = Here {
            position: &self.position,
            key: &self.key,
        };
        tell(
            alloc,
            problem,
            starts,
            here,
            &mut self.children,
            place,
            seen,
        )?;
        Ok(())
    }

    /// The visit of the chosen child ended so: the next round begins. Takes no memory.
    pub fn come_back(&mut self, left: Left)
        requires { IsSome (slice_get self.old.children self.old.chosen) }
        ensures { (child : Child) × (slice_get self.old.children self.old.chosen ≡ Some child)
            × (self.new ≡ came_back self.old self.old.chosen child left) }
    {
        next_round(&mut self.children, self.chosen, left);
    }

    /// The note of a solved node, made of its children's. Errors: TooHigh, exactly where the note's
    /// height would be above 4,096; else want of memory alone.
    pub fn make_note(&self, alloc: Global, problem: &Problem, worker: u32) -> Result<Note, NoteEnd>
        requires listed { (path : List Key)
            × IsListed (task_for problem.now.position worker) path self.now }
        requires solved { is_solved (node_in (task_for problem.now.position worker) self.now)
            self.now.children ≡ true }
        ensures made { IfOk result
            (λ note. IsMade (task_for problem.now.position worker) self.now note) }
        ensures high { (result ≡ Err TooHigh)
            ↔ (4096 < highest (notes_under (node_in (task_for problem.now.position worker) self.now)
            self.now.children) + 1) }
    {
        let _ = worker;
        let node = node_at(problem, &self.position);
        note_of(alloc, problem, &self.position, node, &self.children)
    }
}
