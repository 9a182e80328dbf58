// What a look at a child tells, and what its visit leaves.
ghost use Rattle.std.specs.Prelude.{◌≡◌, ◌<◌, Some, IsSome, OnErr, OnOk, length, map, slice_get, slice_set};
ghost use Rattle.board_core.specs.Key.{key_of};
ghost use Rattle.shogi_rules.specs.Rules.{IsQuiet};
ghost use Rattle.visit_log.specs.declared.parts.Child.{Child};
ghost use Rattle.visit_log.specs.declared.parts.Look.TheVariants.{Fresh};
ghost use Rattle.visit_log.specs.Round.{Sight, Tells, told, staled, staled_look, visited};
ghost use Rattle.visit_log.specs.Machine.{IsLending};
ghost use Rattle.visit_frame.specs.Telling.{MayTell};

use board_core::{Key, Position};
use notes::{Note, Seen, carry};
use pn_numbers::Numbers;
use shogi_rules::{Problem, apply};
use start_numbers::Starts;
use std::alloc::{AllocError, Global};
use visit_log::{Child, Left, Look};

// The position of a visit, and its key.
#[derive(Clone, Copy)]
pub(crate) struct Here<'a> {
    pub(crate) position: &'a Position,
    pub(crate) key: &'a Key,
}

// The child at the place was looked at. Start numbers are asked of those that are kept, and a note
// that is lent is carried to the child. Errors: want of memory for that alone, and then nothing
// changes.
pub(crate) fn tell(
    alloc: Global,
    problem: &Problem,
    starts: &mut Starts,
    here: Here,
    children: &mut [Child],
    place: usize,
    seen: Seen,
) -> Result<(), AllocError>
    requires quiet { IsQuiet here.position.now }
    requires key { here.key.now.0 ≡ key_of here.position.now }
    requires known { MayTell problem.now.position.side here.position.now children.old place seen }
    ensures told { OnOk result
        ((sight : Sight) × (sight.place ≡ place) × (sight.seen ≡ seen)
        × (slice_get children.old place ≡ Some sight.child)
        × Tells problem.now.position.side here.entry.position.now sight.child.by seen sight.start
        × (children.new ≡ slice_set children.old place
        (told problem.now.position.side here.entry.position.now sight.child seen sight.start))) }
    ensures lost { OnErr result (IsLending seen) }
    ensures unchanged { OnErr result (children.new ≡ children.old) }
{
    let position = here.position;
    match seen {
        Seen::New => {
            let by = children[place].by;
            let numbers = starts.start(alloc, problem, position, here.key, place, by);
            show(children, place, numbers, 0);
            Ok(())
        }
        Seen::Open { numbers, below } => {
            show(children, place, numbers, below);
            Ok(())
        }
        Seen::Solved(note) => {
            // No other position has the key of the one behind the move.
            note.laws();
            position.laws();
            prove(children, place, note);
            Ok(())
        }
        Seen::Lent(note) => {
            let next = apply(position, children[place].by);
            next.laws();
            let own = carry(alloc, problem, &next, &note)?;
            own.laws();
            prove(children, place, own);
            Ok(())
        }
    }
}

// The child at the place was looked at, and counts with these numbers.
fn show(children: &mut [Child], place: usize, numbers: Numbers, below: u64)
    requires { place < length children.old }
    ensures { (child : Child) → slice_get children.old place ≡ Some child
        → (children.new ≡ slice_set children.old place
        (record child { look = Fresh; numbers = numbers; below = below })) }
{
    let child = &mut children[place];
    child.look = Look::Fresh;
    child.numbers = numbers;
    child.below = below;
}

// The child at the place was looked at, and is solved, as the note says.
fn prove(children: &mut [Child], place: usize, note: Note)
    requires { place < length children.old }
    ensures { (child : Child) → slice_get children.old place ≡ Some child
        → (children.new ≡ slice_set children.old place
        (record child { look = Fresh; note = Some note })) }
{
    let child = &mut children[place];
    child.look = Look::Fresh;
    child.note = Some(note);
}

fn staled_look(look: Look) -> Look
    ensures { result ≡ staled_look look }
{
    match look {
        Look::Due => Look::Due,
        Look::Fresh => Look::Stale,
        Look::Stale => Look::Stale,
    }
}

// What this round looked at is stale in the next.
fn stale(children: &mut [Child])
    ensures { children.new ≡ map staled children.old }
{
    for child in children.iter_mut() {
        child.look = staled_look(child.look);
    }
}

// The visit of the child at the place ended so.
fn visit(children: &mut [Child], place: usize, left: Left)
    requires { place < length children.old }
    ensures { (child : Child) → slice_get children.old place ≡ Some (staled child) → children.new
        ≡ slice_set children.old place (visited child left) }
{
    let child = &mut children[place];
    match left {
        Left::Open(_) => child.look = Look::Due,
        Left::Solved(note) => {
            child.look = Look::Stale;
            child.note = Some(note);
        }
    }
}

// The visit of the child at the place ended so, and the next round begins.
pub(crate) fn next_round(children: &mut [Child], place: usize, left: Left)
    requires { place < length children.old }
    ensures { (child : Child) → slice_get children.old place ≡ Some child → children.new
        ≡ slice_set (map staled children.old) place (visited child left) }
{
    stale(children);
    visit(children, place, left);
}
