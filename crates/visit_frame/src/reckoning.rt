// What the children of a node say of it.
ghost use Rattle.std.specs.Prelude.{◌≡◌, ◌++◌, [], ◌∷◌, ℕ, List, Some, All, false, length, map, option_copied};
ghost use Rattle.std.specs.List.{list_all, list_any};
ghost use Rattle.visit_log.specs.declared.parts.Child.{Child};
ghost use Rattle.visit_log.specs.Children.{has_note, shows_mate, shows_escape, decides, deciding, is_solved, settled, numbers_by, counted_behind, counted, numbers_in, is_due, is_fresh, hides, is_hidden, first_due, reaches};
ghost use Rattle.pn_numbers.specs.Numbers.{IsNumbers, IsOpen};
ghost use Rattle.pn_numbers.specs.Thresholds.{thresholds_of};
ghost use Rattle.pn_numbers.specs.Combined.{numbers_at};
ghost use Rattle.visit_frame.specs.Hiding.{AreOpenDrops};
ghost use Rattle.visit_frame.specs.Reckoned.{IsReckoned};

use bit_boards::Mask;
use board_core::Move;
use notes::{Conclusion, Note};
use pn_numbers::{
    Child as Counted, Node, Numbers, and_numbers, child_thresholds, or_numbers, select,
};
use visit_log::{Child, Entry, Look};

fn is_due(look: Look) -> bool
    ensures { result ≡ is_due look }
{
    look == Look::Due
}

pub(crate) fn is_fresh(look: Look) -> bool
    ensures { result ≡ is_fresh look }
{
    look == Look::Fresh
}

// The place of the first child that is due.
pub(crate) fn first_due(children: &[Child]) -> Option<usize>
    ensures { result ≡ first_due children.now }
{
    children.iter().position(|child| is_due(child.look))
}

fn shows_mate(note: &Option<Note>) -> bool
    ensures { result ≡ shows_mate note.now }
{
    match note {
        Some(note) => note.conclusion() == Conclusion::Mate,
        None => false,
    }
}

fn shows_escape(note: &Option<Note>) -> bool
    ensures { result ≡ shows_escape note.now }
{
    match note {
        Some(note) => note.conclusion() == Conclusion::Escape,
        None => false,
    }
}

// Whether the child decides its node alone.
fn decides(node: Node, child: &Child) -> bool
    ensures { result ≡ decides node child.now }
{
    match node {
        Node::Attacker => shows_mate(&child.note),
        Node::Defender => child.on_path || shows_escape(&child.note),
    }
}

// The first child that decides its node.
pub(crate) fn deciding(node: Node, children: &[Child]) -> Option<&Child>
    ensures { option_copied result ≡ deciding node children.now }
{
    children.iter().find(|child| decides(node, child))
}

fn has_note(child: &Child) -> bool
    ensures { result ≡ has_note child.now }
{
    child.note.is_some()
}

fn all_have_notes(children: &[Child]) -> bool
    ensures { result ≡ list_all has_note children.now }
{
    children.iter().all(|child| has_note(child))
}

// Whether the node is solved on the path.
pub(crate) fn is_solved(node: Node, children: &[Child]) -> bool
    ensures { result ≡ is_solved node children.now }
{
    deciding(node, children).is_some() || all_have_notes(children)
}

fn settled(conclusion: Conclusion) -> Numbers
    ensures { result ≡ settled conclusion }
{
    match conclusion {
        Conclusion::Mate => Numbers::PROVED,
        Conclusion::Escape => Numbers::DISPROVED,
    }
}

fn numbers_by(note: &Option<Note>, numbers: Numbers) -> Numbers
    ensures { result ≡ numbers_by note.now numbers }
{
    match note {
        Some(note) => settled(note.conclusion()),
        None => numbers,
    }
}

// Whether the move is a drop on a square of the set.
fn hides(drops: Mask, by: Move) -> bool
    ensures { (before : List Child) (child : Child) → AreOpenDrops drops before → child.by ≡ by
        → result ≡ list_any (hides child) before }
{
    match by {
        Move::Board { .. } => false,
        Move::Drop { to, .. } => drops.contains(to),
    }
}

// Whether a move is hidden behind others, where the set has the squares on which these are drops
// without a note.
fn is_hidden(node: Node, drops: Mask, by: Move) -> bool
    ensures { (before : List Child) (child : Child) → AreOpenDrops drops before → child.by ≡ by
        → result ≡ is_hidden node before child }
{
    match node {
        Node::Attacker => false,
        Node::Defender => hides(drops, by),
    }
}

// A child as it is counted behind others.
fn counted_behind(node: Node, drops: Mask, child: &Child) -> Counted
    ensures { (before : List Child) → AreOpenDrops drops before → result
        ≡ counted_behind node before child.now }
{
    let numbers = if is_hidden(node, drops, child.by) {
        Numbers::PROVED
    } else {
        numbers_by(&child.note, child.numbers)
    };
    Counted {
        numbers,
        below: child.below,
    }
}

// The squares on which the others and this one are drops without a note.
fn with_drop(drops: Mask, child: &Child) -> Mask
    ensures { (before : List Child) → AreOpenDrops drops before
        → AreOpenDrops result (before ++ child.now ∷ []) }
{
    match child.by {
        Move::Drop { to, .. } => {
            if child.note.is_none() {
                drops.with(to)
            } else {
                drops
            }
        }
        Move::Board { .. } => drops,
    }
}

// Counts the children, in room for them.
fn count(node: Node, children: &[Child], room: &mut [Counted], numbers: &mut [Numbers])
    requires room { length room.old ≡ length children.now }
    requires numbers { length numbers.old ≡ length children.now }
    ensures counted { room.new ≡ counted node children.now }
    ensures numbers { numbers.new ≡ map numbers_in (counted node children.now) }
{
    let mut drops = Mask::empty();
    for (i, child) in children.iter().enumerate() {
        let one = counted_behind(node, drops, child);
        room[i] = one;
        numbers[i] = one.numbers;
        drops = with_drop(drops, child);
    }
}

// The numbers of a node of which these are the children's.
fn numbers_at(node: Node, counts: &[Numbers]) -> Numbers
    ensures numbers { result ≡ numbers_at node counts.now }
    ensures again { All IsNumbers counts.now → IsNumbers result }
{
    match node {
        Node::Attacker => or_numbers(counts),
        Node::Defender => and_numbers(counts),
    }
}

// What the visit of a child begins with, from the thresholds of its node and the node's own
// numbers.
pub(crate) fn entry_to(
    node: Node,
    limits: Numbers,
    own: Numbers,
    child: &Child,
    second: u128,
) -> Entry
    ensures { result ≡ record {
      by = Some child.now.by;
      key = child.now.key;
      limits = thresholds_of node limits own
          child.now.numbers second;
      numbers = child.now.numbers;
    } }
{
    Entry {
        by: Some(child.by),
        key: child.key,
        limits: child_thresholds(node, limits, own, child.numbers, second),
        numbers: child.numbers,
    }
}

// Whether numbers have come to a threshold.
fn reaches(numbers: Numbers, limits: Numbers) -> bool
    ensures { result ≡ reaches numbers limits }
{
    numbers.pn >= limits.pn || numbers.dn >= limits.dn
}

// What an unsolved node comes to.
pub(crate) enum Reckoned {
    // Its numbers have come to a threshold.
    Reached(Numbers),
    // They haven't, and this child is selected, beside this second best selecting number.
    Chosen {
        own: Numbers,
        place: usize,
        second: u128,
    },
}

// What an unsolved node comes to, with these thresholds; the rest is room for reckoning.
pub(crate) fn reckon(
    node: Node,
    limits: Numbers,
    worker: u32,
    children: &[Child],
    room: &mut [Counted],
    numbers: &mut [Numbers],
) -> Reckoned
    requires room { length room.old ≡ length children.now }
    requires numbers { length numbers.old ≡ length children.now }
    requires opens { All (λ child. IsOpen child.numbers) children.now }
    requires unsolved { is_solved node children.now ≡ false }
    ensures { IsReckoned node limits worker children.now result }
{
    count(node, children, room, numbers);
    let own = numbers_at(node, numbers);
    if reaches(own, limits) {
        return Reckoned::Reached(own);
    }
    match select(node, room, worker) {
        Some((place, second)) => Reckoned::Chosen { own, place, second },
        None => unreachable!(),
    }
}
