// What start numbers were reckoned, so that they are told again at once.
ghost use Rattle.std.specs.Prelude.{◌≡◌, ◌↔◌, IfSome, IsTrue};
ghost use Rattle.bit_boards.specs.declared.piece.Side.{Side};
ghost use Rattle.board_core.specs.Key.{key_of};
ghost use Rattle.shogi_rules.specs.Rules.{IsQuiet, IsLegal};
ghost use Rattle.start_def.specs.Start.{IsStartOf, IsStartBehind};

use crate::starting::start;
use board_core::{Key, Move, Position, Side};
use pn_numbers::Numbers;
use shogi_rules::Problem;
use std::alloc::Global;
use std::mem::size_of;

// How many slots there are at first, and at most.
const FEWEST: usize = 256;

const MOST: usize = 16_384;

// What a word of a key is multiplied by.
const MULTIPLIER: u64 = 0x9e37_79b9_7f4a_7c15;

// What a slot takes.
const _: () = prove!(size_of::<Option<Slot>>() <= 88);

// The start numbers behind a move at the position of a key, for an attacker.
#[derive(Clone, Copy)]
struct Slot {
    key: Key,
    by: Move,
    attacker: Side,
    numbers: Numbers,
    ghost known: { IsStartBehind attacker key by numbers },
}

impl Slot {
    // Whether it is of this move at the position of this key.
    fn is_of(&self, key: &Key, by: Move) -> bool
        ensures { IsTrue result ↔ ((self.now.by ≡ by) × (self.now.key ≡ key.now)) }
    {
        self.by.is_same(by) && self.key == *key
    }
}

/// What start numbers were reckoned last, so that they are told again at once. It has at most
/// 16,384 slots of 88 bytes, and a move at a position has one of them, which it takes from what
/// stood there before: so what is told never depends on what is kept, and only its time does. The
/// moves of one position stand side by side, by their place in its list.
#[derive(Drop)]
pub struct Starts {
    slots: Vec<Option<Slot>>,

    // How many numbers are still to be reckoned before there are more slots.
    left: usize,
}

impl Starts {
    /// Nothing is kept yet. Takes no memory.
    pub fn new(alloc: Global) -> Starts {
        Starts {
            slots: Vec::new(alloc),
            left: 0,
        }
    }

    /// The numbers with which the position after a move begins, as [`start`] reckons them, from
    /// the position before it, its key, and the move, whose slot stands at that place among the
    /// position's. Takes memory for slots now and then, and does without where there is none.
    pub fn start(
        &mut self,
        alloc: Global,
        problem: &Problem,
        position: &Position,
        key: &Key,
        place: usize,
        by: Move,
    ) -> Numbers
        requires quiet { IsQuiet position.now }
        requires legal { IsLegal position.now by }
        requires key { key.now.0 ≡ key_of position.now }
        ensures { IsStartOf problem.now.position.side position.now by result }
    {
        position.laws();
        let attacker = problem.attacker();
        let number = first_of(key).wrapping_add(place);
        if let Some(numbers) = self.found(number, attacker, key, by) {
            return numbers;
        }
        let numbers = start(problem, position, by);
        self.make_room(alloc);
        self.put(number, slot_of(attacker, position, key, by, numbers));
        numbers
    }

    // The numbers that are kept of this move at the position of this key, for this attacker.
    fn found(&self, number: usize, attacker: Side, key: &Key, by: Move) -> Option<Numbers>
        ensures { IfSome result (λ numbers. IsStartBehind attacker key.now by numbers) }
    {
        match self.slots.get(self.place_of(number)) {
            Some(Some(slot)) if slot.attacker == attacker && slot.is_of(key, by) => Some(
                slot.numbers,
            ),
            _ => None,
        }
    }

    // Where the slot of a number stands, if there are any.
    fn place_of(&self, number: usize) -> usize {
        number & self.slots.len().wrapping_sub(1)
    }

    // One more was reckoned: now and then there are four times as many slots after it, and all of
    // them empty.
    fn make_room(&mut self, alloc: Global) {
        if self.left > 0 {
            self.left -= 1;
            return;
        }
        let few = self.slots.len();
        let wanted = few.saturating_mul(4).max(FEWEST).min(MOST);
        self.left = 2 * wanted;
        if wanted > few {
            if let Ok(slots) = Vec::from_elem(alloc, None, wanted) {
                self.slots = slots;
            }
        }
    }

    // The slot is kept, if there are any.
    fn put(&mut self, number: usize, slot: Slot) {
        let place = self.place_of(number);
        if let Some(old) = self.slots.get_mut(place) {
            *old = Some(slot);
        }
    }
}

// What was reckoned behind a move at the position of the key, to be kept: no other position has
// the key.
fn slot_of(attacker: Side, position: &Position, key: &Key, by: Move, numbers: Numbers) -> Slot
    requires key { key.now.0 ≡ key_of position.now }
    requires start { IsStartOf attacker position.now by numbers }
    ensures { result.numbers ≡ numbers }
{
    position.laws();
    Slot {
        key: *key,
        by,
        attacker,
        numbers,
    }
}

// The number of the first slot of a position's moves: all of its key is mixed in its low bits.
fn first_of(key: &Key) -> usize {
    let mut mixed = 0u64;
    for word in key.0.iter() {
        mixed = (mixed.rotate_left(23) ^ *word).wrapping_mul(MULTIPLIER);
    }
    (mixed ^ (mixed >> 32)) as usize
}
