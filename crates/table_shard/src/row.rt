// A row of eight slots.
ghost use Rattle.std.specs.Prelude.{◌≡◌, ◌≢◌, ◌<◌, ◌≤◌, ◌++◌, ◌↔◌, [], ◌∷◌, ℕ, IfSome, IfNone, Some, None, MatchOption, MatchResult, IsSomeAnd, All, IsTrue, false, length, slice_get, slice_set, slice_index, option_copied};
ghost use Rattle.pn_numbers.specs.Numbers.{IsOpen};
ghost use Rattle.table_shard.specs.Entry.{EntryView, IsEntry, IsFirstWithin, FitsKey};
ghost use Rattle.table_shard.specs.Marks.{marks_of};
ghost use Rattle.table_shard.specs.Spot.{mark_of};
ghost use Rattle.table_shard.specs.Row.{HoldsAt, Lacks, IsLent, IsRow, IsUnsolved, LendsAt, LooksBy, IsIdle, IsIdleUnsolved, IsFirst, IsGivenUp, EntersBy, left};

use crate::entry::Entry;
use crate::pins::{Pins, counts_of};
use arrayvec::ArrayVec;
use board_core::{Key, Side};
use notes::{Kept, Note, Seen, Update};
use path_tags::Path;
use pn_numbers::Numbers;
use std::alloc::AllocError;
use std::marker::Model;

// How many slots a row has.
pub(crate) const SLOTS: usize = 8;

// The entries in the order of their slots; the slots behind them are free. Contracts see the list.
// Their marks stand side by side, so that a look for a position of whose board the row knows
// nothing mostly reads these alone.
#[derive(Drop)]
pub(crate) struct Row {
    marks: ArrayVec<u32, SLOTS>,
    entries: ArrayVec<Entry, SLOTS>,
}

// Beside what its notes stand on, a row takes at most 1 KiB.
const _: () = prove!(size_of::<Row>() <= 1024);

impl Model for Row {
    ghost use Rattle.std.specs.Prelude.{◌≡◌, List};
    ghost use Rattle.table_shard.specs.Entry.{EntryView};
    ghost use Rattle.table_shard.specs.Row.{IsRow};
    ghost use Rattle.table_shard.specs.Marks.{marks_of};
    ghost use Rattle.std.specs.Coded.{codes};
    ghost use Rattle.table_shard.specs.contracts.entry.Entry as entry;

    ghost Value = { List EntryView };

    ghost coded = { Prim.hlevel (codes, entry.the_row.coded) };

    ghost view = { λ r. r.entries.items };

    ghost invariant = { λ r. IsRow r.entries.items × (r.marks.items ≡ marks_of r.entries.items) };
}

impl Row {
    // The row whose slots are all free.
    pub(crate) fn empty() -> Row
        ensures { result ≡ [] }
    {
        Row {
            marks: ArrayVec::new(),
            entries: ArrayVec::new(),
        }
    }

    // What is kept of every row. Does nothing.
    pub(crate) fn laws(&self)
        ensures { IsRow self.now }
    {
        let _kept = &self.entries;
    }

    // How many entries it has: there is a mark for each.
    #[tactic(auto, using(crate::proofs::Marks::marks_long))]
    pub(crate) fn count(&self) -> usize
        ensures { result ≡ length self.now }
    {
        self.marks.len()
    }

    // The slot with the key's entry, whose mark is the key's.
    pub(crate) fn slot_of(&self, mark: u32, key: &Key) -> Option<usize>
        requires { mark ≡ mark_of key.now }
        ensures there { IfSome result (λ slot. slot < 8) }
        ensures some { IfSome result (λ slot. HoldsAt self.now slot key.now) }
        ensures none { IfNone result (Lacks self.now key.now) }
    {
        slot_of(self.marks.as_slice(), &self.entries, mark, key)
    }

    // Whether the slot has the key's entry.
    pub(crate) fn holds(&self, slot: u8, key: &Key) -> bool
        ensures { IsTrue result ↔ HoldsAt self.now slot key.now }
    {
        match self.entries.as_slice().get(slot as usize) {
            Some(entry) => entry.is_of(key),
            None => false,
        }
    }

    // The note of the key's own entry, which is in this slot, that holds on the path.
    fn own_note(&self, own: Option<usize>, key: &Key, path: &Path) -> Option<&Note>
        requires own { IfSome own (λ slot. HoldsAt self.now slot key.now) }
        requires there { IfSome own (λ slot. slot < length self.now) }
        requires lacks { IfNone own (Lacks self.now key.now) }
        ensures some { IfSome result
            (λ note. (slot : ℕ) × IsSomeAnd (slice_get self.now slot)
            (λ entry. (entry.key ≡ key.now) × IsFirstWithin path.now entry.notes (Some note.now))) }
        ensures none { IfNone result (IsUnsolved self.now key.now path.now) }
        ensures there { IfNone result (IfSome own (λ slot. IsSomeAnd (slice_get self.now slot)
            (λ entry. IsFirstWithin path.now entry.notes None))) }
    {
        match own {
            Some(slot) => self.entries.as_slice()[slot].note_on(path),
            None => None,
        }
    }

    // The note that is lent to the position of the key, for the attacker, if it lends to one.
    fn lent_note(&self, to: Option<Side>, mark: u32, key: &Key) -> Option<&Note>
        requires mark { mark ≡ mark_of key.now }
        ensures { IsLent to key.now self.now (option_copied result) }
    {
        let Some(attacker) = to else {
            return None;
        };
        let Some(slot) = first_lent(self.marks.as_slice(), &self.entries, attacker, mark, key)
        else {
            return None;
        };
        self.entries.as_slice()[slot].closed()
    }

    // What a look for the key shows. Errors: want of memory alone; then nothing was asked.
    pub(crate) fn look<P: Pins>(
        &self,
        to: Option<Side>,
        mark: u32,
        key: &Key,
        path: &Path,
        pins: &mut P,
    ) -> Result<Seen, AllocError>
        requires mark { mark ≡ mark_of key.now }
        requires ready { P.ready pins.old }
        ensures ready { P.ready pins.new }
        ensures looks { MatchResult result
            (λ seen. LooksBy P.told to self.now key.now path.now pins.old seen pins.new)
            (λ _. pins.old ≡ pins.new) }
    {
        let own = slot_of(self.marks.as_slice(), &self.entries, mark, key);
        if let Some(note) = self.own_note(own, key, path) {
            return Ok(Seen::Solved(note.share()?));
        }
        if let Some(note) = self.lent_note(to, mark, key) {
            return Ok(Seen::Lent(note.share()?));
        }
        let Some(slot) = own else {
            return Ok(Seen::New);
        };
        Ok(Seen::Open {
            numbers: self.entries.as_slice()[slot].numbers(),
            below: pins.count(slot),
        })
    }

    // Enters the key, with these numbers where it is new.
    pub(crate) fn enter<P: Pins>(
        &mut self,
        mark: u32,
        key: &Key,
        numbers: Numbers,
        pins: &mut P,
    ) -> Kept
        requires mark { mark ≡ mark_of key.now }
        requires ready { P.ready pins.old }
        requires open { IsOpen numbers }
        ensures ready { P.ready pins.new }
        ensures enters { EntersBy P.told self.old key.now numbers pins.old result self.new pins.new }
    {
        if let Some(slot) = self.slot_of(mark, key) {
            return Kept::Slot(slot as u8);
        }
        let entry = Entry::fresh(*key, numbers);
        if self.entries.len() < SLOTS {
            let slot = self.entries.len();
            self.push(mark, entry);
            return Kept::Slot(slot as u8);
        }
        let counts = counts_of(pins);
        let Some(slot) = given_up(self.entries.as_slice(), &counts) else {
            return Kept::Unkept;
        };
        self.put(slot, mark, entry);
        Kept::Slot(slot as u8)
    }

    // Puts an entry of another key into the first free slot.
    fn push(&mut self, mark: u32, entry: Entry)
        requires mark { mark ≡ mark_of entry.key }
        requires room { length self.old < 8 }
        requires entry { IsEntry entry }
        requires other { Lacks self.old entry.key }
        ensures { self.new ≡ self.old ++ entry ∷ [] }
    {
        self.marks.push(mark);
        self.entries.push(entry);
    }

    // Puts an entry of another key into a slot that isn't free.
    fn put(&mut self, slot: usize, mark: u32, entry: Entry)
        requires mark { mark ≡ mark_of entry.key }
        requires there { slot < length self.old }
        requires entry { IsEntry entry }
        requires other { Lacks self.old entry.key }
        ensures { self.new ≡ slice_set self.old slot entry }
    {
        self.marks.as_mut_slice()[slot] = mark;
        self.entries.as_mut_slice()[slot] = entry;
    }

    // Makes an update to a slot's entry.
    pub(crate) fn leave(&mut self, slot: usize, update: Update)
        requires { IsSomeAnd (slice_get self.old slot) (λ entry. FitsKey entry.key update) }
        ensures { self.new ≡ left self.old slot update }
    {
        let entry = &mut self.entries.as_mut_slice()[slot];
        entry.make(update);
        entry.laws();
    }
}

// Whether the entry in a slot, which has this mark, is the key's. Where the marks differ, nothing
// of the entries is read.
fn is_there(known: u32, entries: &ArrayVec<Entry, SLOTS>, slot: usize, mark: u32, key: &Key) -> bool
    requires known { IsSomeAnd (slice_get entries.now.items slot) (λ entry. known
        ≡ mark_of entry.key) }
    requires mark { mark ≡ mark_of key.now }
    ensures { IsTrue result ↔ HoldsAt entries.now.items slot key.now }
{
    known == mark && entries.as_slice()[slot].is_of(key)
}

// The slot with the key's entry, by the marks of the entries.
fn slot_of(marks: &[u32], entries: &ArrayVec<Entry, SLOTS>, mark: u32, key: &Key) -> Option<usize>
    requires marks { marks.now ≡ marks_of entries.now.items }
    requires mark { mark ≡ mark_of key.now }
    ensures there { IfSome result (λ slot. slot < length entries.now.items) }
    ensures some { IfSome result (λ slot. HoldsAt entries.now.items slot key.now) }
    ensures none { IfNone result (Lacks entries.now.items key.now) }
{
    for (slot, known) in marks.iter().enumerate() {
        if is_there(*known, entries, slot, mark, key) {
            return Some(slot);
        }
    }
    None
}

// Whether the entry in a slot, which has this mark, lends a note to the position of the key. Where
// the marks differ, it is of another board, and nothing of the entries is read.
fn lends_there(
    known: u32,
    entries: &ArrayVec<Entry, SLOTS>,
    slot: usize,
    attacker: Side,
    mark: u32,
    key: &Key,
) -> bool
    requires known { IsSomeAnd (slice_get entries.now.items slot) (λ entry. known
        ≡ mark_of entry.key) }
    requires mark { mark ≡ mark_of key.now }
    ensures { IsTrue result ↔ LendsAt attacker key.now entries.now.items slot }
{
    if known != mark {
        return false;
    }
    entries.as_slice()[slot].lends(attacker, key)
}

// The first slot whose entry lends a note to the position of the key, by the marks of the entries.
fn first_lent(
    marks: &[u32],
    entries: &ArrayVec<Entry, SLOTS>,
    attacker: Side,
    mark: u32,
    key: &Key,
) -> Option<usize>
    requires marks { marks.now ≡ marks_of entries.now.items }
    requires mark { mark ≡ mark_of key.now }
    ensures there { IfSome result (λ slot. slot < length entries.now.items) }
    ensures some { IfSome result (IsFirst (LendsAt attacker key.now entries.now.items)) }
    ensures none { IfNone result
        ((slot : ℕ) → ¬ LendsAt attacker key.now entries.now.items slot) }
{
    for (slot, known) in marks.iter().enumerate() {
        if lends_there(*known, entries, slot, attacker, mark, key) {
            return Some(slot);
        }
    }
    None
}

// The slot whose entry is given up for another; none where workers are below each.
fn given_up(entries: &[Entry], pins: &[u64; 8]) -> Option<usize>
    requires { length entries.now ≤ 8 }
    ensures some { IfSome result (λ slot. IsGivenUp entries.now pins.now slot) }
    ensures there { IfSome result (λ slot. slot < length entries.now) }
    ensures none { IfNone result ((slot : ℕ) → ¬ IsIdle entries.now pins.now slot) }
{
    if let Some(slot) = first_idle_unsolved(entries, pins) {
        return Some(slot);
    }
    first_idle(entries, pins)
}

// The first slot whose entry no worker is below and none of whose notes holds on every path.
fn first_idle_unsolved(entries: &[Entry], pins: &[u64; 8]) -> Option<usize>
    requires { length entries.now ≤ 8 }
    ensures some { IfSome result (IsFirst (IsIdleUnsolved entries.now pins.now)) }
    ensures none { IfNone result ((slot : ℕ) → ¬ IsIdleUnsolved entries.now pins.now slot) }
{
    for (slot, entry) in entries.iter().enumerate() {
        if pins[slot] == 0 && !entry.is_closed() {
            return Some(slot);
        }
    }
    None
}

// The first slot whose entry no worker is below.
fn first_idle(entries: &[Entry], pins: &[u64; 8]) -> Option<usize>
    requires { length entries.now ≤ 8 }
    ensures some { IfSome result (IsFirst (IsIdle entries.now pins.now)) }
    ensures none { IfNone result ((slot : ℕ) → ¬ IsIdle entries.now pins.now slot) }
{
    for slot in 0..entries.len() {
        if pins[slot] == 0 {
            return Some(slot);
        }
    }
    None
}
