// An entry: what the table knows of one position.
ghost use Rattle.std.specs.Prelude.{◌≡◌, ◌∷◌, [], ◌↔◌, IfSome, IfNone, IsTrue, false, option_copied};
ghost use Rattle.pn_numbers.specs.Numbers.{IsOpen};
ghost use Rattle.table_shard.specs.Entry.{EntryView, IsEntry, IsFirstWithin, IsAbout, LendsSome, noted, updated, FitsKey, has_closed};
ghost use Rattle.table_shard.specs.Row.{fresh};

use crate::facts::Facts;
use board_core::{Key, Side};
use notes::{Note, Update, may_be_lent};
use path_tags::Path;
use pn_numbers::Numbers;
use std::marker::Model;
use std::mem;

// The most keys of a tag that is kept.
const MOST_KEYS: usize = 32;

// A position's key, its numbers, and what is known of it.
#[derive(Drop)]
pub(crate) struct Entry {
    key: Key,
    numbers: Numbers,
    facts: Facts,
}

impl Model for Entry {
    ghost use Rattle.std.specs.Prelude.{◌≡◌, All};
    ghost use Rattle.std.specs.Coded.{codes};
    ghost use Rattle.notes.specs.contracts.note.Note as note;
    ghost use Rattle.pn_numbers.specs.Numbers.{IsOpen};
    ghost use Rattle.table_shard.specs.Entry.{EntryView, IsFactAbout};
    ghost use Rattle.table_shard.specs.Facts.{notes_of, AreFacts};

    ghost Value = { EntryView };

    ghost coded = { Prim.hlevel (codes, note.the_row.coded) };

    ghost view = { λ e. record { key = e.key; numbers = e.numbers; notes = notes_of e.facts } };

    ghost invariant = { λ e. IsOpen e.numbers × AreFacts e.facts × All (IsFactAbout e.key) (notes_of e.facts) };
}

impl Entry {
    // The entry of a position that has none yet.
    pub(crate) fn fresh(key: Key, numbers: Numbers) -> Entry
        requires { IsOpen numbers }
        ensures fresh { result ≡ fresh key numbers }
        ensures entry { IsEntry result }
    {
        Entry {
            key,
            numbers,
            facts: Facts::Unknown,
        }
    }

    // Whether it is the key's. The last word, which has both hands, tells most apart.
    pub(crate) fn is_of(&self, key: &Key) -> bool
        ensures { IsTrue result ↔ (self.now.key ≡ key.now) }
    {
        self.key.0[7] == key.0[7] && self.key == *key
    }

    // Whether a note is kept that holds on every path.
    pub(crate) fn is_closed(&self) -> bool
        ensures { result ≡ has_closed self.now.notes }
    {
        self.facts.is_closed()
    }

    // The first note that holds on the path.
    pub(crate) fn note_on(&self, path: &Path) -> Option<&Note>
        ensures { IsFirstWithin path.now self.now.notes (option_copied result) }
    {
        self.facts.first_within(path)
    }

    // The note that holds on every path, which stands alone.
    pub(crate) fn closed(&self) -> Option<&Note>
        ensures some { IfSome result (λ note. self.now.notes ≡ note.now ∷ []) }
        ensures none { IfNone result (has_closed self.now.notes ≡ false) }
    {
        self.facts.closed()
    }

    // Whether it lends a note to the position of another key, for the attacker.
    pub(crate) fn lends(&self, attacker: Side, key: &Key) -> bool
        ensures { IsTrue result ↔ LendsSome attacker key.now self.now }
    {
        match self.closed() {
            Some(note) => may_be_lent(note, attacker, &self.key, key),
            None => false,
        }
    }

    // Its numbers.
    pub(crate) fn numbers(&self) -> Numbers
        ensures { result ≡ self.now.numbers }
    {
        self.numbers
    }

    // What is kept of every entry. Does nothing.
    pub(crate) fn laws(&self)
        ensures { IsEntry self.now }
    {
        let _kept = &self.facts;
    }

    // Makes an update.
    pub(crate) fn make(&mut self, update: Update)
        requires { FitsKey self.old.key update }
        ensures { self.new ≡ updated self.old update }
    {
        match update {
            Update::Numbers(numbers) => self.set(numbers),
            Update::Note(note) => self.add(note),
            Update::Nothing => {}
        }
    }

    fn set(&mut self, numbers: Numbers)
        requires { IsOpen numbers }
        ensures { self.new ≡ record self.old { numbers = numbers } }
    {
        self.numbers = numbers;
    }

    // Adds a note about the position.
    fn add(&mut self, note: Note)
        requires { IsAbout self.old.key note }
        ensures { self.new ≡ record self.old { notes = noted self.old.notes note } }
    {
        note.laws();
        if note.is_closed() {
            self.facts = Facts::Closed(note);
            return;
        }
        if note.tag().len() > MOST_KEYS {
            return;
        }
        let facts = mem::replace(&mut self.facts, Facts::Unknown);
        self.facts = facts.with(note);
    }
}

// What stands in a slot that is free.
impl Default for Entry {
    fn default() -> Entry {
        Entry {
            key: Key([0; 8]),
            numbers: Numbers::ONE,
            facts: Facts::Unknown,
        }
    }
}
