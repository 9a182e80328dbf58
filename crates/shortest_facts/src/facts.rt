// All that is known.
ghost use Rattle.std.specs.Prelude.{◌≡◌, ◌⊎◌, ◌+◌, ◌<◌, ◌≤◌, ℕ, IsSomeAnd, OnOk, OnErr};
ghost use Rattle.std.specs.HashMap as table;
ghost use Rattle.bit_boards.specs.declared.piece.Side.{Side};
ghost use Rattle.bit_boards.specs.Kind.{other};
ghost use Rattle.board_core.specs.declared.moves.Move.{Move};
ghost use Rattle.board_core.specs.Board.{Board};
ghost use Rattle.board_core.specs.Kept.{IsKept};
ghost use Rattle.shogi_rules.specs.Rules.{after};
ghost use Rattle.shogi_rules.specs.Tsume.{IsCheck, IsEvasion};
ghost use Rattle.mate_def.specs.Mate.{HasEvasionTo, after_both};
ghost use Rattle.shortest_facts.specs.Facts.{Known, AreBorneOut, HasNoCheck, IsBetter, IsChanged, IsNothing, fewest, nothing_at};
ghost use Rattle.shortest_facts.specs.Keys.{same_words, known_in, known_of};

use crate::{Fact, NEVER};
use board_core::{Key, Move, Position, Side, key};
use std::alloc::{AllocError, Global};
use std::collections::HashMap;

/// What is known of positions, for an attacker: a fact about each, and of most that nothing is
/// known. Takes about 100 bytes for each position of which something is.
#[derive(Drop)]
pub struct Facts {
    attacker: Side,
    by_key: HashMap<Key, Fact>,
}

// The fewest moves that a mate could take of which nothing is known.
fn fewest(attacker: Side, to_move: Side) -> u32
    ensures { result ≡ fewest attacker to_move }
{
    match (attacker, to_move) {
        (Side::Black, Side::Black) | (Side::White, Side::White) => 1,
        _ => 0,
    }
}

// What is known of a position, by what is kept for keys.
fn found(attacker: Side, by_key: &HashMap<Key, Fact>, position: &Position) -> Fact
    ensures { result ≡ (known_in attacker (table.get same_words by_key.now)).at position.now }
{
    match by_key.get(&key(position)) {
        Some(fact) => *fact,
        None => Fact {
            least: fewest(attacker, position.side()),
            most: NEVER,
            by: None,
        },
    }
}

// Changes what is known of one position.
fn change(
    by_key: &mut HashMap<Key, Fact>,
    position: &Position,
    fact: Fact,
) -> Result<(), AllocError>
    ensures changed { OnOk result ((attacker : Side)
        → IsChanged (known_in attacker (table.get same_words by_key.old))
        (known_in attacker (table.get same_words by_key.new)) position.now fact) }
    ensures unchanged { OnErr result ((attacker : Side) (b : Board)
        → (known_in attacker (table.get same_words by_key.new)).at b
        ≡ (known_in attacker (table.get same_words by_key.old)).at b) }
{
    by_key.insert(key(position), fact)?;
    Ok(())
}

impl Facts {
    /// Nothing is known. Takes no memory.
    pub fn new(alloc: Global, attacker: Side) -> Facts
        ensures nothing { IsNothing attacker (known_of result) }
        ensures borne_out { AreBorneOut (known_of result) }
    {
        Facts {
            attacker,
            by_key: HashMap::new(alloc),
        }
    }

    /// What is known of the position. Takes no memory.
    pub fn fact(&self, position: &Position) -> Fact
        ensures { result ≡ (known_of self.now).at position.now }
    {
        found(self.attacker, &self.by_key, position)
    }

    // Changes what is known of one position to what is better.
    fn improve(&mut self, position: &Position, fact: Fact) -> Result<(), AllocError>
        requires least { ((known_of self.old).at position.now).least ≤ fact.least }
        requires most { fact.most ≤ ((known_of self.old).at position.now).most }
        ensures changed { OnOk result
            (IsChanged (known_of self.old) (known_of self.new) position.now fact) }
        ensures better { IsBetter (known_of self.old) (known_of self.new) }
        ensures outcome { IsChanged (known_of self.old) (known_of self.new) position.now fact
            ⊎ ((b : Board) → (known_of self.new).at b ≡ (known_of self.old).at b) }
        ensures kept { IsKept position.now }
    {
        position.laws();
        change(&mut self.by_key, position, fact)
    }

    /// Where the attacker is to move: the check mates in so many moves at most, since each evasion
    /// to it leads to a position that is known to be mate in fewer. Errors: want of memory alone;
    /// then what is known stays as it was.
    pub fn mates(&mut self, position: &Position, check: Move, most: u32) -> Result<(), AllocError>
        requires borne_out { AreBorneOut (known_of self.old) }
        requires some { 1 ≤ most }
        requires is_check { IsCheck (known_of self.old).attacker position.now check }
        requires faster { (evasion : Move)
            → IsEvasion (known_of self.old).attacker (after position.now check) evasion
            → ((known_of self.old).at (after_both position.now check evasion)).most < most }
        ensures borne_out { AreBorneOut (known_of self.new) }
        ensures better { IsBetter (known_of self.old) (known_of self.new) }
        ensures known { OnOk result (((known_of self.new).at position.now).most ≤ most) }
    {
        let mut fact = self.fact(position);
        if fact.most <= most {
            return Ok(());
        }
        fact.most = most;
        fact.by = Some(check);
        self.improve(position, fact)
    }

    /// Where the attacker is to move: a mate takes so many moves at least, since each check has an
    /// evasion and, where it is more than two, leads to a position from which one is known to take
    /// at most one move less. Errors: want of memory alone; then what is known stays as it was.
    pub fn takes(&mut self, position: &Position, least: u32) -> Result<(), AllocError>
        requires borne_out { AreBorneOut (known_of self.old) }
        requires turn { position.now.side ≡ (known_of self.old).attacker }
        requires evaded { 1 < least → (check : Move)
            → IsCheck (known_of self.old).attacker position.now check
            → HasEvasionTo (known_of self.old).attacker (λ next. Unit {0}) position.now check }
        requires longer { 2 < least → (check : Move)
            → IsCheck (known_of self.old).attacker position.now check
            → least ≤ ((known_of self.old).at (after position.now check)).least + 1 }
        ensures borne_out { AreBorneOut (known_of self.new) }
        ensures better { IsBetter (known_of self.old) (known_of self.new) }
        ensures known { OnOk result (least ≤ ((known_of self.new).at position.now).least) }
    {
        let mut fact = self.fact(position);
        if least <= fact.least {
            return Ok(());
        }
        fact.least = least;
        self.improve(position, fact)
    }

    /// Where the defender is to move: he is mated in so many moves at most, since each evasion
    /// leads to a position that is known to be mate in no more. Errors: want of memory alone; then
    /// what is known stays as it was.
    pub fn is_mated(&mut self, position: &Position, most: u32) -> Result<(), AllocError>
        requires borne_out { AreBorneOut (known_of self.old) }
        requires turn { position.now.side ≡ other (known_of self.old).attacker }
        requires mated { (evasion : Move)
            → IsEvasion (known_of self.old).attacker position.now evasion
            → ((known_of self.old).at (after position.now evasion)).most ≤ most }
        ensures borne_out { AreBorneOut (known_of self.new) }
        ensures better { IsBetter (known_of self.old) (known_of self.new) }
        ensures known { OnOk result (((known_of self.new).at position.now).most ≤ most) }
    {
        let mut fact = self.fact(position);
        if fact.most <= most {
            return Ok(());
        }
        fact.most = most;
        self.improve(position, fact)
    }

    /// Where the defender is to move: the evasion holds out for so many moves at least, since it
    /// leads to a position without a check, or to one from which a mate is known to take as many.
    /// Errors: want of memory alone; then what is known stays as it was.
    pub fn holds_out(
        &mut self,
        position: &Position,
        evasion: Move,
        least: u32,
    ) -> Result<(), AllocError>
        requires borne_out { AreBorneOut (known_of self.old) }
        requires is_evasion { IsEvasion (known_of self.old).attacker position.now evasion }
        requires long { HasNoCheck (known_of self.old).attacker (after position.now evasion)
            ⊎ (least ≤ ((known_of self.old).at (after position.now evasion)).least) }
        ensures borne_out { AreBorneOut (known_of self.new) }
        ensures better { IsBetter (known_of self.old) (known_of self.new) }
        ensures known { OnOk result (least ≤ ((known_of self.new).at position.now).least) }
    {
        let mut fact = self.fact(position);
        if least <= fact.least {
            return Ok(());
        }
        fact.least = least;
        fact.by = Some(evasion);
        self.improve(position, fact)
    }
}
