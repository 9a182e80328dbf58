// Finding a position among those of a list.
ghost use Rattle.std.specs.Prelude.{◌≡◌, ◌<◌, [], ◌↔◌, List, OnOk, IfOk, IfSome, OnErr, IsTrue, Contains, length};
ghost use Rattle.board_core.specs.Board.{Board};
ghost use Rattle.board_core.specs.Kept.{IsKept};
ghost use Rattle.board_core.specs.Key.{key_of};
ghost use Rattle.position_places.specs.Places.{ArePlacesOf, IsPlace, IsPlaceOrNext, IsWith};

use board_core::{Key, Position, key};
use std::alloc::{AllocError, Global};
use std::collections::HashMap;

/// Where each position of a list stands, by its key: found in a time that doesn't grow with their
/// number, but where somebody chose the positions so that their keys have few hashes.
#[derive(Drop)]
pub struct Places {
    by_key: HashMap<Key, usize>,
}

impl Places {
    /// The places of no position. Takes no memory.
    pub fn new(alloc: Global) -> Places
        ensures { ArePlacesOf result [] }
    {
        Places {
            by_key: HashMap::new(alloc),
        }
    }

    /// The places of no position, with room for so many: they take no more memory till more are
    /// listed. Errors: want of memory alone.
    pub fn with_room(alloc: Global, count: usize) -> Result<Places, AllocError>
        ensures { IfOk result (λ places. ArePlacesOf places []) }
    {
        Ok(Places {
            by_key: HashMap::with_capacity(alloc, count)?,
        })
    }

    /// The place of the position: where it isn't listed yet, it is listed behind the others, and
    /// its place is how many they were. Errors: want of memory alone, and then the places stay as
    /// they were.
    pub fn add(&mut self, position: &Position) -> Result<usize, AllocError>
        ensures place { IfOk result (λ place. (positions : List Board)
            → ArePlacesOf self.old positions → IsPlaceOrNext positions position.now place) }
        ensures added { OnOk result ((positions longer : List Board)
            → ArePlacesOf self.old positions → IsWith positions position.now longer
            → ArePlacesOf self.new longer) }
        ensures unchanged { OnErr result ((positions : List Board)
            → ArePlacesOf self.old positions → ArePlacesOf self.new positions) }
    {
        let next = self.by_key.len();
        let place = *self.by_key.entry(key(position))?.or_insert(next);
        Ok(place)
    }

    /// Whether the position is listed.
    pub fn holds(&self, position: &Position) -> bool
        ensures { (positions : List Board) → ArePlacesOf self.now positions → IsTrue result
            ↔ Contains positions position.now }
    {
        self.find(position).is_some()
    }

    /// The place of the position, where it is listed.
    pub fn find(&self, position: &Position) -> Option<usize>
        ensures { (positions : List Board) → ArePlacesOf self.now positions
            → IsPlace positions position.now result }
    {
        position.laws();
        self.find_key(&key(position))
    }

    /// The place of the position that has the key, where it is listed; whoever knows its key need
    /// not make it.
    pub fn find_key(&self, key: &Key) -> Option<usize>
        ensures place { (positions : List Board) (position : Board)
            → ArePlacesOf self.now positions → IsKept position → key.now.0 ≡ key_of position
            → IsPlace positions position result }
        // Also where no position that is kept has the key.
        ensures within { IfSome result (λ place. (positions : List Board)
            → ArePlacesOf self.now positions → place < length positions) }
    {
        self.by_key.get(key).copied()
    }
}
