// Finding the positions of a list that stand on one board.
ghost use Rattle.std.specs.Prelude.{◌≡◌, [], List, OnOk, IfOk, OnErr};
ghost use Rattle.board_core.specs.Board.{Board};
ghost use Rattle.board_core.specs.Kept.{IsKept};
ghost use Rattle.position_places.specs.Places.{AreBoardPlacesOf, IsPlaceOrNext, IsWith};
ghost use Rattle.position_places.specs.Boards.{ArePlacesOnBoard, AreBoardKeys, least_hands};

use board_core::{Key, Position, Side, key};
use std::alloc::{AllocError, Global};
use std::collections::BTreeMap;

/// Where each position of a list stands, by the order of their keys: those of positions with the
/// same cells and side to move stand side by side, so that these are found together, in a time that
/// grows as the logarithm of the number of all.
#[derive(Drop)]
pub struct BoardPlaces {
    by_key: BTreeMap<Key, usize>,
}

impl BoardPlaces {
    /// The places of no position. Takes no memory.
    pub fn new(alloc: Global) -> BoardPlaces
        ensures { AreBoardPlacesOf result [] }
    {
        BoardPlaces {
            by_key: BTreeMap::new(alloc),
        }
    }

    /// The place of the position: where it isn't listed yet, it is listed behind the others, and
    /// its place is how many they were. Errors: want of memory alone, and then the places stay as
    /// they were.
    pub fn add(&mut self, position: &Position) -> Result<usize, AllocError>
        ensures place { IfOk result (λ place. (positions : List Board)
            → AreBoardPlacesOf self.old positions → IsPlaceOrNext positions position.now place) }
        ensures added { OnOk result ((positions longer : List Board)
            → AreBoardPlacesOf self.old positions → IsWith positions position.now longer
            → AreBoardPlacesOf self.new longer) }
        ensures unchanged { OnErr result ((positions : List Board)
            → AreBoardPlacesOf self.old positions → AreBoardPlacesOf self.new positions) }
    {
        let next = self.by_key.len();
        let place = *self.by_key.entry(key(position))?.or_insert(next);
        Ok(place)
    }

    /// Puts the places of all listed positions with this one's cells and side to move, whatever
    /// their hands, into the list: each once, in rising order. What stood in it is lost. Errors:
    /// want of memory alone, and then the list may lack some of them.
    pub fn on_board(&self, position: &Position, places: &mut Vec<usize>) -> Result<(), AllocError>
        ensures { OnOk result ((positions : List Board) → AreBoardPlacesOf self.now positions
            → ArePlacesOnBoard positions position.now places.new.items) }
    {
        let (least, greatest) = board_keys(position);
        places.clear();
        for (_, place) in self.by_key.range(least..=greatest) {
            places.push(*place)?;
        }
        places.sort_unstable();
        Ok(())
    }
}

// What the last word of a key is at least where this side is to move.
fn least_hands(side: Side) -> u64
    ensures { result ≡ least_hands side }
{
    match side {
        Side::Black => 0,
        Side::White => 1 << 42,
    }
}

// The least and the greatest of what may be keys of positions with this one's cells and side to
// move: that with no bit of the hands set, and that with all.
fn board_keys(position: &Position) -> (Key, Key)
    ensures ends { AreBoardKeys position.now result.0 result.1 }
    ensures kept { IsKept position.now }
{
    let mut least = key(position);
    let mut greatest = least;
    least.0[7] = least_hands(position.side());
    greatest.0[7] = least.0[7] + ((1 << 42) - 1);
    (least, greatest)
}
