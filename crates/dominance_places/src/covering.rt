// Finding as a version asks.
ghost use Rattle.std.specs.Prelude.{◌≡◌, ◌↔◌, [], List, Some, OnOk, IfOk, IfSome, OnErr, IsTrue, slice_get};
ghost use Rattle.board_core.specs.Board.{Board};
ghost use Rattle.board_core.specs.Kept.{IsKept};
ghost use Rattle.board_core.specs.Key.{key_of};
ghost use Rattle.mate_facts.specs.Entries.{positions_of};
ghost use Rattle.position_places.specs.Places.{AreBoardPlacesOf, IsPlaceOrNext, IsWith};
ghost use Rattle.hand_dominance.specs.BorneOut.{IsCovered};
ghost use Rattle.dominance_places.specs.Covering.{AreBothPlacesOf, AreCoverPlacesOf, version_of};
ghost use Rattle.dominance_places.specs.Found.{IsFoundCovered};

use crate::found::{is_dominated, least_dominated};
use board_core::{Key, Position, Side};
use hand_dominance::Version;
use mate_facts::MateEntry;
use position_places::{BoardPlaces, Places};
use std::alloc::{AllocError, Global};

/// Where each position of a list stands, for whoever asks which of them cover a position, or are
/// covered by it, in a version.
#[derive(Drop)]
pub enum CoverPlaces {
    /// In version 1, where a position covers itself alone.
    Same(Places),
    /// In version 2, where it covers those that it dominates, which stand on its board; and by
    /// key, which is quicker where the position itself is listed, till memory is wanting.
    Boards(BoardPlaces, Option<Places>),
}

// The place of the position, listed in both. Where memory is wanting for the boards, the places by
// key are given up, since they have one more.
fn add_to_both(
    boards: &mut BoardPlaces,
    by_key: &mut Option<Places>,
    position: &Position,
) -> Result<usize, AllocError>
    ensures place { IfOk result (λ place. (positions : List Board)
        → AreBoardPlacesOf boards.old positions → IsPlaceOrNext positions position.now place) }
    ensures added { OnOk result ((positions longer : List Board)
        → AreBothPlacesOf boards.old by_key.old positions → IsWith positions position.now longer
        → AreBothPlacesOf boards.new by_key.new longer) }
    ensures unchanged { OnErr result ((positions : List Board)
        → AreBothPlacesOf boards.old by_key.old positions
        → AreBothPlacesOf boards.new by_key.new positions) }
{
    if let Some(places) = by_key {
        places.add(position)?;
    }
    let added = boards.add(position);
    if added.is_err() {
        *by_key = None;
    }
    added
}

impl CoverPlaces {
    /// The places of no position, for a version, with room for so many by key. Errors: want of
    /// memory alone.
    pub fn with_room(
        alloc: Global,
        version: Version,
        count: usize,
    ) -> Result<CoverPlaces, AllocError>
        ensures version { IfOk result (λ places. version_of places ≡ version) }
        ensures none { IfOk result (λ places. AreCoverPlacesOf places []) }
    {
        match version {
            Version::One => Ok(CoverPlaces::Same(Places::with_room(alloc, count)?)),
            Version::Two => Ok(CoverPlaces::Boards(
                BoardPlaces::new(alloc),
                Some(Places::with_room(alloc, count)?),
            )),
        }
    }

    /// The place of the position: where it isn't listed yet, it is listed behind the others, and
    /// its place is how many they were. Errors: want of memory alone, and then the places stay as
    /// they were.
    pub fn add(&mut self, position: &Position) -> Result<usize, AllocError>
        ensures version { version_of self.new ≡ version_of self.old }
        ensures place { IfOk result (λ place. (positions : List Board)
            → AreCoverPlacesOf self.old positions → IsPlaceOrNext positions position.now place) }
        ensures added { OnOk result ((positions longer : List Board)
            → AreCoverPlacesOf self.old positions → IsWith positions position.now longer
            → AreCoverPlacesOf self.new longer) }
        ensures unchanged { OnErr result ((positions : List Board)
            → AreCoverPlacesOf self.old positions → AreCoverPlacesOf self.new positions) }
    {
        match self {
            CoverPlaces::Same(places) => places.add(position),
            CoverPlaces::Boards(boards, by_key) => add_to_both(boards, by_key, position),
        }
    }

    /// The place of the position that has the key, where it is found by that: it isn't where it
    /// isn't listed, nor in version 2 after memory was wanting. What is listed covers itself, so
    /// whoever finds it may be spared the search for others. Takes no memory.
    pub fn find_key(&self, key: &Key) -> Option<usize>
        ensures { (positions : List Board) (position : Board)
            → AreCoverPlacesOf self.now positions → IsKept position → key.now.0 ≡ key_of position
            → IfSome result (λ place. slice_get positions place ≡ Some position) }
    {
        match self {
            CoverPlaces::Same(places) => places.find_key(key),
            CoverPlaces::Boards(_, Some(places)) => places.find_key(key),
            CoverPlaces::Boards(_, None) => None,
        }
    }

    /// The place of the entry of a mate that a position covers, for this attacker: of several that
    /// of the least rank, and of these the first; none where it covers none. `room` is working
    /// room, and what stood in it is lost. Errors: want of memory alone.
    pub fn least_covered(
        &self,
        entries: &[MateEntry],
        attacker: Side,
        position: &Position,
        room: &mut Vec<usize>,
    ) -> Result<Option<usize>, AllocError>
        requires { AreCoverPlacesOf self.now (positions_of entries.now) }
        ensures { IfOk result
            (IsFoundCovered (version_of self.now) entries.now attacker position.now) }
    {
        match self {
            CoverPlaces::Same(places) => Ok(places.find(position)),
            CoverPlaces::Boards(boards, _) => least_dominated(
                entries, boards, attacker, position, room,
            ),
        }
    }

    /// Whether one of some positions covers the position, for this attacker. `room` is working
    /// room, and what stood in it is lost. Errors: want of memory alone.
    pub fn is_covered(
        &self,
        positions: &[Position],
        attacker: Side,
        position: &Position,
        room: &mut Vec<usize>,
    ) -> Result<bool, AllocError>
        requires { AreCoverPlacesOf self.now positions.now }
        ensures { IfOk result (λ found. IsTrue found
            ↔ IsCovered (version_of self.now) positions.now attacker position.now) }
    {
        match self {
            CoverPlaces::Same(places) => Ok(places.holds(position)),
            CoverPlaces::Boards(boards, _) => is_dominated(
                positions, boards, attacker, position, room,
            ),
        }
    }
}
