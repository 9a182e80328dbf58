// Finding by dominance.
ghost use Rattle.std.specs.Prelude.{◌≡◌, ◌↔◌, List, IfOk, IsTrue};
ghost use Rattle.board_core.specs.Board.{Board};
ghost use Rattle.mate_facts.specs.Entries.{positions_of};
ghost use Rattle.position_places.specs.Places.{AreBoardPlacesOf};
ghost use Rattle.hand_dominance.specs.declared.version.Version.TheVariants.{Two};
ghost use Rattle.hand_dominance.specs.BorneOut.{IsCovered};
ghost use Rattle.dominance_places.specs.Found.{IsFoundCovered};
ghost use Rattle.dominance_places.specs.Best.{IsBetter};

use crate::hands::has_better_hands;
use board_core::{Position, Side};
use mate_facts::MateEntry;
use position_places::BoardPlaces;
use std::alloc::AllocError;

// The entry found so far: where it stands, and its rank.
#[derive(Clone, Copy)]
struct Best {
    place: usize,
    rank: u32,
}

// The better of the one so far and an entry that the position dominates, and that stands behind it:
// that one only where its rank is less.
fn better(best: Option<Best>, next: Best) -> Best
    ensures { IsBetter best next result }
{
    match best {
        None => next,
        Some(first) => { if next.rank < first.rank { next } else { first } }
    }
}

/// The place of the entry of a mate that a position dominates, for this attacker: of several that
/// of the least rank, and of these the first; none where it dominates none. `boards` finds the
/// places of the entries' positions, of which none stands twice; `places` is working room, and what
/// stood in it is lost. Errors: want of memory alone.
pub fn least_dominated(
    entries: &[MateEntry],
    boards: &BoardPlaces,
    attacker: Side,
    position: &Position,
    places: &mut Vec<usize>,
) -> Result<Option<usize>, AllocError>
    requires { AreBoardPlacesOf boards.now (positions_of entries.now) }
    ensures { IfOk result (IsFoundCovered Two entries.now attacker position.now) }
{
    boards.on_board(position, places)?;
    let mut best = None;
    for place in places.as_slice() {
        let entry = &entries[*place];
        if has_better_hands(attacker, position, &entry.at) {
            let next = Best {
                place: *place,
                rank: entry.rank.number,
            };
            best = Some(better(best, next));
        }
    }
    match best {
        None => Ok(None),
        Some(best) => Ok(Some(best.place)),
    }
}

/// Whether one of some positions dominates the position, for this attacker. `boards` finds the
/// places of the positions, of which none stands twice; `places` is working room, and what stood in
/// it is lost. Errors: want of memory alone.
pub fn is_dominated(
    positions: &[Position],
    boards: &BoardPlaces,
    attacker: Side,
    position: &Position,
    places: &mut Vec<usize>,
) -> Result<bool, AllocError>
    requires { AreBoardPlacesOf boards.now positions.now }
    ensures { IfOk result (λ found. IsTrue found
        ↔ IsCovered Two positions.now attacker position.now) }
{
    boards.on_board(position, places)?;
    for place in places.as_slice() {
        if has_better_hands(attacker, &positions[*place], position) {
            return Ok(true);
        }
    }
    Ok(false)
}
