// What of a mate's entries the position after a move covers.
ghost use Rattle.std.specs.Prelude.{◌≡◌, ◌<◌, IfOk, IfSome, length};
ghost use Rattle.board_core.specs.Key.{key_of};
ghost use Rattle.shogi_rules.specs.Rules.{IsLegal, IsQuiet, after};
ghost use Rattle.mate_facts.specs.Entries.{positions_of};
ghost use Rattle.dominance_places.specs.Covering.{AreCoverPlacesOf, version_of};
ghost use Rattle.cert_check.specs.Reached.{IsFoundFor};

use board_core::{Key, Move, Position, Side};
use dominance_places::CoverPlaces;
use hand_dominance::listing_laws;
use mate_facts::MateEntry;
use shogi_rules::{apply, key_after};
use std::alloc::AllocError;

/// The place of an entry of a mate that the position after a legal move covers: of one of lower
/// rank than this, where there is such a one, else of the least; none where it covers none. Where
/// the position itself is listed with a lower rank, it isn't made: its key, by that of the position
/// before the move, is enough to find it. `room` is working room, and what stood in it is lost.
/// Errors: want of memory alone.
pub(crate) fn covered_after(
    places: &CoverPlaces,
    entries: &[MateEntry],
    attacker: Side,
    rank: u32,
    before: &Position,
    known: &Key,
    by: Move,
    room: &mut Vec<usize>,
) -> Result<Option<usize>, AllocError>
    requires places { AreCoverPlacesOf places.now (positions_of entries.now) }
    requires quiet { IsQuiet before.now }
    requires legal { IsLegal before.now by }
    requires key { known.now.0 ≡ key_of before.now }
    ensures found { IfOk result
        (IsFoundFor (version_of places.now) entries.now attacker rank (after before.now by)) }
    ensures within { IfOk result (λ found. IfSome found (λ place. place < length entries.now)) }
{
    // What is listed covers itself.
    listing_laws();
    if let Some(place) = places.find_key(&key_after(before, known, by)) {
        if entries[place].rank.number < rank {
            return Ok(Some(place));
        }
    }
    places.least_covered(entries, attacker, &apply(before, by), room)
}
