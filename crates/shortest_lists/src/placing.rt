// Where the positions that are listed stand.
ghost use Rattle.std.specs.Prelude.{◌≡◌, List, IfOk, IfErr, length};
ghost use Rattle.board_core.specs.Board.{Board};
ghost use Rattle.position_places.specs.Places.{ArePlacesOf};
ghost use Rattle.shortest_lists.specs.Placing.{IsPlaced, HasNoPlace};

use crate::ListEnd;
use board_core::Position;
use position_places::Places;

/// Puts a position behind the others, where it is new and these aren't `most` already: whether it
/// was new.
pub(crate) fn takes_place(
    places: &mut Places,
    count: usize,
    position: &Position,
    most: usize,
) -> Result<bool, ListEnd>
    ensures placed { IfOk result (λ new. (positions : List Board)
        → ArePlacesOf places.old positions → length positions ≡ count
        → IsPlaced places.new positions position.now most new) }
    ensures no_place { IfErr result (λ end. (positions : List Board)
        → ArePlacesOf places.old positions → length positions ≡ count
        → HasNoPlace positions position.now most end) }
{
    if places.add(position)? < count {
        return Ok(false);
    }
    if count >= most {
        return Err(ListEnd::TooMany);
    }
    Ok(true)
}
