// Rays, and what lies between squares and on their lines.
ghost use Rattle.std.specs.Prelude.{◌≡◌, ◌<◌, ◌&&◌, ◌↔◌, ℕ, nat_lt, true, false, IsTrue, IfSome, IfNone};
ghost use Rattle.bit_boards.specs.Mask.{holds, Holds};
ghost use Rattle.bit_boards.specs.Movement.{IsBetween, share_line};
ghost use Rattle.bit_boards.specs.Direction.{LiesToward, IsSeen};
ghost use Rattle.bit_boards.specs.declared.direction.Direction.{Direction};

use crate::tables::{LINES, RAYS, TOWARD};
use crate::{Direction, Mask, Square};

/// All squares that lie in a direction from a square, to the edge.
pub fn open_ray(from: Square, direction: Direction) -> Mask
    ensures { (to : ℕ) → Holds result to ↔ LiesToward direction from.number to }
{
    Mask {
        bits: RAYS[direction.place() as usize][from.number as usize],
    }
}

/// The squares seen from a square in a direction: from the next one to the edge, up to and with the
/// first occupied one.
pub fn ray(from: Square, direction: Direction, occupied: Mask) -> Mask
    ensures { (to : ℕ) → Holds result to ↔ IsSeen occupied direction from.number to }
{
    let ahead = open_ray(from, direction);
    let met = ahead.and(occupied);
    if direction.rises() {
        ahead.up_to_first(met)
    } else {
        ahead.down_to_last(met)
    }
}

/// The direction in which a square lies from another; none where they share no file, row or
/// diagonal, or are one.
pub fn direction_to(from: Square, to: Square) -> Option<Direction>
    ensures toward { IfSome result (λ direction. LiesToward direction from.number to.number) }
    ensures none { IfNone result ((direction : Direction)
        → LiesToward direction from.number to.number → ⊥) }
{
    let files = to.number / 9 + 8 - from.number / 9;
    let rows = to.number % 9 + 8 - from.number % 9;
    TOWARD[files as usize][rows as usize]
}

/// The squares strictly between two squares on one file, row or diagonal; none where they share no
/// line.
pub fn between(a: Square, b: Square) -> Mask
    ensures { (s : ℕ) → Holds result s ↔ IsBetween a.number s b.number }
{
    match direction_to(a, b) {
        Some(direction) => open_ray(a, direction).and(open_ray(b, direction.opposite())),
        None => Mask::empty(),
    }
}

/// All squares on the file, the row and the two diagonals of a square, without the square itself:
/// those from which a piece could slide to it over an empty board.
pub fn lines(square: Square) -> Mask
    ensures { (s : ℕ) → holds result s ≡ (nat_lt s 81 && share_line square.number s) }
{
    Mask {
        bits: LINES[square.number as usize],
    }
}
