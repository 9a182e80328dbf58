// Who attacks a square, who stands between, and what stops an attack.
ghost use Rattle.std.specs.Prelude.{◌≡◌, ◌<◌, ◌≤◌, ◌↔◌, ℕ, IsTrue, IsSomeAnd, true};
ghost use Rattle.bit_boards.specs.declared.piece.Side.{Side};
ghost use Rattle.bit_boards.specs.declared.mask.Mask.{Mask};
ghost use Rattle.bit_boards.specs.Mask.{holds, Holds, count};
ghost use Rattle.bit_boards.specs.Movement.{fits};
ghost use Rattle.board_core.specs.Board.{piece_at};
ghost use Rattle.board_core.specs.Sets.{is_of_side};
ghost use Rattle.shogi_rules.specs.Rules.{AttacksFrom};
ghost use Rattle.attack_lines.specs.Lines.{AttacksOver, AttacksWithout, IsAttackedWithout, IsShield, StopsAll};
ghost use Rattle.attack_lines.specs.Parts.{IsOnly, KeepsOff};

use crate::reach::reached_over;
use bit_boards::{Mask, between, fits, lines, mask_laws};
use board_core::{Position, Side, Square};
use shogi_rules::candidates;

fn attacks_over(position: &Position, occupied: Mask, from: Square, to: Square, by: Side) -> bool
    ensures { IsTrue result
        ↔ AttacksOver (holds occupied) position.now.cells by from.number to.number }
{
    match position.piece_at(from) {
        Some(piece) => {
            piece.side == by && fits(piece, from, to) && between(from, to).and(occupied).is_empty()
        }
        None => false,
    }
}

// The squares from which the side's pieces reach the square, as if just these squares were
// occupied.
fn attackers_over(position: &Position, occupied: Mask, to: Square, by: Side) -> Mask
    ensures { (from : ℕ) → Holds result from
        ↔ ((from < 81) × AttacksOver (holds occupied) position.now.cells by from to.number) }
{
    let mut found = Mask::empty();
    let mut left = candidates(position, by, to);
    while let Some(from) = left.pop_first() {
        if attacks_over(position, occupied, from, to, by) {
            found = found.with(from);
        }
    }
    found
}

/// The squares from which pieces of `by` attack the square. Takes no memory. (Rules of shogi:
/// movement of the pieces.)
pub fn attackers(position: &Position, to: Square, by: Side) -> Mask
    ensures { (from : ℕ) → Holds result from
        ↔ ((from < 81) × AttacksFrom position.now.cells by from to.number) }
{
    attackers_over(position, position.all_occupied(), to, by)
}

/// How many pieces of `by` attack the square. Takes no memory. (Rules of shogi: movement of the
/// pieces.)
pub fn count_attackers(position: &Position, to: Square, by: Side) -> u8
    ensures count { (squares : Mask)
        → ((from : ℕ) → Holds squares from
        ↔ ((from < 81) × AttacksFrom position.now.cells by from to.number)) → result
        ≡ count squares }
    ensures to { result ≤ 81 }
{
    // Sets that have the same squares are one.
    mask_laws();
    attackers(position, to, by).len()
}

/// The squares from which pieces of `by` attack the square once what stands on another one hinders
/// them no more: as if it were lifted from the board, but that it attacks as before itself, where
/// it is of that side. Takes no memory. (Rules of shogi: movement of the pieces.)
pub fn attackers_without(position: &Position, lifted: Square, to: Square, by: Side) -> Mask
    ensures { (from : ℕ) → Holds result from
        ↔ ((from < 81) × AttacksWithout position.now.cells by lifted.number from to.number) }
{
    attackers_over(position, position.all_occupied().without(lifted), to, by)
}

/// Squares with pieces of a side, among them all whose piece would go to one of the squares on an
/// empty board. Takes no memory. (Rules of shogi: movement of the pieces.)
pub fn candidates_for(position: &Position, by: Side, squares: Mask) -> Mask
    ensures { (from to : ℕ) → from < 81 → Holds squares to
        → IsSomeAnd (piece_at position.now.cells from) (λ piece. (piece.side ≡ by)
        × IsTrue (fits piece from to)) → Holds result from }
{
    let mut found = Mask::empty();
    let mut left = squares;
    while let Some(to) = left.pop_first() {
        found = found.or(candidates(position, by, to));
    }
    found
}

// The squares that the side's piece on this one attacks once what stands on another one hinders it
// no more; none where no piece of that side stands there.
fn attacked_from(position: &Position, lifted: Square, from: Square, by: Side) -> Mask
    ensures { (to : ℕ) → Holds result to
        ↔ ((to < 81) × AttacksWithout position.now.cells by lifted.number from.number to) }
{
    // Every position has 81 squares, and sets hold nothing else.
    position.laws();
    mask_laws();
    match position.piece_at(from) {
        Some(piece) if piece.side == by => {
            reached_over(position.all_occupied().without(lifted), piece, from)
        }
        _ => Mask::empty(),
    }
}

/// Of these squares those that pieces of `by` attack once what stands on another square hinders
/// them no more: as [`attackers_without`] has it of each, but each piece is asked once. Takes no
/// memory. (Rules of shogi: movement of the pieces.)
pub fn attacked_without(position: &Position, lifted: Square, squares: Mask, by: Side) -> Mask
    ensures { (to : ℕ) → Holds result to
        ↔ (Holds squares to × IsAttackedWithout position.now.cells by lifted.number to) }
{
    // Sets hold nothing but squares of the board.
    mask_laws();
    let mut found = Mask::empty();
    let mut left = candidates_for(position, by, squares);
    while let Some(from) = left.pop_first() {
        found = found.or(attacked_from(position, lifted, from, by));
    }
    found.and(squares)
}

// The one square of the set; the empty set where it has none, or more than one.
fn only(mask: Mask) -> Mask
    ensures { (square : ℕ) → Holds result square ↔ IsOnly mask square }
{
    let mut left = mask;
    match left.pop_first() {
        Some(_) if left.is_empty() => mask,
        _ => Mask::empty(),
    }
}

// What alone stands between the piece and the square that it would go to; nothing where it doesn't
// go there.
fn shield(position: &Position, from: Square, to: Square) -> Mask
    ensures { (side : Side) → is_of_side side (piece_at position.now.cells from.number) ≡ true
        → (square : ℕ) → Holds result square
        ↔ KeepsOff position.now.cells side square from.number to.number }
{
    match position.piece_at(from) {
        Some(piece) if fits(piece, from, to) => only(between(from, to).and(
            position.all_occupied(),
        )),
        _ => Mask::empty(),
    }
}

/// The squares on which a piece stands that alone keeps a piece of `by` from attacking the square.
/// Takes no memory. (Rules of shogi: movement of the pieces; a pinned piece is such a one.)
pub fn shields(position: &Position, to: Square, by: Side) -> Mask
    ensures { (square : ℕ) → Holds result square ↔ IsShield position.now.cells by square to.number }
{
    // A piece that is kept off slides.
    mask_laws();
    let mut found = Mask::empty();
    let mut left = lines(to).and(position.sliders()).and(position.occupied(by));
    while let Some(from) = left.pop_first() {
        found = found.or(shield(position, from, to));
    }
    found
}

/// The squares on which a piece stops each of the attackers of a square: it takes him, or it stands
/// between. All 81 where there is no attacker. Takes no memory.
pub fn blocks(attackers: Mask, to: Square) -> Mask
    ensures { (square : ℕ) → Holds result square
        ↔ ((square < 81) × StopsAll attackers to.number square) }
{
    let mut blocks = Mask::full();
    let mut left = attackers;
    while let Some(from) = left.pop_first() {
        blocks = blocks.and(between(from, to).with(from));
    }
    blocks
}
