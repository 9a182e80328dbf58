// How far pieces reach, and from where they reach a square.
ghost use Rattle.std.specs.Prelude.{◌≡◌, ◌<◌, ◌↔◌, ℕ, List, Option};
ghost use Rattle.bit_boards.specs.Mask.{Holds};
ghost use Rattle.bit_boards.specs.declared.piece.Piece.{Piece};
ghost use Rattle.shogi_rules.specs.Rules.{Reaches};
ghost use Rattle.attack_lines.specs.Lines.{IsSeenOver, IsSeenStraight, IsSeenDiagonal, IsSightOf};
ghost use Rattle.attack_lines.specs.Parts.{ahead_of, AreOccupied, SlidesTo};

use crate::sight::Sight;
use bit_boards::{Direction, Mask, mask_laws, open_ray, ray, steps, steps_to};
use board_core::{Kind, Piece, Position, Side, Square};

// The squares seen from the square in the direction, where just these squares are occupied.
fn seen(occupied: Mask, from: Square, direction: Direction) -> Mask
    ensures { (cells : List (Option Piece)) → AreOccupied occupied cells → (to : ℕ)
        → Holds result to ↔ IsSeenOver cells direction from.number to }
{
    ray(from, direction, occupied)
}

fn straight(occupied: Mask, from: Square) -> Mask
    ensures { (cells : List (Option Piece)) → AreOccupied occupied cells → (to : ℕ)
        → Holds result to ↔ IsSeenStraight cells from.number to }
{
    let upright = seen(occupied, from, Direction::Up).or(seen(occupied, from, Direction::Down));
    let across = seen(occupied, from, Direction::Left).or(seen(occupied, from, Direction::Right));
    upright.or(across)
}

fn diagonal(occupied: Mask, from: Square) -> Mask
    ensures { (cells : List (Option Piece)) → AreOccupied occupied cells → (to : ℕ)
        → Holds result to ↔ IsSeenDiagonal cells from.number to }
{
    let rising = seen(occupied, from, Direction::UpRight).or(seen(
        occupied,
        from,
        Direction::DownLeft,
    ));
    let falling = seen(occupied, from, Direction::UpLeft).or(seen(
        occupied,
        from,
        Direction::DownRight,
    ));
    rising.or(falling)
}

// Where the side's lances go.
fn ahead(side: Side) -> Direction
    ensures { result ≡ ahead_of side }
{
    match side {
        Side::Black => Direction::Up,
        Side::White => Direction::Down,
    }
}

// The squares to which the piece slides from a square, where just these squares are occupied.
fn slides(occupied: Mask, piece: Piece, from: Square) -> Mask
    ensures { (cells : List (Option Piece)) → AreOccupied occupied cells → (to : ℕ)
        → Holds result to ↔ ((to < 81) × SlidesTo cells piece from.number to) }
{
    match (piece.kind, piece.promoted) {
        (Kind::Lance, false) => seen(occupied, from, ahead(piece.side)),
        (Kind::Bishop, _) => diagonal(occupied, from),
        (Kind::Rook, _) => straight(occupied, from),
        _ => Mask::empty(),
    }
}

// The squares that the piece reaches from a square, where just these squares are occupied.
pub(crate) fn reached_over(occupied: Mask, piece: Piece, from: Square) -> Mask
    ensures { (cells : List (Option Piece)) → AreOccupied occupied cells → (to : ℕ)
        → Holds result to ↔ ((to < 81) × Reaches cells piece from.number to) }
{
    // No square lies between those of a step.
    mask_laws();
    steps(piece, from).or(slides(occupied, piece, from))
}

/// The squares that the piece reaches from a square by one step or slide, whatever stands there.
/// Takes no memory. (Rules of shogi: movement of the pieces.)
pub fn reached(position: &Position, piece: Piece, from: Square) -> Mask
    ensures { (to : ℕ) → Holds result to
        ↔ ((to < 81) × Reaches position.now.cells piece from.number to) }
{
    reached_over(position.all_occupied(), piece, from)
}

impl Sight {
    /// What is seen from the square. Takes no memory.
    pub fn of(position: &Position, square: Square) -> Sight
        ensures square { result.square ≡ square }
        ensures sight { IsSightOf position.now.cells result }
    {
        Sight {
            square,
            straight: straight(position.all_occupied(), square),
            diagonal: diagonal(position.all_occupied(), square),
        }
    }

    /// The square that it is seen from.
    pub fn square(self) -> Square
        ensures { result ≡ self.square }
    {
        self.square
    }

    // The squares from which the piece slides to the square.
    fn slid_from(self, piece: Piece) -> Mask
        ensures { (cells : List (Option Piece)) → IsSightOf cells self → (from : ℕ)
            → Holds result from ↔ ((from < 81) × SlidesTo cells piece from self.square.number) }
    {
        match (piece.kind, piece.promoted) {
            (Kind::Lance, false) => self
                .straight
                .and(open_ray(self.square, ahead(piece.side.other()))),
            (Kind::Bishop, _) => self.diagonal,
            (Kind::Rook, _) => self.straight,
            _ => Mask::empty(),
        }
    }

    /// The squares from which the piece reaches the square by one step or slide. Takes no memory.
    /// (Rules of shogi: movement of the pieces.)
    pub fn reached_from(self, piece: Piece) -> Mask
        ensures { (cells : List (Option Piece)) → IsSightOf cells self → (from : ℕ)
            → Holds result from ↔ ((from < 81) × Reaches cells piece from self.square.number) }
    {
        // No square lies between those of a step.
        mask_laws();
        steps_to(piece, self.square).or(self.slid_from(piece))
    }
}
