// The problem of a number.
ghost use Rattle.std.specs.Prelude.{◌≡◌, ◌≢◌, ◌≤◌, ◌<◌, ◌+◌, ◌⊎◌, ℕ, replicate};
ghost use Rattle.bit_boards.specs.declared.piece.Kind.{Kind};
ghost use Rattle.bit_boards.specs.declared.piece.Kind.TheVariants.{Pawn, Lance, Knight, Silver, Gold, Bishop, Rook, King};
ghost use Rattle.bit_boards.specs.declared.piece.Side.TheVariants.{Black, White};
ghost use Rattle.bit_boards.specs.Kind.{total_of, same_kind};
ghost use Rattle.board_core.specs.Board.{Board, count_of, kings_of, one_if};
ghost use Rattle.problem_gen.specs.Generator.{king_file, king_row, king_square, black_piece, white_piece, first_in_hand, second_in_hand, king_alone, with_held, IsGenerated, IsUnderWay, kinds_of, count_among};

use crate::drawn::Drawn;
use crate::draws::{draw, pick};
use crate::putting::put;
use board_core::{Hand, Kind, Piece, Position, Side, Square};
use shogi_rules::Problem;

fn king_file(number: u64) -> u8
    ensures file { result ≡ king_file number }
    ensures from { 1 ≤ result }
    ensures to { result ≤ 9 }
{
    1 + draw(number, 1, 9)
}

fn king_row(number: u64) -> u8
    ensures row { result ≡ king_row number }
    ensures from { 1 ≤ result }
    ensures to { result ≤ 3 }
{
    1 + draw(number, 2, 3)
}

// White's king alone on the board, Black to move.
fn king_alone(king: Square) -> Position
    ensures position { result ≡ king_alone king.number }
    ensures under_way { IsUnderWay king.number result }
    ensures counts { (k : Kind) → count_of result k ≡ one_if (same_kind King k) }
{
    let mut cells = [None; 81];
    cells[king.number as usize] = Some(Piece::plain(Kind::King, Side::White));
    match Position::build(&cells, Hand::empty(), Hand::empty(), Side::Black) {
        Ok(position) => position,
        Err(_) => unreachable!(),
    }
}

// The Black piece of the three draws behind so many.
fn black_piece(number: u64, before: u8) -> Drawn
    requires { before ≤ 10 }
    ensures drawn { result ≡ black_piece number before }
    ensures kind { (result.kind ≡ Silver) ⊎ ((result.kind ≡ Lance) ⊎ (result.kind ≡ Pawn)) }
    ensures row_from { 1 ≤ result.row }
    ensures row_to { result.row ≤ 9 }
{
    Drawn {
        kind: pick(
            Kind::Silver,
            Kind::Lance,
            Kind::Pawn,
            draw(number, before + 1, 3),
        ),
        side: Side::Black,
        file_and_two: king_file(number) + draw(number, before + 2, 5),
        row: king_row(number) + 1 + draw(number, before + 3, 3),
    }
}

fn first_in_hand(number: u64) -> Kind
    ensures drawn { result ≡ first_in_hand number }
    ensures kind { (result ≡ Gold) ⊎ ((result ≡ Knight) ⊎ (result ≡ Rook)) }
{
    pick(Kind::Gold, Kind::Knight, Kind::Rook, draw(number, 9, 3))
}

fn second_in_hand(number: u64) -> Kind
    ensures drawn { result ≡ second_in_hand number }
    ensures kind { (result ≡ Bishop) ⊎ ((result ≡ Silver) ⊎ (result ≡ Gold)) }
{
    pick(Kind::Bishop, Kind::Silver, Kind::Gold, draw(number, 10, 3))
}

// The White piece of the last three draws.
fn white_piece(number: u64) -> Drawn
    ensures drawn { result ≡ white_piece number }
    ensures kind { (result.kind ≡ Gold) ⊎ (result.kind ≡ Pawn) }
    ensures row_from { 1 ≤ result.row }
    ensures row_to { result.row ≤ 9 }
{
    Drawn {
        kind: if draw(number, 11, 2) == 0 {
            Kind::Gold
        } else {
            Kind::Pawn
        },
        side: Side::White,
        file_and_two: king_file(number) + draw(number, 12, 5),
        row: king_row(number) + draw(number, 13, 3),
    }
}

// Gives Black one more of a kind.
fn give(position: &mut Position, king: Square, kind: Kind)
    requires under_way { IsUnderWay king.number position.old }
    requires left_over { count_of position.old kind < total_of kind }
    requires no_king { kind ≢ King }
    ensures held { position.new ≡ with_held position.old Black kind }
    ensures under_way { IsUnderWay king.number position.new }
    ensures counts { (k : Kind) → count_of position.new k
        ≡ count_of position.old k + one_if (same_kind kind k) }
{
    position.gain(Side::Black, kind);
}

/// The problem of a number: White's king on one of the three upper rows, two Black pieces near it,
/// two more in Black's hand, and a White piece; Black, the attacker, is to move. Every number has
/// one, and numbers that differ by 2,147,483,646 have the same. Whether it has a mate isn't known.
/// Takes no memory.
pub fn problem_of(number: u64) -> Problem
    // It is the board of the number, and there is no other.
    ensures generated { IsGenerated number result.position }
    ensures only { (b : Board) → IsGenerated number b → b ≡ result.position }

    // It is an attacker's problem: Black is to move, and White has the only king.
    ensures turn { result.position.side ≡ Black }
    ensures defender { kings_of result.position White ≡ 1 }
    ensures attacker { kings_of result.position Black ≡ 0 }

    // Each piece that is drawn is on the board or in a hand, and there is no other.
    ensures pieces { (k : Kind) → count_of result.position k ≡ count_among (kinds_of number) k }
{
    let king = Square::on(king_file(number), king_row(number));
    let mut position = king_alone(king);
    put(&mut position, king, &black_piece(number, 2));
    put(&mut position, king, &black_piece(number, 5));
    give(&mut position, king, first_in_hand(number));
    give(&mut position, king, second_in_hand(number));
    put(&mut position, king, &white_piece(number));
    Problem { position }
}
