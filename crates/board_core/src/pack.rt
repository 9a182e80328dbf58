// How a position is packed into its key.
ghost use Rattle.std.specs.Prelude.{true, false, ◌≡◌, ◌<◌, ◌≤◌, ◌+◌, ◌-◌, ◌↔◌, ℕ, List, Option, IsTrue, length, take, drop, slice_set};
ghost use Rattle.bit_boards.specs.declared.piece.Piece.{Piece};
ghost use Rattle.board_core.specs.Board.{Board, piece_at};
ghost use Rattle.board_core.specs.Kept.{IsKept};
ghost use Rattle.board_core.specs.Code.{cells_of};
ghost use Rattle.board_core.specs.Key.{code_of, side_bit, packed_cells, hand_code, one_code, one_in_hand, hands_word, key_of};

use crate::code::Code;
use crate::coding::Codes;
use crate::{Hand, Key, Kind, Piece, Position, Side};

// The code of what a square holds.
fn code(cell: Option<Piece>) -> u64
    ensures code { result ≡ code_of cell }
    ensures small { result < 32 }
{
    u64::from(Code::of(cell).number)
}

// The code of what a square holds, by its number.
fn code_at(codes: &Codes, square: usize) -> u64
    requires { square < 81 }
    ensures code { result ≡ code_of (piece_at (cells_of codes.now) square) }
    ensures small { result < 32 }
{
    u64::from(codes[square].number)
}

// The squares from one on and before another in a word, at most twelve: five bits for each, the
// first in the lowest.
fn word(codes: &Codes, from: usize, to: usize) -> u64
    requires from { from ≤ to }
    requires to { to ≤ 81 }
    requires twelve { to - from ≤ 12 }
    ensures { result ≡ packed_cells (take (to - from) (drop from (cells_of codes.now))) }
{
    let mut word = 0;
    for step in 0..to - from {
        word = code_at(codes, to - 1 - step) + (word << 5);
    }
    word
}

// The word of at most twelve squares once one of them, by its place in the word, holds something
// else.
pub(crate) fn changed_word(word: u64, place: u8, taken: Option<Piece>, put: Option<Piece>) -> u64
    requires { place < 12 }
    ensures { (cells : List (Option Piece)) → length cells ≤ 12 → place < length cells → word
        ≡ packed_cells cells → piece_at cells place ≡ taken → result
        ≡ packed_cells (slice_set cells place put) }
{
    let lowest = 5 * place;
    word.wrapping_add(code(put) << lowest)
        .wrapping_sub(code(taken) << lowest)
}

// What one of a kind in hand adds to a hand's bits: the lowest of the kind's. A king is in no hand.
fn one_code(kind: Kind) -> u64
    ensures code { result ≡ one_code kind }
    ensures small { result ≤ 524288 }
{
    match kind {
        Kind::Pawn => 1,
        Kind::Lance => 1 << 5,
        Kind::Knight => 1 << 8,
        Kind::Silver => 1 << 11,
        Kind::Gold => 1 << 14,
        Kind::Bishop => 1 << 17,
        Kind::Rook => 1 << 19,
        Kind::King => 0,
    }
}

// What one of a kind in a side's hand adds to the word of the hands.
pub(crate) fn one_in_hand(side: Side, kind: Kind) -> u64
    ensures { result ≡ one_in_hand side kind }
{
    match side {
        Side::Black => one_code(kind),
        Side::White => one_code(kind) << 21,
    }
}

// A hand in 21 bits.
fn hand_bits(hand: Hand) -> u64
    ensures code { result ≡ hand_code hand }
    ensures small { result < 1073741824 }
{
    let majors = u64::from(hand.count(Kind::Bishop)) + (u64::from(hand.count(Kind::Rook)) << 2);
    let golds = u64::from(hand.count(Kind::Gold)) + (majors << 3);
    let silvers = u64::from(hand.count(Kind::Silver)) + (golds << 3);
    let knights = u64::from(hand.count(Kind::Knight)) + (silvers << 3);
    let lances = u64::from(hand.count(Kind::Lance)) + (knights << 3);
    u64::from(hand.count(Kind::Pawn)) + (lances << 5)
}

// 1 where White is to move.
fn side_bit(side: Side) -> u64
    ensures bit { result ≡ side_bit side }
    ensures small { result ≤ 1 }
{
    match side {
        Side::Black => 0,
        Side::White => 1,
    }
}

/// The key of a position. No two positions have one key. Takes no memory, and looks at each square
/// once.
///
/// Word `s / 12` of the eight (0 to 6) holds square `s` in the five bits from bit `5 * (s % 12)`: 0
/// for an empty square, 1 to 8 for Black's pawn, lance, knight, silver, gold, bishop, rook and
/// king, 9 to 14 for its promoted pawn, lance, knight, silver, bishop and rook, and 14 more for
/// White's. Word 7 holds Black's hand from bit 0, White's from bit 21, and in bit 42 whether White
/// is to move. A hand is, from its first bit, pawns in 5 bits, lances, knights, silvers and golds
/// in 3 each, bishops and rooks in 2 each. All other bits are 0.
pub fn key(position: &Position) -> Key
    ensures words { result.0 ≡ key_of position.now }
    ensures kept { IsKept position.now }
    ensures injective { (b : Board) → IsKept b → key_of b ≡ result.0 → b ≡ position.now }
{
    let codes = position.codes();
    Key([
        word(codes, 0, 12),
        word(codes, 12, 24),
        word(codes, 24, 36),
        word(codes, 36, 48),
        word(codes, 48, 60),
        word(codes, 60, 72),
        word(codes, 72, 81),
        hands_and_side(position),
    ])
}

/// Whether two positions have one key: exactly where they are one position. Takes no memory.
pub fn same_key(one: &Position, two: &Position) -> bool
    ensures { IsTrue result ↔ (one.now ≡ two.now) }
{
    key(one) == key(two)
}

// The two hands and the side to move in a word.
fn hands_and_side(position: &Position) -> u64
    ensures { result ≡ hands_word position.now }
{
    let white = hand_bits(position.hand(Side::White)) + (side_bit(position.side()) << 21);
    hand_bits(position.hand(Side::Black)) + (white << 21)
}
