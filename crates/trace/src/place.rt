// The position that a key stands for.
ghost use Rattle.std.specs.Prelude.{◌<◌};

use board_core::{Hand, Key, Kind, Piece, Position, Side};

// The piece of a code: 1 to 14 are Black's, 15 to 28 White's. Of these 1 to 8 are the kinds in
// their order, 9 to 14 the promoted ones.
fn piece_of(code: u64) -> Option<Piece> {
    let (side, low) = if code > 14 {
        (Side::White, code - 14)
    } else {
        (Side::Black, code)
    };
    let kind = match low {
        1 | 9 => Kind::Pawn,
        2 | 10 => Kind::Lance,
        3 | 11 => Kind::Knight,
        4 | 12 => Kind::Silver,
        5 => Kind::Gold,
        6 | 13 => Kind::Bishop,
        7 | 14 => Kind::Rook,
        8 => Kind::King,
        _ => return None,
    };
    if low <= 8 {
        return Some(Piece::plain(kind, side));
    }
    if !kind.can_promote() {
        return None;
    }
    Some(Piece {
        kind,
        promoted: true,
        side,
    })
}

// What stands on a square: twelve squares have a word, and each five bits of it.
fn cell_of(key: &Key, number: usize) -> Option<Piece>
    requires { number < 81 }
{
    let word = key.0[number / 12];
    let place = (number % 12) as u32;
    piece_of((word >> (5 * place)) & 31)
}

// The hand in the 21 lowest bits.
fn hand_of(bits: u64) -> Hand {
    Hand::of([
        (bits & 31) as u8,
        ((bits >> 5) & 7) as u8,
        ((bits >> 8) & 7) as u8,
        ((bits >> 11) & 7) as u8,
        ((bits >> 14) & 7) as u8,
        ((bits >> 17) & 3) as u8,
        ((bits >> 19) & 3) as u8,
    ])
}

/// The position of a key, in the search of a problem of this attacker; none where it is the key of
/// none. The attacker may have no king, so it is built with him to move.
pub fn position_of(key: &Key, attacker: Side) -> Option<Position> {
    let mut cells = [None; 81];
    for number in 0..81 {
        cells[number] = cell_of(key, number);
    }
    let hands = key.0[7];
    let built = Position::build(&cells, hand_of(hands), hand_of(hands >> 21), attacker);
    let mut position = built.ok()?;
    let side = if hands >> 42 == 0 {
        Side::Black
    } else {
        Side::White
    };
    if side != attacker {
        position.pass();
    }
    Some(position)
}
