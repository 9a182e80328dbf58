// What the rules of shogi say of positions and of the order of moves, by examples.
use crate::same::same;
use BadPosition::{DeadPiece, NoDefenderKing, TooMany, TwoKings, TwoPawns};
use Kind::{Bishop, Gold, Knight, Lance, Pawn, Rook, Silver};
use Side::{Black, White};
use board_core::{
    BadPosition, Hand, Key, Kind, Move, Piece, Position, Side, Square, key, rest, same_key,
};
use std::process::Abort;
use std::test::Fail;

const NONE: [u8; 7] = [0; 7];

const HALF: [u8; 7] = [9, 2, 2, 2, 2, 1, 1];

const ALL: [u8; 7] = [18, 4, 4, 4, 4, 2, 2];

const SOME: [u8; 7] = [10, 4, 0, 4, 1, 1, 0];

const OTHERS: [u8; 7] = [8, 0, 4, 0, 3, 0, 1];

const ONE_FILE: &str = "k5a +P1a +P1b +p1c +P1d +p1e +P1f +P1g +p1h +p1i";

// A piece and its square by a word as `+P5c`: a letter, capital for Black and behind a `+` where it
// is promoted, and the square.
fn placed(word: &str) -> Option<(Piece, Square)> {
    let plain = word.strip_prefix("+").unwrap_or(word).as_bytes();
    let [letter, file, row] = plain else {
        return None;
    };
    let (file, row) = (file.wrapping_sub(b'0'), row.wrapping_sub(b'`'));
    if file < 1 || 9 < file || row < 1 || 9 < row {
        return None;
    }
    let kind = Kind::of_letter(letter.to_ascii_uppercase())?;
    let piece = Piece {
        kind,
        promoted: plain.len() < word.len() && kind.can_promote(),
        side: if letter.is_ascii_uppercase() {
            Black
        } else {
            White
        },
    };
    Some((piece, Square::on(file, row)))
}

fn cells_of(rt: &impl Abort, pieces: &str) -> [Option<Piece>; 81] {
    let mut cells = [None; 81];
    for word in pieces.split_whitespace() {
        let (piece, square) = placed(word).expect(rt, word);
        cells[square.number as usize] = Some(piece);
    }
    cells
}

// Whether the position holds these cells.
fn stands_as(position: &Position, cells: &[Option<Piece>; 81]) -> bool {
    for number in 0..81 {
        if position.piece_at(Square { number }) != cells[number as usize] {
            return false;
        }
    }
    true
}

// What stands on the board, the two hands, and who moves.
type Stand<'a> = (&'a str, [u8; 7], [u8; 7], Side);

fn built(rt: &impl Abort, (pieces, black, white, side): &Stand) -> Result<Position, BadPosition> {
    let cells = cells_of(rt, pieces);
    Position::build(&cells, Hand::of(*black), Hand::of(*white), *side)
}

fn stand(rt: &impl Abort, row: &Stand) -> Position {
    built(rt, row).expect(rt, row.0)
}

#[test]
fn the_first_kind_with_too_many_is_named(rt: HostRuntime) {
    // Before a king that isn't there, too.
    for (pieces, black, white, kind) in [
        ("", [19, 0, 0, 0, 0, 0, 0], NONE, Pawn),
        ("P5c", [9, 0, 0, 0, 0, 0, 0], [9, 0, 0, 0, 0, 0, 0], Pawn),
        ("+p5c", [18, 0, 0, 0, 0, 0, 0], NONE, Pawn),
        ("", [0, 5, 5, 0, 0, 0, 3], NONE, Lance),
        ("", NONE, [0, 0, 5, 5, 5, 3, 3], Knight),
        ("", [0, 0, 0, 2, 3, 0, 0], [0, 0, 0, 3, 2, 0, 0], Silver),
        ("k5a", [0, 0, 0, 0, 5, 3, 3], NONE, Gold),
        ("+b5e +B5f", [0, 0, 0, 0, 0, 1, 0], NONE, Bishop),
        ("+r5e R5f", NONE, [0, 0, 0, 0, 0, 0, 1], Rook),
    ] {
        let built = built(&rt, &(pieces, black, white, Black));
        same(&rt, pieces, built.err(), Some(TooMany(kind)));
    }
}

#[test]
fn a_fault_of_the_pieces_is_named_in_order(rt: HostRuntime) {
    for (pieces, side, fault) in [
        // The side that isn't to move has no king: before two kings, a dead piece and two pawns.
        ("", Black, NoDefenderKing),
        ("k5a P1a", White, NoDefenderKing),
        ("K5i K5h", Black, NoDefenderKing),
        // Two kings, of either side: before a dead piece and two pawns.
        ("K5i K5h P1a", White, TwoKings),
        ("k5a k5b P3c P3d", Black, TwoKings),
        // The first piece that could never move again, before two pawns.
        ("k5a P9a l1i", Black, DeadPiece(Square { number: 8 })),
        ("k5a P3c P3d L9a", Black, DeadPiece(Square { number: 72 })),
        ("k5a N1b", Black, DeadPiece(Square { number: 1 })),
        ("k5a N1a", Black, DeadPiece(Square { number: 0 })),
        ("k5a n2h", Black, DeadPiece(Square { number: 16 })),
        ("k5a n2i", Black, DeadPiece(Square { number: 17 })),
        ("k5a p9i", Black, DeadPiece(Square { number: 80 })),
        // The first file with two unpromoted pawns of a side.
        ("k5a P9c P9e p2c p2g", Black, TwoPawns(2)),
        ("k5a +p1h p1b p1g", Black, TwoPawns(1)),
        ("k5a P9b P9i", Black, TwoPawns(9)),
    ] {
        let built = built(&rt, &(pieces, NONE, NONE, side));
        same(&rt, pieces, built.err(), Some(fault));
    }
}

#[test]
fn what_may_stand_stands(rt: HostRuntime) {
    for (pieces, black, white, side) in [
        // One king, of the side that isn't to move, and nothing else; then everything else in hand.
        ("k5a", NONE, NONE, Black),
        ("K5i", NONE, NONE, White),
        ("k5a", ALL, NONE, Black),
        ("k5a K5i", HALF, HALF, Black),
        ("k5a +b5c R5d", SOME, OTHERS, Black),
        // A promoted pawn on each row of one file; an unpromoted one among promoted ones; one of
        // each side.
        (ONE_FILE, NONE, NONE, Black),
        ("k5a P7e +P7c +P7g", NONE, NONE, Black),
        ("k5a P7e p7c", NONE, NONE, Black),
        // One pawn on a file beside another on the next one.
        ("k5a P1i P2b", NONE, NONE, Black),
        // As far ahead as each may stand, and on the rows where the other side's couldn't; promoted
        // ones anywhere.
        ("k5a P1b L2b N3c", NONE, NONE, Black),
        ("k5a p1h l2h n3g", NONE, NONE, Black),
        ("k5a P1i L2i N3i", NONE, NONE, Black),
        ("k5a p1a l2a n3a", NONE, NONE, Black),
        ("k5a +L1a +N2a +l3i +n4i", NONE, NONE, Black),
        // A silver, a gold, a bishop and a rook may stand on the last row.
        ("k5a S1a G2a B3a R4a", NONE, NONE, Black),
    ] {
        let position = stand(&rt, &(pieces, black, white, side));
        let hands = (position.hand(Black), position.hand(White));
        same(&rt, pieces, hands, (Hand::of(black), Hand::of(white)));
        let stands = stands_as(&position, &cells_of(&rt, pieces));
        same(&rt, pieces, (position.side(), stands), (side, true));
    }
}

#[test]
fn kings_are_found_and_positions_compared(rt: HostRuntime) -> Result<(), Fail> {
    let cells = cells_of(&rt, "k5a G5c");
    let empty = Hand::empty();
    let one = Position::build(&cells, empty, empty, Black)?;
    let two = Position::build(&cells, empty, Hand::of([0, 0, 0, 0, 1, 0, 0]), Black)?;
    let kings = (one.king_square(White), one.king_square(Black));
    same(&rt, "kings", kings, (Some(Square::on(5, 1)), None));
    let again = Position::build(&cells, empty, empty, Black)?;
    let found = (one.is_same(&again), one.is_same(&two));
    same(&rt, "compared", found, (true, false));
    Ok(())
}

#[test]
fn moves_sort_into_their_order(rt: HostRuntime) -> Result<(), Fail> {
    let (low, high) = (Square::on(1, 9), Square::on(2, 1));
    let board = |from, to, promote| Move::Board { from, to, promote };
    let drop = |kind, to| Move::Drop { kind, to };
    let want = [
        board(low, low, false),
        board(low, high, false),
        board(low, high, true),
        board(high, low, false),
        drop(Pawn, low),
        drop(Pawn, high),
        drop(Lance, low),
        drop(Rook, low),
    ];
    let mut moves = vec![in rt.alloc();
        want[7], want[3], want[5], want[2], want[6], want[0], want[4], want[1],
    ]?;
    moves.sort()?;
    same(&rt, "sorted", moves.as_slice(), want.as_slice());
    Ok(())
}

const GOLD: [u8; 7] = [0, 0, 0, 0, 1, 0, 0];

const ALL_BUT_ONE: [u8; 7] = [17, 4, 4, 4, 4, 2, 2];

const FACING: &str = "k5a P5c";

const TURNED: &str = "k5a +P5c";

const KINGS: &str = "k5a P5c K5i";

const MANY: &str = "k5a L1c +r9a +b9i g1i +N2d s3e +l4f";

#[test]
fn a_key_is_as_laid_out(rt: HostRuntime) {
    let rows: [(Stand, [u64; 8]); 4] = [
        ((FACING, GOLD, NONE, Black), [0, 0, 0, 1046, 0, 0, 0, 16384]),
        ((TURNED, GOLD, NONE, Black), [0, 0, 0, 9238, 0, 0, 0, 16384]),
        (
            (KINGS, GOLD, GOLD, White),
            [0, 0, 0, 8796093023254, 0, 0, 0, 4432406265856],
        ),
        (
            (MANY, [9, 1, 2, 3, 0, 1, 0], [9, 0, 1, 0, 2, 0, 1], Black),
            [
                20890720929792,
                20266198323167243,
                26388279066624,
                22,
                0,
                0,
                29686813949980,
                1168786987561,
            ],
        ),
    ];
    for (row, (position, words)) in rows.iter().enumerate() {
        same(&rt, row, key(&stand(&rt, position)), Key(*words));
    }
}

#[test]
fn no_two_positions_have_one_key(rt: HostRuntime) {
    let positions: [Stand; 6] = [
        (KINGS, GOLD, NONE, Black),
        (KINGS, GOLD, NONE, White),
        (KINGS, GOLD, GOLD, Black),
        (KINGS, NONE, GOLD, Black),
        (FACING, GOLD, NONE, Black),
        (TURNED, GOLD, NONE, Black),
    ];
    for (row, one) in positions.iter().enumerate() {
        for (column, two) in positions.iter().enumerate() {
            let found = same_key(&stand(&rt, one), &stand(&rt, two));
            same(&rt, (row, column), found, row == column);
        }
    }
}

#[test]
fn the_rest_is_in_the_defenders_hand(rt: HostRuntime) {
    let rows: [(Stand, [u8; 7], [u8; 7]); 4] = [
        ((FACING, GOLD, NONE, Black), GOLD, [17, 4, 4, 4, 3, 2, 2]),
        (
            (TURNED, GOLD, [2, 0, 0, 0, 0, 0, 1], Black),
            GOLD,
            [17, 4, 4, 4, 3, 2, 2],
        ),
        (
            (KINGS, [1, 0, 0, 0, 0, 0, 0], GOLD, White),
            [17, 4, 4, 4, 3, 2, 2],
            GOLD,
        ),
        ((KINGS, NONE, ALL_BUT_ONE, Black), NONE, ALL_BUT_ONE),
    ];
    for (row, (given, black, white)) in rows.iter().enumerate() {
        let before = stand(&rt, given);
        let after = rest(&before);
        let hands = (after.hand(Black), after.hand(White));
        same(&rt, row, hands, (Hand::of(*black), Hand::of(*white)));
        let stands = stands_as(&after, &cells_of(&rt, given.0));
        same(&rt, row, (after.side(), stands), (before.side(), true));
    }
}
