// Positions met by wandering: pseudo-random legal moves, some of them taken back.
use crate::letters::position;
use crate::same::same;
use board_core::{Kind, Move, Position, Side, Square};
use shogi_rules::{apply, in_check, legal};

// A step of a xorshift generator (Marsaglia 2003).
fn next(state: u64) -> u64 {
    let one = state ^ (state << 13);
    let two = one ^ (one >> 7);
    two ^ (two << 17)
}

fn square(number: u64) -> Square {
    Square {
        number: (number % 81) as u8,
    }
}

// Some move, legal or not: one in four is a drop.
fn some_move(state: u64) -> Move {
    let to = square(state >> 40);
    if state % 4 == 0 {
        let kind = Kind::IN_HAND[(state >> 8) as usize % 7];
        Move::Drop { kind, to }
    } else {
        let from = square(state >> 16);
        let promote = state >> 4 & 1 == 1;
        Move::Board { from, to, promote }
    }
}

// Whether the position's sets of squares are those of what stands on its squares.
fn sets_agree(position: &Position) -> bool {
    for number in 0..81 {
        let square = Square { number };
        let cell = position.piece_at(square);
        let kind = cell.map(|piece| piece.kind);
        let side = cell.map(|piece| piece.side);
        let plain = cell.is_some_and(|piece| !piece.promoted);
        let slides = plain && kind == Some(Kind::Lance)
            || kind == Some(Kind::Bishop)
            || kind == Some(Kind::Rook);
        if position.occupied(Side::Black).contains(square) != (side == Some(Side::Black))
            || position.occupied(Side::White).contains(square) != (side == Some(Side::White))
            || position.all_occupied().contains(square) != cell.is_some()
            || position.kings().contains(square) != (kind == Some(Kind::King))
            || position.pawns().contains(square) != (plain && kind == Some(Kind::Pawn))
            || position.sliders().contains(square) != slides
        {
            return false;
        }
    }
    true
}

// The position after a move, where it is legal.
fn moved(position: &Position, by: Move) -> Option<Position> {
    if in_check(position, position.side().other()) {
        return None;
    }
    if legal(position, by).is_err() {
        return None;
    }
    Some(apply(position, by))
}

#[test]
fn sets_of_squares_follow_thousands_of_moves_and_take_backs(rt: HostRuntime) {
    let start = "lnsgkgsnl/1r5b1/ppppppppp/9/9/9/PPPPPPPPP/1B5R1/LNSGKGSNL b -";
    let mut now = position(&rt, start);
    let mut before = now;
    let mut state: u64 = 88_172_645_463_325_252;
    let mut made: u32 = 0;
    let mut idle: u32 = 0;
    for _ in 0..2_000_000u32 {
        state = next(state);
        let by = some_move(state);
        idle = idle.wrapping_add(1);
        if let Some(after) = moved(&now, by) {
            let checked = in_check(&after, after.side().other());
            same(
                &rt,
                (made, by),
                (checked, sets_agree(&after)),
                (false, true),
            );
            made = made.wrapping_add(1);
            idle = 0;
            // One move in eight is taken back, with the one before it.
            if state >> 61 == 0 {
                now = before;
            } else {
                before = now;
                now = after;
            }
        }
        // Where no move is found the game is over, and the next one begins.
        if idle > 30_000 {
            now = position(&rt, start);
            idle = 0;
        }
    }
    same(&rt, made, made > 2_000, true);
}
