// Squares, pieces and sets of squares by examples.
use crate::same::same;
use Kind::{Bishop, Gold, King, Knight, Pawn, Rook, Silver};
use Side::{Black, White};
use bit_boards::{
    Direction, Kind, Mask, Piece, Side, Square, around, between, direction_to, fits, lines,
    mask_laws, open_ray, ray, steps, steps_to,
};
use std::process::Abort;

// A square by its number: 0 is 1a, 40 is 5e, 80 is 9i.
fn square(rt: &impl Abort, number: u8) -> Square {
    Square::numbered(number).expect(rt, "a square of the board")
}

fn set(rt: &impl Abort, numbers: &[u8]) -> Mask {
    let mut mask = Mask::empty();
    for number in numbers.iter() {
        mask = mask.with(square(rt, *number));
    }
    mask
}

#[test]
fn a_ray_ends_with_the_first_occupied_square(rt: HostRuntime) {
    // From, direction, occupied; what is seen.
    let rows: [(u8, Direction, &[u8], &[u8]); 6] = [
        (36, Direction::Down, &[38], &[37, 38]),
        (36, Direction::Down, &[39, 38, 36], &[37, 38]),
        (44, Direction::Up, &[38, 36], &[43, 42, 41, 40, 39, 38]),
        (40, Direction::UpRight, &[50], &[30, 20, 10, 0]),
        (40, Direction::Left, &[80, 76, 67], &[49, 58, 67]),
        (0, Direction::Right, &[9], &[]),
    ];
    for (row, (from, direction, occupied, seen)) in rows.iter().enumerate() {
        let from = square(&rt, *from);
        let occupied = set(&rt, occupied);
        same(&rt, row, ray(from, *direction, occupied), set(&rt, seen));
    }
}

#[test]
fn the_ends_do_not_lie_between(rt: HostRuntime) {
    let rows: [(u8, u8, &[u8]); 6] = [
        (36, 39, &[37, 38]),
        (36, 47, &[]),
        (80, 40, &[50, 60, 70]),
        (8, 72, &[16, 24, 32, 40, 48, 56, 64]),
        (76, 49, &[58, 67]),
        (40, 40, &[]),
    ];
    for (row, (a, b, squares)) in rows.iter().enumerate() {
        let (a, b) = (square(&rt, *a), square(&rt, *b));
        let squares = set(&rt, squares);
        same(&rt, row, (between(a, b), between(b, a)), (squares, squares));
        let there = direction_to(a, b);
        let back = there.map(|direction| direction.opposite());
        same(&rt, row, direction_to(b, a), back);
        same(&rt, row, lines(a).contains(b), there.is_some());
        if let Some(direction) = there {
            same(&rt, row, open_ray(a, direction).contains(b), true);
        }
    }
}

#[test]
fn pieces_step_forward_for_their_side(rt: HostRuntime) {
    let rows: [(Kind, bool, Side, u8, &[u8]); 12] = [
        (Pawn, false, Black, 40, &[39]),
        (Pawn, false, White, 40, &[41]),
        (Pawn, false, Black, 36, &[]),
        (Knight, false, Black, 40, &[29, 47]),
        (Knight, false, White, 40, &[33, 51]),
        (Silver, false, Black, 40, &[30, 39, 48, 32, 50]),
        (Gold, false, White, 40, &[32, 41, 50, 31, 49, 39]),
        (Pawn, true, White, 40, &[32, 41, 50, 31, 49, 39]),
        (King, false, Black, 0, &[1, 9, 10]),
        (Bishop, true, White, 40, &[39, 41, 31, 49]),
        (Rook, true, Black, 40, &[30, 32, 48, 50]),
        (Rook, false, Black, 40, &[]),
    ];
    for (row, (kind, promoted, side, from, squares)) in rows.iter().enumerate() {
        let piece = Piece {
            kind: *kind,
            promoted: *promoted && kind.can_promote(),
            side: *side,
        };
        let from = square(&rt, *from);
        let mut to = steps(piece, from);
        same(&rt, row, to, set(&rt, squares));
        'squares: while let Some(square) = to.pop_first() {
            let back = steps_to(piece, square).contains(from);
            let near = around(square).contains(from);
            let found = (back, near, fits(piece, from, square));
            same(&rt, (row, square.number), found, (true, true, true));
        }
    }
}

#[test]
fn squares_come_in_rising_order(rt: HostRuntime) {
    let mask = set(&rt, &[80, 7, 40, 0]);
    let last = mask.last().map(|square| square.number);
    same(&rt, "whole", (mask.len(), last), (4, Some(80)));
    let mut rest = mask;
    for number in [0, 7, 40, 80] {
        let next = square(&rt, number);
        let found = (rest.first(), rest.pop_first());
        same(&rt, number, found, (Some(next), Some(next)));
        let held = (mask.contains(next), rest.contains(next));
        same(&rt, number, held, (true, false));
    }
    same(&rt, "empty", (rest.is_empty(), rest), (true, Mask::empty()));
    let found = (rest.pop_first(), rest.first(), rest.last());
    same(&rt, "empty", found, (None, None, None));
}

#[test]
fn files_and_rows_cross_in_a_square(rt: HostRuntime) {
    let five = square(&rt, 40);
    let (file, row) = (Mask::file(5), Mask::row(5));
    let rows = [
        (file.and(row), Mask::of(five)),
        (file.minus(row), file.without(five)),
        (
            Mask::full().minus(Mask::full().without(five)),
            Mask::of(five),
        ),
    ];
    for (row, (found, wanted)) in rows.into_iter().enumerate() {
        same(&rt, row, found, wanted);
    }
    let many = (file.or(row).len(), lines(five).len(), around(five).len());
    same(&rt, "many", many, (17, 32, 12));
    let place = (five.file(), five.row(), five.height(White));
    same(&rt, "place", place, (5, 5, 4));
    same(&rt, "5e", Square::on(5, 5), five);
}

#[test]
fn the_squares_of_a_set_come_in_order(rt: HostRuntime) {
    let mut squares = set(&rt, &[38, 80, 0]).squares();
    for number in [0, 38, 80] {
        same(&rt, number, squares.next(), Some(square(&rt, number)));
    }
    same(&rt, "end", squares.next(), None);
}

#[test]
fn kinds_have_a_letter_each(rt: HostRuntime) {
    mask_laws();
    for (place, kind) in Kind::ALL.into_iter().enumerate() {
        let found = (kind.place() as usize, Kind::of_letter(kind.letter()));
        same(&rt, place, found, (place, Some(kind)));
    }
    same(&rt, "X", Kind::of_letter(b'X'), None);
    let found = (Pawn.total(), King.total(), Knight.rows_needed());
    same(&rt, "totals", found, (18, 2, 2));
    for (place, direction) in Direction::ALL.into_iter().enumerate() {
        same(&rt, place, direction.place() as usize, place);
    }
}
