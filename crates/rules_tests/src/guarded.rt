// Where pieces may go and be dropped, by examples, from the rules of shogi.
use crate::letters::{named, set, standing};
use crate::same::same;
use board_core::{Hand, Kind, Position};
use legal_moves::{Guard, Landings};
use shogi_rules::in_check;
use std::process::Abort;

// Black is to move, with a pawn and a gold in hand.
fn position(rt: &impl Abort, pieces: &str) -> Position {
    standing(rt, pieces, Hand::of([1, 0, 0, 0, 1, 0, 0]))
}

#[test]
fn a_piece_goes_where_its_king_is_safe(rt: HostRuntime) {
    // Pieces, a square; where its piece may go, and where it may be promoted.
    let rows = [
        // A silver back out of the last rows.
        ("K9i S5c k1a", "5c", "5b 4b 6b 4d 6d", "5b 4b 6b 4d 6d"),
        // A pinned piece goes along its line, and takes who pins it.
        ("K5i R5g r5e k1a", "5g", "5e 5f 5h", ""),
        // It may not take the knight that gives check.
        ("K5i G5h r5a n4g k1a", "5h", "", ""),
        ("K5i G3h r5a n4g k1a", "3h", "", ""),
        ("K5i G3h n4g k1a", "3h", "4g", ""),
        // No piece but the king answers two checks.
        ("K5i G4h r5a n6g k1a", "4h", "", ""),
        // The king doesn't step back along the line of the rook.
        ("K5e r5a k1a", "5e", "4d 4e 4f 6d 6e 6f", ""),
        // A pawn and a knight that must be promoted.
        ("K9i P5b k1a", "5b", "", "5a"),
        ("K9i N5d k1a", "5d", "", "4b 6b"),
        // No piece of the side to move; and a side without a king.
        ("K9i k1a", "1a", "", ""),
        ("P5e r5a k1a", "5e", "5d", ""),
    ];
    for (pieces, from, plain, promoted) in rows.iter() {
        let position = position(&rt, pieces);
        let from = named(&rt, from);
        let guard = Guard::of(&position);
        let found = guard.board_moves(&position, from, Landings::full());
        let wanted = (set(&rt, plain), set(&rt, promoted));
        same(&rt, (pieces, from), (found.plain, found.promoted), wanted);
    }
}

#[test]
fn a_mated_king_has_no_move_on_the_board(rt: HostRuntime) {
    let rows = [
        ("K5i g5h p5g k1a", false),
        ("K5i g5h k1a", true),
        ("K9i l9g s8g k1a", true),
    ];
    for (pieces, want) in rows.iter() {
        let position = position(&rt, pieces);
        let found = Guard::of(&position).has_board_move(&position);
        same(&rt, pieces, found, *want);
    }
}

#[test]
fn a_piece_is_dropped_where_the_rules_allow_it(rt: HostRuntime) {
    // Pieces, a kind, squares; those of them on which it may be dropped.
    let rows = [
        // Mate by a dropped pawn: a gold keeps the king from taking it, and from stepping away
        // beside his lance.
        ("K9i G2c l2a k1a", Kind::Pawn, "1b 1c 3a 5e 2a", "1c 5e"),
        // No mate where he may step aside, or another piece takes the pawn.
        ("K9i G2c k1a", Kind::Pawn, "1b 1c", "1b 1c"),
        ("K9i G2c l2a g2b k1a", Kind::Pawn, "1b 1c", "1b 1c"),
        // A gold mates.
        (
            "K9i G2c l2a k1a",
            Kind::Gold,
            "1b 1c 3a 5e 2a",
            "1b 1c 3a 5e",
        ),
        // A second pawn on the file.
        ("K9i P5g p4c k1a", Kind::Pawn, "5e 4e", "4e"),
        // Between the rook and the king alone; and against two checks nowhere.
        ("K9i r9a k1a", Kind::Gold, "9e 5e", "9e"),
        ("K9i r9a b2b k1a", Kind::Gold, "9e 5e", ""),
        // None in hand.
        ("K9i k1a", Kind::Rook, "5e", ""),
        ("k1a", Kind::King, "5e", ""),
    ];
    for (pieces, kind, wanted, want) in rows.iter() {
        let position = position(&rt, pieces);
        let checked = in_check(&position, position.side().other());
        same(&rt, pieces, checked, false);
        if !checked {
            let found = Guard::of(&position).drops(&position, *kind, set(&rt, wanted));
            same(&rt, (pieces, kind), found, set(&rt, want));
        }
    }
}
