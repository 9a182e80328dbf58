// Attackers and lines by examples, from the rules of shogi.
use crate::letters::{named, piece, set, standing};
use crate::same::same;
use Side::{Black, White};
use attack_lines::{Sight, attackers, attackers_without, blocks, reached, shields};
use bit_boards::Mask;
use board_core::{Hand, Side};

#[test]
fn who_attacks_and_who_stands_between(rt: HostRuntime) {
    // Pieces, a square, a side; whence it attacks the square, and what alone stands in its way.
    let rows = [
        ("k5e R5i P5f", "5e", Black, "5f", "5f"),
        // Behind two pieces nothing is a shield.
        ("k5e R5i P5f g5g", "5e", Black, "5f", ""),
        // A lance looks ahead alone.
        ("k1a L5i p5g L5b", "5e", Black, "", "5g"),
        ("k1a l5b P5d l5h", "5e", White, "", "5d"),
        // A dragon shields from a bishop, and a knight jumps.
        ("k5e B2b +r4d P4f N4g n4c", "5e", Black, "4g", "4d"),
        // A piece of the same side on the square hinders none: a dragon steps aslant, and pieces of
        // the other side don't count.
        ("k5e B2b +r4d P4f N4g n4c P5f", "5e", White, "4d 4c", ""),
    ];
    for (pieces, to, by, attacking, shielding) in rows.iter() {
        let position = standing(&rt, pieces, Hand::empty());
        let to = named(&rt, to);
        let found = (attackers(&position, to, *by), shields(&position, to, *by));
        same(
            &rt,
            pieces,
            found,
            (set(&rt, attacking), set(&rt, shielding)),
        );
    }
}

#[test]
fn a_lifted_king_hides_no_square_behind_him(rt: HostRuntime) {
    let position = standing(&rt, "k5e R5i b8b", Hand::empty());
    let (king, behind) = (named(&rt, "5e"), named(&rt, "5d"));
    let hidden = attackers(&position, behind, Black);
    same(&rt, "there", hidden, Mask::empty());
    let found = attackers_without(&position, king, behind, Black);
    same(&rt, "lifted", found, set(&rt, "5i"));
}

#[test]
fn all_attackers_are_stopped_at_once(rt: HostRuntime) {
    // Attackers of 5e, and the squares on which a piece stops them all.
    let rows = [
        ("4g", "4g"),
        ("5i", "5f 5g 5h 5i"),
        ("2b", "2b 3c 4d"),
        ("5i 2b", ""),
        ("5h 5i", "5f 5g 5h"),
    ];
    let king = named(&rt, "5e");
    for (from, want) in rows.iter() {
        same(&rt, from, blocks(set(&rt, from), king), set(&rt, want));
    }
    same(&rt, "none", blocks(Mask::empty(), king), Mask::full());
}

#[test]
fn pieces_reach_up_to_and_with_the_first_piece(rt: HostRuntime) {
    let position = standing(&rt, "k5a p5d P3e b8b", Hand::empty());
    // A piece and its square; the squares that it reaches, and those from which such a piece
    // reaches that one.
    let rows = [
        ("L5g", "5f 5e 5d", "5h 5i"),
        ("l5b", "5c 5d", "5a"),
        ("N5d", "4b 6b", "4f 6f"),
        ("G7i", "7h 6h 8h 6i 8i", "7h 6i 8i"),
        (
            "+b5e",
            "4d 3c 2b 1a 6d 7c 8b 4f 3g 2h 1i 6f 7g 8h 9i 5d 5f 4e 6e",
            "4d 3c 2b 1a 6d 7c 8b 4f 3g 2h 1i 6f 7g 8h 9i 5d 5f 4e 6e",
        ),
        (
            "R5e",
            "5d 4e 3e 6e 7e 8e 9e 5f 5g 5h 5i",
            "5d 4e 3e 6e 7e 8e 9e 5f 5g 5h 5i",
        ),
    ];
    for (word, to, from) in rows.iter() {
        let (piece, square) = piece(&rt, word);
        let ahead = reached(&position, piece, square);
        let back = Sight::of(&position, square).reached_from(piece);
        same(&rt, word, (ahead, back), (set(&rt, to), set(&rt, from)));
    }
}
