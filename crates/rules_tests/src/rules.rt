// What the rules say of single moves and positions, in the letters of SFEN: expected values from
// the rules of shogi and from an independent program.
mod wandering;

use crate::letters::{accepted, by, moves, named, position, problem};
use crate::same::same;
use Illegal::{
    BadPromotion, Blocked, DeadDrop, KingLeft, NoStep, NotInHand, NotThere, Occupied, OwnPiece,
    PawnMate, TwoPawns,
};
use board_core::{Side, key};
use sfen_text::write_sfen;
use shogi_rules::trial::{trial_checks, trial_evasions};
use shogi_rules::{Illegal, apply, attacked, in_check, key_after, legal};
use std::alloc::{AllocError, Global};
use std::process::Abort;
use std::test::Fail;

// A position, a move, and the position after it or the reason against it.
type Verdict<'a> = (&'a str, &'a str, Result<&'a str, Illegal>);

fn judge(rt: &impl Abort, alloc: Global, rows: &[Verdict]) -> Result<(), AllocError> {
    for (text, word, wanted) in rows.iter() {
        let problem = problem(rt, text);
        let by = by(rt, word);
        match legal(&problem.position, by) {
            Ok(()) => {
                let after = write_sfen(alloc, &apply(&problem.position, by))?;
                let found = str::from_utf8(&after).unwrap_or("no text");
                same(rt, (text, word), Ok(found), *wanted);
            }
            Err(why) => same(rt, (text, word), Err(why), *wanted),
        }
    }
    Ok(())
}

const MOVES: &[Verdict] = &[
    // No piece of the mover there: none, the other side's; also where the mover's own piece is met.
    ("9/4k4/9/9/9/9/9/K8/9 b Np", "2a5b", Err(NotThere)),
    ("9/4k4/9/9/9/9/9/K8/9 b Np", "5b4b", Err(NotThere)),
    ("9/4k4/9/9/9/9/9/K8/9 b Np", "5b9h", Err(NotThere)),
    // The mover's own piece is met; also where nothing goes there.
    ("8k/9/6NG1/9/9/9/9/9/9 b P", "2c3c", Err(OwnPiece)),
    ("8k/9/9/9/9/9/4g4/9/8K w Ng", "5g1a+", Err(OwnPiece)),
    // No such step; also promoting against the rules. A knight goes two forward, and only so.
    ("9/9/9/7Bk/9/9/9/9/9 b Ls", "2d5e+", Err(NoStep)),
    ("9/4g4/9/9/9/9/K8/8k/1+r7 w -", "5b8a", Err(NoStep)),
    ("8k/9/9/9/4N4/9/9/9/9 b -", "5e3d", Err(NoStep)),
    ("8k/9/9/9/4N4/9/9/9/9 b -", "5e4g", Err(NoStep)),
    ("8k/9/9/9/4P4/9/9/9/9 b -", "5e5f", Err(NoStep)),
    ("8k/9/9/9/4+L4/9/9/9/9 b -", "5e5c", Err(NoStep)),
    (
        "8k/9/9/3+p+p+p3/3+pN4/9/9/9/9 b -",
        "5e4c",
        Ok("8k/9/5N3/3+p+p+p3/3+p5/9/9/9/9 w -"),
    ),
    (
        "8k/9/9/9/4+R4/9/9/9/9 b -",
        "5e4f",
        Ok("8k/9/9/9/9/5+R3/9/9/9 w -"),
    ),
    (
        "7k1/9/9/9/4+B4/9/9/9/9 b -",
        "5e5f",
        Ok("7k1/9/9/9/9/4+B4/9/9/9 w -"),
    ),
    ("8k/9/9/9/4+R4/9/9/9/9 b -", "5e3g", Err(NoStep)),
    // A piece between; also where the lance would have to be promoted.
    ("9/g8/9/+p1k6/9/9/R8/9/9 b -", "9g9b", Err(Blocked)),
    ("GK2l4/9/4+p4/8G/9/9/9/9/9 w -", "5a5i", Err(Blocked)),
    ("GK2l4/9/4+p4/8G/9/9/9/9/9 w -", "5a5g", Err(Blocked)),
    // A capture: the piece goes unpromoted into the captor's hand.
    (
        "8k/9/9/4+p4/4G4/9/9/9/9 b -",
        "5e5d",
        Ok("8k/9/9/4G4/9/9/9/9/9 w P"),
    ),
    (
        "9/9/9/4g4/4+R4/9/9/9/8K w -",
        "5d5e",
        Ok("9/9/9/9/4g4/9/9/9/8K b r"),
    ),
];

#[test]
fn each_move_is_made_or_refused_by_the_first_reason(rt: HostRuntime) -> Result<(), Fail> {
    judge(&rt, rt.alloc(), MOVES)?;
    Ok(())
}

const FORCED: &[Verdict] = &[
    // A knight on the last two rows, a lance and a pawn on the last: of either side.
    ("8k/9/6NG1/9/9/9/9/9/9 b P", "3c2a", Err(BadPromotion)),
    ("8k/9/9/6N2/9/9/9/9/9 b -", "3d2b", Err(BadPromotion)),
    (
        "8k/9/9/6N2/9/9/9/9/9 b -",
        "3d2b+",
        Ok("8k/7+N1/9/9/9/9/9/9/9 w -"),
    ),
    ("9/9/9/9/9/6n2/9/9/8K w -", "3f2h", Err(BadPromotion)),
    (
        "9/9/9/9/9/6n2/9/9/8K w -",
        "3f2h+",
        Ok("9/9/9/9/9/9/9/7+n1/8K b -"),
    ),
    ("k8/9/8L/9/9/9/9/9/9 b -", "1c1a", Err(BadPromotion)),
    (
        "k8/9/8L/9/9/9/9/9/9 b -",
        "1c1a+",
        Ok("k7+L/9/9/9/9/9/9/9/9 w -"),
    ),
    (
        "k8/9/8L/9/9/9/9/9/9 b -",
        "1c1b",
        Ok("k8/8L/9/9/9/9/9/9/9 w -"),
    ),
    ("9/9/9/9/9/9/l8/9/8K w -", "9g9i", Err(BadPromotion)),
    (
        "9/9/9/9/9/9/l8/9/8K w -",
        "9g9h",
        Ok("9/9/9/9/9/9/9/l8/8K b -"),
    ),
    ("k8/8P/9/9/9/9/9/9/9 b -", "1b1a", Err(BadPromotion)),
];

#[test]
fn promotion_is_forced_where_the_piece_could_never_move(rt: HostRuntime) -> Result<(), Fail> {
    judge(&rt, rt.alloc(), FORCED)?;
    Ok(())
}

const ZONE: &[Verdict] = &[
    // Starting in the zone, ending in it, and outside it: of either side.
    (
        "8k/9/4S4/9/9/9/9/9/9 b -",
        "5c4d+",
        Ok("8k/9/9/5+S3/9/9/9/9/9 w -"),
    ),
    (
        "8k/9/9/4S4/9/9/9/9/9 b -",
        "5d5c+",
        Ok("8k/9/4+S4/9/9/9/9/9/9 w -"),
    ),
    ("8k/9/9/9/4S4/9/9/9/9 b -", "5e5d+", Err(BadPromotion)),
    (
        "9/9/9/9/9/9/4s4/9/8K w -",
        "5g4f+",
        Ok("9/9/9/9/9/5+s3/9/9/8K b -"),
    ),
    (
        "9/9/9/9/9/4s4/9/9/8K w -",
        "5f5g+",
        Ok("9/9/9/9/9/9/4+s4/9/8K b -"),
    ),
    ("9/9/9/9/4s4/9/9/9/8K w -", "5e5f+", Err(BadPromotion)),
];

#[test]
fn promotion_is_by_a_move_from_or_into_the_zone(rt: HostRuntime) -> Result<(), Fail> {
    judge(&rt, rt.alloc(), ZONE)?;
    Ok(())
}

const NEVER: &[Verdict] = &[
    // A gold and a king never, no piece twice; also where the mover's king would be attacked.
    ("8k/9/4G4/9/9/9/9/9/9 b -", "5c5b+", Err(BadPromotion)),
    ("2k6/6K2/9/9/9/9/9/9/9 w S", "7a7b+", Err(BadPromotion)),
    ("8k/9/4+S4/9/9/9/9/9/9 b -", "5c5b+", Err(BadPromotion)),
    ("4k4/4r4/9/9/9/9/9/4S4/4K4 b -", "5h4g+", Err(BadPromotion)),
];

#[test]
fn a_gold_a_king_and_a_promoted_piece_never_promote(rt: HostRuntime) -> Result<(), Fail> {
    judge(&rt, rt.alloc(), NEVER)?;
    Ok(())
}

const DROPS: &[Verdict] = &[
    // The square isn't empty; also where no such piece is in hand, as never a king.
    ("9/9/K8/9/9/9/9/9/2k6 b -", "G*7i", Err(Occupied)),
    ("3k5/p8/9/9/9/9/9/9/9 b s", "P*9b", Err(Occupied)),
    ("4k4/9/9/9/9/9/9/9/9 b G", "K*5a", Err(Occupied)),
    // No such piece in hand; also where it would be dead.
    ("4k4/9/9/9/9/9/9/9/9 b G", "K*5e", Err(NotInHand)),
    ("6K2/9/k8/9/9/9/9/9/9 b Rb", "G*6b", Err(NotInHand)),
    ("6K2/9/k8/9/9/9/9/9/9 b Rb", "N*4a", Err(NotInHand)),
    // It could never move again; also where it would be a second pawn.
    ("K8/9/4r4/2R6/9/9/9/9/9 w p", "P*2i", Err(DeadDrop)),
    ("9/8K/9/9/9/8k/9/9/9 w n", "N*8h", Err(DeadDrop)),
    ("9/7k1/5G3/9/9/9/9/9/9 b N", "N*5b", Err(DeadDrop)),
    ("9/9/9/K8/9/9/9/9/k8 b SL", "L*6a", Err(DeadDrop)),
    ("8k/9/4P4/9/9/9/9/9/9 b P", "P*5a", Err(DeadDrop)),
    // A second unpromoted pawn on the file; also where the mover's king is left attacked. A
    // promoted one, or the other side's, is none.
    ("4k4/9/4P4/9/9/9/9/9/9 b P", "P*5b", Err(TwoPawns)),
    ("7Kp/9/6G2/9/9/9/9/9/9 w Sp", "P*1c", Err(TwoPawns)),
    ("4k4/9/4P4/9/9/9/9/9/4K3r b P", "P*5e", Err(TwoPawns)),
    (
        "k8/9/9/9/4+P4/9/9/9/9 b P",
        "P*5f",
        Ok("k8/9/9/9/4+P4/4P4/9/9/9 w -"),
    ),
    (
        "k8/9/9/9/4p4/9/9/9/9 b P",
        "P*5f",
        Ok("k8/9/9/9/4p4/4P4/9/9/9 w -"),
    ),
    // The mover's king is left attacked: by a pinned piece, by a drop elsewhere, by the king's own
    // step; also where the pawn would be mate. Without the king nothing is left.
    ("4k4/4r4/9/9/9/9/9/4G4/4K4 b -", "5h4h", Err(KingLeft)),
    (
        "4k4/4r4/9/9/9/9/9/4G4/9 b -",
        "5h4h",
        Ok("4k4/4r4/9/9/9/9/9/5G3/9 w -"),
    ),
    ("4k4/9/4P4/9/9/9/9/9/4K3r b G", "G*5b", Err(KingLeft)),
    ("9/9/9/1k7/9/G8/9/4p4/7K1 w -", "8d9e", Err(KingLeft)),
    ("8k/9/6NG1/9/9/9/9/9/r7K b P", "P*1b", Err(KingLeft)),
];

#[test]
fn drops_are_made_or_refused_by_the_first_reason(rt: HostRuntime) -> Result<(), Fail> {
    judge(&rt, rt.alloc(), DROPS)?;
    Ok(())
}

const PAWNS: &[Verdict] = &[
    // Mate, of either side.
    ("8k/9/6NG1/9/9/9/9/9/9 b P", "P*1b", Err(PawnMate)),
    ("9/9/9/5L3/8b/3k5/9/6+r2/8K w lp", "P*1h", Err(PawnMate)),
    ("2+R6/k8/9/1K7/9/9/9/9/9 b BPb", "P*9c", Err(PawnMate)),
    // The king takes the pawn; he steps aside; another piece takes it.
    (
        "8k/9/9/9/9/9/9/9/9 b P",
        "P*1b",
        Ok("8k/8P/9/9/9/9/9/9/9 w -"),
    ),
    (
        "8k/9/8G/9/9/9/9/9/9 b P",
        "P*1b",
        Ok("8k/8P/8G/9/9/9/9/9/9 w -"),
    ),
    (
        "8k/r8/6NG1/9/9/9/9/9/9 b P",
        "P*1b",
        Ok("8k/r7P/6NG1/9/9/9/9/9/9 w -"),
    ),
    (
        "7sk/9/7G1/9/9/9/9/9/9 b P",
        "P*1b",
        Ok("7sk/8P/7G1/9/9/9/9/9/9 w -"),
    ),
    // A pinned piece can't take it.
    ("R6sk/9/7G1/9/9/9/9/9/9 b P", "P*1b", Err(PawnMate)),
    // No mate where the pawn that mates is on the board, or the dropped piece is no pawn.
    (
        "8k/9/6NGP/9/9/9/9/9/9 b -",
        "1c1b",
        Ok("8k/8P/6NG1/9/9/9/9/9/9 w -"),
    ),
    (
        "8k/9/6NG1/9/9/9/9/9/9 b L",
        "L*1b",
        Ok("8k/8L/6NG1/9/9/9/9/9/9 w -"),
    ),
];

#[test]
fn a_dropped_pawn_may_check_and_not_mate(rt: HostRuntime) -> Result<(), Fail> {
    judge(&rt, rt.alloc(), PAWNS)?;
    Ok(())
}

#[test]
fn the_key_after_a_move_is_that_of_the_position_after_it(rt: HostRuntime) {
    // A plain move to another word of the key and within one; a capture of a promoted piece,
    // without and with a promotion; a promotion; a drop from a hand of several: by each side.
    let rows = [
        ("8k/9/9/9/4+R4/9/9/9/9 b 2Pg", "5e4f"),
        ("8k/9/9/9/9/9/9/4p4/8K w 2Pg", "5h5i+"),
        ("8k/9/9/4+p4/4G4/9/9/9/9 b 3p", "5e5d"),
        ("9/9/9/4g4/4+B4/9/9/9/8K w bP", "5d5e"),
        ("k8/2+n6/9/2L6/9/9/9/9/9 b N", "7d7b+"),
        ("9/9/9/9/9/4s4/9/4+L4/K8 w -", "5f5g+"),
        ("9/9/9/9/9/9/4s4/4+L4/K8 w l", "5g5h+"),
        ("8k/9/9/9/9/9/9/9/9 b 18P4l", "P*1i"),
        ("9/9/9/9/9/9/9/9/8K w 2R3g", "G*9a"),
    ];
    for (text, word) in rows.iter() {
        let problem = problem(&rt, text);
        let by = by(&rt, word);
        match legal(&problem.position, by) {
            Ok(()) => {
                let next = key_after(&problem.position, &key(&problem.position), by);
                let after = apply(&problem.position, by);
                same(&rt, (text, word), next, key(&after));
            }
            Err(why) => same(&rt, (text, word), Err(why), Ok(())),
        }
    }
}

// A problem, and its checks in order.
const CHECKS: &[(&str, &str)] = &[
    ("8k/9/6NG1/9/9/9/9/9/9 b P", "2c1b 2c2b 3c2a+"),
    ("4k4/9/4P4/9/9/9/9/9/9 b P", "5c5b 5c5b+"),
    (
        "9/9/9/9/9/9/4p4/9/4K4 w g",
        "5g5h 5g5h+ G*4h G*4i G*5h G*6h G*6i",
    ),
    // The attacker's own king is in check: no check parries; his king's steps uncover the rook.
    ("4k4/9/4P4/9/9/9/9/9/4K3r b G", ""),
    ("4k4/9/9/9/9/9/r3K4/9/4R4 b -", "5g4f 5g4h 5g6f 5g6h"),
    // By the rook alone or by the knight too.
    ("4k4/9/9/9/4N4/9/9/9/4R4 b g", "5e4c 5e4c+ 5e6c 5e6c+"),
    // From an independent program.
    (
        "9/k8/9/S8/2P6/9/9/9/9 b GNp",
        "9d8c 9d8c+ 9d9c 9d9c+ N*8d G*8b G*8c G*9a G*9c",
    ),
    ("9/7lK/9/9/9/9/9/9/8k w Bl", "L*1a"),
    (
        "9/9/3g1k3/9/9/5P1S1/9/9/9 b GS",
        "S*3b S*3d S*4d S*5b S*5d G*3c G*3d G*4b G*4d G*5c G*5d",
    ),
    (
        "3G5/6L2/3g2K1p/5l1r1/5ln2/9/k8/9/7+n1 w Gbp",
        "2d2c 2d3d B*1a B*2b B*4b B*5a",
    ),
];

#[test]
fn checks_are_listed_whole_and_in_order(rt: HostRuntime) -> Result<(), Fail> {
    for (text, want) in CHECKS {
        let problem = problem(&rt, text);
        let found = trial_checks(rt.alloc(), &problem, &problem.position)?;
        let wanted = moves(&rt, rt.alloc(), want)?;
        same(&rt, text, found.as_slice(), wanted.as_slice());
    }
    Ok(())
}

// A problem, a check, and the evasions to it in order.
const EVASIONS: &[(&str, &str, &str)] = &[
    // To the rook alone, and to the knight too.
    ("4k4/9/9/9/4N4/9/9/9/4R4 b g", "5e4c", "5a4a 5a4b 5a6a 5a6b"),
    (
        "4k4/9/9/9/4N4/9/9/9/4R4 b g",
        "5e4c+",
        "5a4a 5a6a 5a6b G*5b G*5c G*5d G*5e G*5f G*5g G*5h",
    ),
    (
        "4k4/9/9/9/9/9/9/9/3R5 b g",
        "6i5i",
        "5a4a 5a4b 5a6a 5a6b G*5b G*5c G*5d G*5e G*5f G*5g G*5h",
    ),
    // From an independent program.
    (
        "9/5L3/5b3/5Pn2/9/2b4k1/9/5r3/8+l b GN",
        "N*1h",
        "1i1h 2f1e 2f1f 2f1g 2f2e 2f2g 2f3e 2f3f 2f3g 4h1h 4h1h+",
    ),
    (
        "4k1l2/1G4r2/3K5/7L1/2+p6/9/9/2G5p/8r b Gp",
        "G*4a",
        "5a4a 5a6a",
    ),
];

#[test]
fn evasions_are_listed_whole_and_in_order(rt: HostRuntime) -> Result<(), Fail> {
    for (text, word, want) in EVASIONS {
        let problem = problem(&rt, text);
        let check = by(&rt, word);
        match legal(&problem.position, check) {
            Ok(()) => {
                let checked = apply(&problem.position, check);
                let found = trial_evasions(rt.alloc(), &problem, &checked)?;
                let wanted = moves(&rt, rt.alloc(), want)?;
                same(&rt, (text, word), found.as_slice(), wanted.as_slice());
            }
            Err(why) => same(&rt, (text, word), Err(why), Ok(())),
        }
    }
    Ok(())
}

#[test]
fn a_problem_is_refused_where_the_defender_is_in_check(rt: HostRuntime) {
    // A position, and whether the side not to move is in check; the side to move, whether it has a
    // king or not, may be.
    let rows = [
        ("4k4/9/9/9/9/9/9/9/4R4 b -", true),
        ("4k4/9/9/9/4p4/9/9/9/4R4 b -", false),
        ("4k4/9/9/9/9/9/9/9/3R5 b -", false),
        ("4k4/9/9/9/9/9/9/9/4K3r b -", false),
        ("8k/9/7N1/9/9/9/9/9/9 b -", true),
        ("9/9/9/9/9/9/9/4p4/4K4 w -", true),
        ("9/9/9/9/9/9/9/4P4/4K4 w -", false),
    ];
    for (text, refused) in rows {
        same(&rt, text, accepted(&rt, text).is_err(), refused);
    }
    let knight = position(&rt, "8k/9/9/9/4N4/9/9/9/9 b -");
    same(&rt, "no king", in_check(&knight, Side::Black), false);
    for (square, side, wanted) in [
        ("4c", Side::Black, true),
        ("3d", Side::Black, false),
        ("4c", Side::White, false),
    ] {
        let found = attacked(&knight, named(&rt, square), side);
        same(&rt, (square, side), found, wanted);
    }
}
