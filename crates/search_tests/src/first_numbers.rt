// Start numbers by examples that another program made.
use crate::problems::problem;
use crate::same::same;
use board_core::{Move, Position, Side, key};
use pn_numbers::Numbers;
use sfen_text::read_sfen;
use shogi_rules::{Problem, in_check, legal};
use start_numbers::{Starts, start};
use std::alloc::Global;
use std::process::Abort;
use usi_text::read_move;

// A problem whose attacker is this side.
fn problem_of(rt: &impl Abort, attacker: Side) -> Problem {
    match attacker {
        Side::Black => problem(rt, "4k4/9/9/9/9/9/9/9/9 b -"),
        Side::White => problem(rt, "4K4/9/9/9/9/9/9/9/9 w -"),
    }
}

// The numbers after a move, then twice as they are kept, or why the row is no example.
fn started(
    alloc: Global,
    starts: &mut Starts,
    problem: &Problem,
    position: &Position,
    by: Move,
) -> Result<[Numbers; 3], &'static str> {
    if in_check(position, position.side().other()) {
        return Err("not quiet");
    }
    if legal(position, by).is_err() {
        return Err("not legal");
    }
    let own = key(position);
    Ok([
        start(problem, position, by),
        starts.start(alloc, problem, position, &own, 0, by),
        starts.start(alloc, problem, position, &own, 0, by),
    ])
}

// The first word of a row, and the rest.
fn split<'a>(rt: &impl Abort, row: &'a str) -> (&'a str, &'a str) {
    row.split_once(' ').expect(rt, row)
}

// A row has the move, the two numbers, and the position with the attacker to move; the position is
// the one at hand, or that with the defender to move.
fn compare(rt: &impl Abort, alloc: Global, starts: &mut Starts, row: &str, is_evasion: bool) {
    let (by, rest) = split(rt, row);
    let (pn, rest) = split(rt, rest);
    let (dn, text) = split(rt, rest);
    let mut position = read_sfen(text.as_bytes()).expect(rt, row);
    let attacker = position.side();
    if is_evasion {
        position.pass();
    }
    let numbers = Numbers {
        pn: pn.parse::<u32>().expect(rt, row),
        dn: dn.parse::<u32>().expect(rt, row),
    };
    let by = read_move(by.as_bytes()).expect(rt, row);
    let found = started(alloc, starts, &problem_of(rt, attacker), &position, by);
    same(rt, row, found, Ok([numbers; 3]));
}

#[test]
fn a_position_begins_with_what_its_answers_or_checks_make_likely(rt: HostRuntime) {
    let mut starts = Starts::new(rt.alloc());
    let checks = [
        "S*6d 15 2 9/9/1b1k5/2+p6/n2s5/4p4/9/9/9 b S2rb4g2s3n4l16p",
        "R*3c 1 4 8+p/4P2n1/7K1/6g2/9/3+b2N2/9/9/9 w RB3G4S2N4L16Pr",
        "3a2a 1 5 6rGK/7r1/5L1P1/3nb3+p/9/9/9/9/9 w 3G4S3N2L16Pbl",
        "G*2g 1 2 9/9/9/9/9/8+r/8G/7sK/9 w R2B2G3S3N3L18Pgnl",
        "7b3f 8 5 9/2b6/9/9/9/5PG2/4+p3P/5S2K/6S2 w 2RBS4N4L13P3gs2p",
        "7a3a 4 5 2r3B1K/7r1/5L1P1/3nb3+p/9/9/9/9/9 w 4G4S3N2L16Pl",
        "1e3g+ 6 5 9/5g3/9/9/8b/6+r2/2n2LN2/5K3/3s5 w RB3G3S2N2L17Plp",
        "1e3g 8 5 9/5g3/9/9/8b/6+r2/2n2LN2/5K3/3s5 w RB3G3S2N2L17Plp",
        "2i2h+ 7 2 9/2b6/9/9/9/5PG2/4+p3P/5S2K/6Sr1 w BS4N4L13Pr3gs2p",
        "G*9h 6 2 9/9/9/9/9/2p6/2lG5/1K7/9 w rg",
        "R*8b 6 4 9/9/9/9/9/2p6/2lG5/1K7/9 w rg",
        "G*7h 8 4 9/9/9/9/9/2p6/2lG5/1K7/9 w rg",
        "R*1h 10 2 9/9/9/9/9/5P3/4+pG2P/5S1K1/6S2 w BS4N4L13P2rb3gs2p",
    ];
    for row in checks {
        compare(&rt, rt.alloc(), &mut starts, row, false);
    }
    // The defender, in check, has the move.
    let evasions = [
        "6c6d 2 1 9/9/1b1k5/2+pS5/n2s5/4p4/9/9/9 b 2rb4g2s3n4l16p",
        "6c7b 2 8 9/9/1b1k5/2+pS5/n2s5/4p4/9/9/9 b 2rb4g2s3n4l16p",
        "2h3g 2 54 9/9/9/9/9/5P3/4+pG2P/5S1K1/6Sr1 w BS4N4L13Prb3gs2p",
        "B*5d 2 26 9/2b6/9/9/9/5P3/4+pG2P/5S2K/6Sr1 w BS4N4L13Pr3gs2p",
        "L*2g 2 24 9/2b6/9/9/9/5P3/4+pG2P/5S2K/6Sr1 w BS4N4L13Pr3gs2p",
    ];
    for row in evasions {
        compare(&rt, rt.alloc(), &mut starts, row, true);
    }
}
