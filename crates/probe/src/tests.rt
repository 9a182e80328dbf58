// The lists that are made by sets of squares beside the plain ones, which try every move, over
// positions that come from playing.
use crate::answer::answer_to;
use crate::write::write_answer;
use board_core::{Move, Position};
use check_moves::{checks_into, count_checks};
use evasions::{answers_into, count_answers};
use move_lists::Moves;
use sfen_text::read_sfen;
use shogi_rules::trial::{trial_checks, trial_evasions};
use shogi_rules::{Problem, accept_problem, apply, in_check, legal};
use std::alloc::Global;
use std::process::Abort;
use std::test::Fail;

// Either side attacks; he has a king, in check or not, or none; eighteen pawns are in hand; two
// pieces check at once; pieces of each kind that slides stand behind others; pieces can be promoted
// and can't; a dropped pawn would mate.
const STARTS: [&str; 24] = [
    "ln1gk2nl/1r2g1s2/p1pp1pppp/4p4/9/4P4/PPPP1PPPP/7R1/LNSGKGSNL b 2BSP",
    "lnsgk1snl/1r4gb1/p1pppp2p/6pR1/1p7/2P6/PP1PPPP1P/1BG6/LNS1KGSNL b Pp",
    "l3k2nl/3g1sg2/p1np1p1pp/2p3p2/1p2P4/2P1BPP2/PPSP1GN1P/2G1R4/LN2K3L w RBSsp",
    "4k4/9/9/9/9/9/9/4r4/4K4 b RBGSNLP",
    "3gk4/9/9/9/9/2b6/4n4/9/4K4 b R2G2S2NL4P",
    "4k4/9/9/9/9/9/9/9/9 b 18P2RBg",
    "4K4/9/9/9/9/9/9/9/9 w 2r2b4g4s4n4l18p",
    "4k4/9/9/9/9/9/9/9/9 b RB2GSNrb2g3s3n4l18p",
    "4k4/9/4N4/9/4R4/9/9/9/9 b BG2SN2P",
    "4k4/3p1p3/9/4N4/1B2L4/9/9/4R4/K8 b 2GS3Pgs",
    "2s1k4/9/1N2P4/B3L4/9/9/9/9/9 b RGSNPrg2s2n2l5p",
    "k8/9/P8/L8/9/9/9/9/R8 b G2SN2P",
    "7nk/9/7SP/6B1L/9/9/9/9/8R b GN2P",
    "3+Rpk3/9/4+B4/5G3/9/9/9/9/9 b SNLPgs",
    "9/3+P1k1+P1/9/4P1P2/9/9/9/9/9 b RB2G2S2N2LP",
    "8k/7pp/9/8N/9/9/9/9/9 b GSPrbg",
    "6ppk/7sp/9/9/9/9/9/9/7R1 b NPGS",
    "7sk/9/7GP/9/9/9/9/9/9 b 3P",
    "k1r6/1p7/2N6/9/9/9/9/9/B8 b PGS2L",
    "1k1g5/9/K1P6/9/2R6/9/9/2L6/b8 b BGSN3P",
    "9/9/9/9/4k4/9/9/9/9 b 2R2B4G4S4N4L18P",
    "9/9/9/3PlP3/2RpkB3/4NL3/9/9/4K4 b 2G3S2N5Prb2g",
    "4K4/9/3r1b3/4n4/4l4/9/9/9/4k4 w 2g2s2nl9pRB",
    "9/1+p1s+n2l1/9/2+rPK4/9/4p2+b1/5n3/9/7k1 w 2g2sn2l6pGS",
];

// A step of a xorshift generator (Marsaglia 2003).
fn next(state: u64) -> u64 {
    let one = state ^ (state << 13);
    let two = one ^ (one >> 7);
    two ^ (two << 17)
}

// What is met by playing.
#[derive(Drop)]
struct Met {
    state: u64,
    positions: u32,
    lists: Moves,
}

fn problem(rt: &impl Abort, text: &str) -> Problem {
    match read_sfen(text.as_bytes()) {
        Ok(position) => match accept_problem(position) {
            Ok(problem) => problem,
            Err(_) => panic!(rt; "in check: {text}"),
        },
        Err(_) => panic!(rt; "no position: {text}"),
    }
}

// Whether two lists are one.
fn are_same(made: &[Move], tried: &[Move]) -> bool {
    made.len() == tried.len()
        && made
            .iter()
            .zip(tried.iter())
            .all(|(one, other)| one.is_same(*other))
}

// How many answers a list has, drops on one square counted once.
fn answers_in(moves: &[Move]) -> u32 {
    let mut squares = [false; 81];
    let mut count: u32 = 0;
    for by in moves {
        match by {
            Move::Board { .. } => count = count.wrapping_add(1),
            Move::Drop { to, .. } => {
                if !squares[to.number as usize] {
                    squares[to.number as usize] = true;
                    count = count.wrapping_add(1);
                }
            }
        }
    }
    count
}

// One of the moves, if there is one and it is legal.
fn picked(moves: &[Move], state: u64, position: &Position) -> Option<Position> {
    if moves.is_empty() || in_check(position, position.side().other()) {
        return None;
    }
    let by = moves[(state >> 20) as usize % moves.len()];
    if legal(position, by).is_err() {
        return None;
    }
    Some(apply(position, by))
}

fn compare_checks(
    rt: &impl Abort,
    alloc: Global,
    problem: &Problem,
    position: &Position,
    met: &mut Met,
) -> Result<Option<Position>, Fail> {
    assert!(rt;
        !in_check(position, position.side().other()),
        "not quiet: {position:?}"
    );
    let tried = trial_checks(alloc, problem, position)?;
    checks_into(problem, position, &mut met.lists)?;
    assert!(rt;
        are_same(met.lists.as_slice(), &tried),
        "checks at {:?}",
        position
    );
    assert_eq!(rt; count_checks(problem, position) as usize, tried.len());
    met.positions = met.positions.wrapping_add(1);
    met.state = next(met.state);
    Ok(picked(&tried, met.state, position))
}

fn compare_answers(
    rt: &impl Abort,
    alloc: Global,
    problem: &Problem,
    position: &Position,
    met: &mut Met,
) -> Result<Option<Position>, Fail> {
    assert!(rt;
        !in_check(position, position.side().other()),
        "not quiet: {position:?}"
    );
    let tried = trial_evasions(alloc, problem, position)?;
    answers_into(problem, position, &mut met.lists)?;
    assert!(rt;
        are_same(met.lists.as_slice(), &tried),
        "answers at {:?}",
        position
    );
    assert_eq!(rt; count_answers(problem, position), answers_in(&tried));
    met.positions = met.positions.wrapping_add(1);
    met.state = next(met.state);
    Ok(picked(&tried, met.state, position))
}

// Checks and answers by turns, until there is none or eight of each were played.
fn play(rt: &impl Abort, alloc: Global, text: &str, met: &mut Met) -> Result<(), Fail> {
    let problem = problem(rt, text);
    let mut now = problem.position;
    for _ in 0..8u32 {
        let Some(checked) = compare_checks(rt, alloc, &problem, &now, met)? else {
            return Ok(());
        };
        let Some(answered) = compare_answers(rt, alloc, &problem, &checked, met)? else {
            return Ok(());
        };
        now = answered;
    }
    Ok(())
}

#[test]
fn lists_and_counts_by_sets_are_those_of_the_plain_lists_wherever_play_leads(
    rt: HostRuntime,
) -> Result<(), Fail> {
    let mut met = Met {
        state: 88_172_645_463_325_252,
        positions: 0,
        lists: Moves::new(rt.alloc()),
    };
    for text in STARTS {
        for _ in 0..20u32 {
            play(&rt, rt.alloc(), text, &mut met)?;
        }
    }
    assert!(rt; met.positions > 3_000, "{} positions", met.positions);
    Ok(())
}

// Questions, and the moves that answer them: by hand, from the rules. A discovered check; a king
// that opens a line; a pinned piece that can't take the pawn that would mate; a king's ways and
// what may be put between; a double check, against which nothing may.
const ROWS: [(&str, &str); 5] = [
    (
        "checks 4k4/9/9/9/9/4G4/9/9/4R4 b - 1",
        "5f4e 5f4f 5f6e 5f6f",
    ),
    (
        "checks 4k4/9/9/9/4K4/9/9/9/4R4 b - 1",
        "5e4d 5e4e 5e4f 5e6d 5e6e 5e6f",
    ),
    (
        "checks 8k/7g1/7GN/9/4B4/9/9/9/9 b P 1",
        "1c2a+ 2c1b 2c2b 5e2b 5e2b+",
    ),
    (
        "answers 4i5i 4k4/9/9/9/9/9/9/9/5R3 b g 1",
        "5a4a 5a4b 5a6a 5a6b G*5b G*5c G*5d G*5e G*5f G*5g G*5h",
    ),
    (
        "answers 5e4c 4k4/9/9/9/4N4/9/9/9/4R4 b g 1",
        "5a4a 5a4b 5a6a 5a6b",
    ),
];

#[test]
fn the_lists_of_a_few_positions_are_those_of_the_rules(rt: HostRuntime) -> Result<(), Fail> {
    for (question, want) in ROWS {
        let mut answer = Vec::new(rt.alloc());
        write_answer(
            rt.alloc(),
            &mut answer,
            &answer_to(rt.alloc(), question.as_bytes())?,
        )?;
        assert!(rt; answer.as_slice() == want.as_bytes(), "{question}");
    }
    Ok(())
}
