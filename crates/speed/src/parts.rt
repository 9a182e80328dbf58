// The parts that need no input: what is done with positions, and what the rules say of them. A new
// one is a row and an arm.
use crate::boards::Boards;
use crate::pace::Done;
use board_core::{Hand, Key, Kind, Piece, Position, Side, Square, key as key_of};
use shogi_rules::trial::trial_checks;
use shogi_rules::{
    Problem, apply as after, attacked as is_attacked, in_check as is_in_check,
    key_after as next_key, legal as is_legal,
};
use std::alloc::{AllocError, Global};

/// A part of the solver.
#[derive(Clone, Copy)]
pub enum Part {
    Build,
    Copy,
    Key,
    Attacked,
    InCheck,
    ChecksAsAGameBegins,
    ChecksWithAGold,
    Apply,
    KeyAfter,
    Legal,
}

/// The word of the command line that asks for a part, what its calls do, and the part, in the order
/// in which `all` measures them.
pub const ROWS: [(&'static str, &'static str, Part); 10] = [
    ("build", "positions built", Part::Build),
    ("copy", "positions copied", Part::Copy),
    ("key", "keys made", Part::Key),
    ("attacked", "squares tested for attacks", Part::Attacked),
    ("in_check", "sides tested for check", Part::InCheck),
    (
        "checks",
        "lists of checks, as a game begins",
        Part::ChecksAsAGameBegins,
    ),
    (
        "checks",
        "lists of checks, with a gold in hand",
        Part::ChecksWithAGold,
    ),
    ("apply", "moves made", Part::Apply),
    (
        "key_after",
        "keys made for the positions after moves",
        Part::KeyAfter,
    ),
    ("legal", "moves judged", Part::Legal),
];

// How many positions stand side by side, so that no round works on what the round before it has in
// registers.
const RING: u64 = 64;

/// Does a part's work so many rounds. Errors: want of memory.
pub fn run(part: Part, alloc: Global, boards: &Boards, rounds: u64) -> Result<Done, AllocError> {
    match part {
        Part::Build => Ok(build(boards, rounds)),
        Part::Copy => copy(alloc, boards, rounds),
        Part::Key => key(alloc, boards, rounds),
        Part::Attacked => Ok(attacked(&boards.opening.position, rounds)),
        Part::InCheck => Ok(in_check(&boards.opening.position, rounds)),
        Part::ChecksAsAGameBegins => checks(alloc, &boards.opening, rounds),
        Part::ChecksWithAGold => checks(alloc, &boards.gold_in_hand, rounds),
        Part::Apply => apply(alloc, boards, rounds),
        Part::KeyAfter => key_after(alloc, boards, rounds),
        Part::Legal => Ok(legal(boards, rounds)),
    }
}

// A position each round, while the pawn of 2g steps to 2f and back; the sum is how often it was
// built with the pawn on 2f.
fn build(boards: &Boards, rounds: u64) -> Done {
    let mut cells = [None; 81];
    for number in 0..81 {
        cells[number as usize] = boards.opening.position.piece_at(Square { number });
    }
    build_each(&mut cells, rounds)
}

fn build_each(cells: &mut [Option<Piece>; 81], rounds: u64) -> Done {
    let mut done = Done::nothing();
    for round in 0..rounds {
        let pawn = Some(Piece::plain(Kind::Pawn, Side::Black));
        let is_ahead = round % 2 == 0;
        cells[14] = if is_ahead { pawn } else { None };
        cells[15] = if is_ahead { None } else { pawn };
        if let Ok(position) = Position::build(cells, Hand::empty(), Hand::empty(), Side::Black) {
            done.add(u64::from(position.piece_at(Square { number: 14 }).is_some()));
        }
    }
    done
}

// A position copied to the next of a ring each round, with the move given to the other side; the
// sum is how many have Black to move.
fn copy(alloc: Global, boards: &Boards, rounds: u64) -> Result<Done, AllocError> {
    let mut ring = Vec::new(alloc);
    for _ in 0..RING {
        ring.push(boards.opening.position)?;
    }
    for round in 0..rounds {
        let from = (round % RING) as usize;
        let to = ((round + 1) % RING) as usize;
        if let Some(found) = ring.get(from) {
            let mut next = *found;
            next.pass();
            if let Some(place) = ring.get_mut(to) {
                *place = next;
            }
        }
    }
    let black = ring
        .iter()
        .filter(|found| found.side() == Side::Black)
        .count();
    Ok(Done {
        calls: rounds,
        sum: black as u64,
    })
}

// The key of one of a ring of positions each round, each the opening position without what stood on
// another square.
fn key(alloc: Global, boards: &Boards, rounds: u64) -> Result<Done, AllocError> {
    let mut ring = Vec::new(alloc);
    for number in 0..RING as u8 {
        let mut other = boards.opening.position;
        other.take(Square { number });
        ring.push(other)?;
    }
    let mut done = Done::nothing();
    for round in 0..rounds {
        if let Some(found) = ring.get((round % RING) as usize) {
            done.add(sum_of(&key_of(found)));
        }
    }
    Ok(done)
}

// The sum of a key's words, what it overflows by dropped.
fn sum_of(key: &Key) -> u64 {
    let mut sum: u64 = 0;
    for word in key.0.iter() {
        sum = sum.wrapping_add(*word);
    }
    sum
}

fn side(round: u64) -> Side {
    if round % 2 == 0 {
        Side::Black
    } else {
        Side::White
    }
}

// Whether a side attacks a square, of all squares in turn.
fn attacked(position: &Position, rounds: u64) -> Done {
    let mut done = Done::nothing();
    for round in 0..rounds {
        let number = (round % 81) as u8;
        done.add(u64::from(is_attacked(position, Square { number }, side(round))));
    }
    done
}

fn in_check(position: &Position, rounds: u64) -> Done {
    let mut done = Done::nothing();
    for round in 0..rounds {
        done.add(u64::from(is_in_check(position, side(round))));
    }
    done
}

// A problem's checks; the sum is how many were listed in all.
fn checks(alloc: Global, problem: &Problem, rounds: u64) -> Result<Done, AllocError> {
    let mut done = Done::nothing();
    for _ in 0..rounds {
        done.add(trial_checks(alloc, problem, &problem.position)?.len() as u64);
    }
    Ok(done)
}

// Each legal move as a game begins made each round; the sum is that of the keys of the last
// positions.
fn apply(alloc: Global, boards: &Boards, rounds: u64) -> Result<Done, AllocError> {
    let mut made = Vec::new(alloc);
    for turn in boards.turns.iter() {
        made.push(turn.position)?;
    }
    let mut done = Done::nothing();
    for _ in 0..rounds {
        for (turn, place) in boards.turns.iter().zip(made.iter_mut()) {
            *place = after(&turn.position, turn.by);
            done.add(0);
        }
    }
    for position in made.iter() {
        done.sum = done.sum.wrapping_add(sum_of(&key_of(position)));
    }
    Ok(done)
}

// The key after each legal move as a game begins, from the key before it; the sum is that of the
// last keys.
fn key_after(alloc: Global, boards: &Boards, rounds: u64) -> Result<Done, AllocError> {
    let mut made = Vec::new(alloc);
    for turn in boards.turns.iter() {
        made.push(turn.key)?;
    }
    let mut done = Done::nothing();
    for _ in 0..rounds {
        for (turn, place) in boards.turns.iter().zip(made.iter_mut()) {
            *place = next_key(&turn.position, &turn.key, turn.by);
            done.add(0);
        }
    }
    for key in made.iter() {
        done.sum = done.sum.wrapping_add(sum_of(key));
    }
    Ok(done)
}

// Whether each legal move as a game begins is legal; the sum is how often one was.
fn legal(boards: &Boards, rounds: u64) -> Done {
    let mut done = Done::nothing();
    for _ in 0..rounds {
        for turn in boards.turns.iter() {
            done.add(u64::from(is_legal(&turn.position, turn.by).is_ok()));
        }
    }
    done
}
