// Lists of checks and of evasions, how long they are, and with which numbers the search begins
// behind their moves.
use crate::pace::{Done, print_done};
use crate::trees::{Turns, grown_trees};
use crate::words::Asked;
use check_moves::{checks_into, count_checks};
use evasions::{answers_into, count_answers};
use move_lists::Moves;
use start_numbers::start;
use std::alloc::AllocError;
use std::io;
use std::time::Instant;

// What is done at each position.
#[derive(Clone, Copy)]
enum Work {
    ListChecks,
    CountChecks,
    ListAnswers,
    CountAnswers,
    Start,
}

fn start_each(turns: &Turns, done: &mut Done) {
    for by in turns.moves.as_slice() {
        let numbers = start(&turns.problem, &turns.position, *by);
        done.add(u64::from(numbers.pn).wrapping_add(u64::from(numbers.dn)));
    }
}

fn do_work(
    work: Work,
    turns: &Turns,
    moves: &mut Moves,
    done: &mut Done,
) -> Result<(), AllocError> {
    match work {
        Work::ListChecks => {
            checks_into(&turns.problem, &turns.position, moves)?;
            done.add(moves.len() as u64);
        }
        Work::CountChecks => done.add(u64::from(count_checks(&turns.problem, &turns.position))),
        Work::ListAnswers => {
            answers_into(&turns.problem, &turns.position, moves)?;
            done.add(moves.len() as u64);
        }
        Work::CountAnswers => done.add(u64::from(count_answers(&turns.problem, &turns.position))),
        Work::Start => start_each(turns, done),
    }
    Ok(())
}

fn measure(
    rt: &HostRuntime,
    asked: &Asked,
    title: &str,
    work: Work,
    all: &[Turns],
) -> io::Result<()> {
    let mut moves = Moves::new(rt.alloc());
    let mut done = Done::nothing();
    let begun = Instant::now(rt)?;
    for _ in 0..asked.rounds {
        for turns in all {
            do_work(work, turns, &mut moves, &mut done)?;
        }
    }
    print_done(rt, asked, title, begun, done)
}

/// Makes the lists and counts at each position of the trees, so many rounds of each, where the sum
/// is that of the moves; and asks for the numbers behind each check and each evasion, where it is
/// that of all numbers.
pub fn lists(rt: &HostRuntime, asked: &Asked) -> io::Result<()> {
    let trees = grown_trees(rt)?;
    let (checks, evasions) = (trees.attacking.as_slice(), trees.defending.as_slice());
    measure(rt, asked, "lists of checks", Work::ListChecks, checks)?;
    measure(rt, asked, "counts of checks", Work::CountChecks, checks)?;
    measure(rt, asked, "lists of evasions", Work::ListAnswers, evasions)?;
    measure(
        rt,
        asked,
        "counts of evasions",
        Work::CountAnswers,
        evasions,
    )?;
    measure(
        rt,
        asked,
        "start numbers behind checks",
        Work::Start,
        checks,
    )?;
    measure(
        rt,
        asked,
        "start numbers behind evasions",
        Work::Start,
        evasions,
    )
}
