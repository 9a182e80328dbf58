//! Measures the parts of the solver, one by one: `speed WHAT [ROUNDS] [times]`.
//!
//! WHAT is `read`, which reads the standard input whole; `lists`, which makes the lists of checks
//! and evasions, and their counts, at the problems of the standard input, a line each, and at the
//! positions behind their checks and the evasions to these, and asks for the numbers with which the
//! search begins behind each of these moves; `search`, which solves these problems, at most ROUNDS
//! milliseconds each; `world`, which solves them by ROUNDS workers in turn; `tables`, which looks
//! and enters in a table of 16,384 rows that is full, and in one of 1,048,576, which takes a
//! gigabyte; `words`, which steps ROUNDS times on words that threads share, and `desk`, which
//! draws ROUNDS visits of a desk that they share, each on one thread and on two and four at once;
//! the word of a part, as [`parts::ROWS`] lists them; or `all`, every part. A part does its work
//! ROUNDS times, 1 where no number is given, and a line says how many calls that were and a check
//! sum of what they answered, the same on every machine. Of a problem that is searched it says the
//! verdict, the visits, and the height of what shows it. With `times` it also says how long each
//! call took, in nanoseconds, and how many a second there were. Other words end with status 1.
#![tactic(auto)]

mod boards;
mod lists;
mod pace;
mod parts;
mod problems;
mod searches;
mod shared;
mod tables;
mod trees;
mod words;

use boards::Boards;
use pace::{Done, print_done};
use parts::{ROWS, run};
use std::io;
use std::time::Instant;
use tsume_io::{StdSource, read_all};
use words::Asked;

// The most bytes that are read: 256 MiB.
const LIMIT: usize = 268_435_456;

fn main(rt: HostRuntime) -> io::Result<()> {
    let Some(asked) = words::asked_for(&rt)? else {
        return Err(refused());
    };
    match asked.what.as_str() {
        "read" => read(&rt, &asked),
        "lists" => lists::lists(&rt, &asked),
        "search" => searches::searches(&rt, &asked),
        "world" => searches::worlds(&rt, &asked),
        "tables" => {
            tables::tables(&rt, &asked, 16_384)?;
            tables::tables(&rt, &asked, 1_048_576)
        }
        "words" => shared::words(&rt, &rt, &asked),
        "desk" => {
            let Some(boards) = Boards::set_up(rt.alloc())? else {
                return Err(refused());
            };
            shared::desk(&rt, &rt, &asked, &boards.opening)
        }
        _ => measure(&rt, &asked),
    }
}

fn refused() -> io::Error {
    io::Error::from(io::ErrorKind::InvalidInput)
}

// Reads the standard input whole; the calls are its bytes.
fn read(rt: &HostRuntime, asked: &Asked) -> io::Result<()> {
    let begun = Instant::now(rt)?;
    let mut source = StdSource::new(rt.reader());
    let Ok(bytes) = read_all(rt.alloc(), &mut source, LIMIT) else {
        return Err(refused());
    };
    let done = Done {
        calls: bytes.len() as u64,
        sum: 0,
    };
    print_done(rt, asked, "bytes read", begun, done)
}

// Runs the parts of this word, and prints what they did.
fn measure(rt: &HostRuntime, asked: &Asked) -> io::Result<()> {
    let Some(boards) = Boards::set_up(rt.alloc())? else {
        return Err(refused());
    };
    let mut is_part = false;
    for (word, title, part) in ROWS {
        if asked.what.as_str() == word || asked.what.as_str() == "all" {
            let begun = Instant::now(rt)?;
            let done = run(part, rt.alloc(), &boards, asked.rounds)?;
            print_done(rt, asked, title, begun, done)?;
            is_part = true;
        }
    }
    if is_part { Ok(()) } else { Err(refused()) }
}
