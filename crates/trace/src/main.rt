//! Writes down the search of a problem by one worker, or what happens in the world of several: what
//! each asks, and what it is told, a line each.
//!
//! The standard input has two lines: the problem's SFEN, and `expansions N room N rows N shards N`.
//! The lines that are printed:
//!
//! - `poll no`; `draw go N`, `draw done`, `draw spent`; `claim room N`, `claim noroom`; `post`
//! - `enter SFEN PN DN kept SLOT`, `enter SFEN PN DN unkept`
//! - `look SFEN new`, `look SFEN open PN DN BELOW`, `look SFEN mate HEIGHT`, `look SFEN escape
//!   HEIGHT TAG`, where TAG is how many positions' repetitions it depends on; `look SFEN lent mate
//!   HEIGHT`, `look SFEN lent escape HEIGHT`, where the note is of other hands
//! - `leave SFEN numbers PN DN`, `leave SFEN mate HEIGHT`, `leave SFEN escape HEIGHT TAG`, `leave
//!   SFEN nothing`
//! - at last `end` and how it ended: `posted`, `spent`, `noroom`, `toohigh`, `nomemory` or
//!   `stopped`
//!
//! Where the settings begin with `workers N`, the lines behind them are a schedule: `step N`,
//! `raise N` and `starve N`, N a worker's number, from 1. It happens in the world of these workers;
//! each line that is printed begins with the number of its worker, and the last one is `drawn N
//! claimed N posted yes ended N counts N`, or `posted no`: the visits and the room that were given,
//! how many workers have ended, and how many visits are below the slots of the table.
//!
//! Where they begin with `ports N`, the same happens to workers each of which has a port of its own
//! of one shared table and one shared desk, whose rows go from one to the next.
//!
//! An input of another form, want of memory, and a failed read or write end with status 1.
#![tactic(auto)]

mod asked;
mod flag_stop;
mod lines;
mod place;
mod ports;
mod recorder;
mod told;

use std::io::{self, Write};

fn main(rt: HostRuntime) -> io::Result<()> {
    let input = io::read_to_string(rt.alloc(), rt.reader())?;
    let Some(asked) = asked::read_asked(rt.alloc(), input.as_str())? else {
        eprintln!(rt;
            "no problem, or not `expansions N room N rows N shards N`, or not `step N`, `raise N` or `starve N`"
        )?;
        return Err(io::Error::from(io::ErrorKind::InvalidInput));
    };
    let lines = told::trace(rt.alloc(), &asked)?;
    io::writer(&rt).write_all(lines.as_slice())
}
