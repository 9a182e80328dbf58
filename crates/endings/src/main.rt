//! Shows how runs of `tsume` end. First come the runs of the file `runs`, a line each, over memory:
//! of each the line, the status, and what came on standard output (`out`) and on standard error
//! (`err`). Then the program is `tsume` itself, on its own words and its standard input, and ends
//! with the status of that run. So one stored run holds each status and fault, and a further
//! command is a line more.
//!
//! A line of `runs` is `WORDS < INPUT`, or the words alone where the input is empty. Among the
//! words `_` stands for a space; in the input `\n`, `\r` and `\t` stand for what they mostly do,
//! and `\x{FF}` for a byte. In front may stand `[read N]` or `[write N]`, where the source or the
//! sink fails at its call of this number, `[poll N]`, where the search is stopped at this poll, or
//! `[blanks N]`, where so many spaces stand before the input. An empty line, and one that begins
//! with `#`, is skipped.
#![tactic(auto)]

mod line;
mod running;

use tsume_app::{Exit, start};

fn main(rt: HostRuntime) -> Exit {
    // Where the file, memory or the output is wanting, lines of the stored run are missing.
    running::tell_all(&rt).ok();
    start(&rt, rt.stderr())
}
