//! Answers questions about the rules of shogi: one question a line on standard input, one answer a
//! line on standard output.
//!
//! - `sfen TEXT`, where TEXT is all that follows the one space: the position that TEXT stands for,
//!   written again without
//!   a move number; or the first fault of TEXT, with its place in it.
//! - `legal MOVE SFEN`: `ok` and the position after the move; or the first reason against it, by
//!   its name in
//!   [`shogi_rules::Illegal`].
//! - `checks SFEN`: the checks of the side to move, in the order of moves with spaces between, or
//!   `none`.
//! - `answers MOVE SFEN`, where MOVE is a check: the legal moves after it in the same form, or
//!   `none`.
//!
//! The lists are made by sets of squares (`check_moves`, `evasions`).
//!
//! Any other line is answered `not a question`: also one whose SFEN stands for no position, or
//! whose side not to move is in check, save behind `sfen`. The end is status 0; want of memory, and
//! a failed read or write, end with status 1.
#![tactic(auto)]

mod answer;
mod question;
#[cfg(test)]
mod tests;
mod write;

use std::io::{self, BufRead, BufReader, BufWriter, Write};

fn main(rt: HostRuntime) -> io::Result<()> {
    let input = BufReader::new(rt.alloc(), rt.reader())?;
    let mut output = BufWriter::new(rt.alloc(), io::writer(&rt))?;
    for line in input.split(rt.alloc(), b'\n') {
        let line = line?;
        let Ok(answer) = answer::answer_to(rt.alloc(), line.as_slice()) else {
            return Err(write::no_memory());
        };
        write::write_answer(rt.alloc(), &mut output, &answer)?;
        output.write_all(b"\n")?;
    }
    output.flush()
}
