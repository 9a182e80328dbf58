// The problems of the standard input.
use sfen_text::read_sfen;
use shogi_rules::{Problem, accept_problem};
use std::io::{self, BufRead, BufReader};

/// The problem of a text: an SFEN, with notes behind a tab; none where the text has none.
pub fn problem_of(line: &[u8]) -> Option<Problem> {
    let text = line.split(|byte| *byte == b'\t').next()?;
    let position = read_sfen(text).ok()?;
    accept_problem(position).ok()
}

/// The problems of the standard input, one a line; lines that hold none are passed over.
pub fn problems(rt: &HostRuntime) -> io::Result<Vec<Problem>> {
    let mut problems = Vec::new(rt.alloc());
    let input = BufReader::new(rt.alloc(), rt.reader())?;
    for line in input.split(rt.alloc(), b'\n') {
        if let Some(problem) = problem_of(line?.as_slice()) {
            problems.push(problem)?;
        }
    }
    Ok(problems)
}
