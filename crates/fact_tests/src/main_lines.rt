// Main lines that are known from elsewhere.
use crate::same::{same, shown};
use crate::texts::{MATE_IN_ONE, TWO_ROOKS};
use cert_check::{Verdict, check};
use cert_text::{Certificate, read_cert};
use play_line::main_line;
use std::alloc::Global;
use std::test::Fail;
use usi_text::mate_line;

// The mate by two rooks with a rank above the others at 6a.
const LONGEST_AT_LAST: &str =
    "certificate 1 mate 4\nproblem 9/4k4/8R/9/9/9/9/9/9 b R\n2 1c1a 3k5/R8/8R/9/9/9/9/9/9 b -\n1 1c1a 4k4/R8/8R/9/9/9/9/9/9 b -\n1 1c1a 5k3/R8/8R/9/9/9/9/9/9 b -\n3 R*9b 9/4k4/8R/9/9/9/9/9/9 b R\nend\n";

// The mate by two rooks for an attacker who has a pawn too, which no listed position has.
const TWO_ROOKS_AND_A_PAWN: &str =
    "certificate 2 mate 4\nproblem 9/4k4/8R/9/9/9/9/9/9 b RP\n1 1c1a 3k5/R8/8R/9/9/9/9/9/9 b -\n1 1c1a 4k4/R8/8R/9/9/9/9/9/9 b -\n1 1c1a 5k3/R8/8R/9/9/9/9/9/9 b -\n2 R*9b 9/4k4/8R/9/9/9/9/9/9 b R\nend\n";

// What is said of the main line of a mate's certificate; nothing, where it isn't valid for its own
// problem.
fn line_of(alloc: Global, text: &str) -> Result<Vec<u8>, Fail> {
    let certificate = read_cert(alloc, text.as_bytes())?;
    if let Certificate::Mate(mate) = &certificate {
        match check(alloc, mate.problem(), &certificate)? {
            Verdict::Accepted => {
                let moves = main_line(alloc, mate.problem(), mate)?;
                return Ok(mate_line(alloc, &moves)?);
            }
            Verdict::Refused { entry: _, why: _ } => {}
        }
    }
    Ok(Vec::new(alloc))
}

#[test]
fn main_lines_follow_the_longest_defence(rt: HostRuntime) -> Result<(), Fail> {
    let cases = [
        (MATE_IN_ONE, "checkmate G*5b"),
        (TWO_ROOKS, "checkmate R*9b 5b4a 1c1a"),
        (TWO_ROOKS_AND_A_PAWN, "checkmate R*9b 5b4a 1c1a"),
        (LONGEST_AT_LAST, "checkmate R*9b 5b6a 1c1a"),
    ];
    for (text, expected) in &cases {
        let line = line_of(rt.alloc(), *text)?;
        same(&rt, text, shown(&line), *expected);
    }
    Ok(())
}
